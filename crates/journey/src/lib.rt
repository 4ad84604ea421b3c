// What follows what, and what a journey is.
#![tactic(auto)]

pub mod at;
pub mod checking;
pub mod question;
pub mod steps;
