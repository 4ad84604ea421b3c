// What the programs read: their arguments, and files of numbers that begin with a plan.
#![tactic(auto)]

pub mod command;
pub mod numbers;
pub mod opening;
