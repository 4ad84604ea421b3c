// The plan in lent memory: legs, walks and changes, the check of it, and the checked plan.
#![tactic(auto)]

pub mod bounds;
pub mod checking;
mod counted;
pub mod counts;
mod digits;
pub mod leg;
pub mod name;
pub mod order;
pub mod refusal;
mod sorting;
pub mod timetable;
pub mod walk;
pub mod words;
pub mod writing;
