// The office for C: numbers, and memory that the caller lends. `include/yewcribbage.h` says what each function does.
#![tactic(auto)]

mod code;
pub mod itineraries;
pub mod questions;
pub mod updating;
