// Random small plans, and what trying all their journeys gives. Programs hold the proved answers against it, so it knows
// no other crate and says what docs/RULES.md says a second time.
#![tactic(auto)]

pub mod chance;
pub mod journeys;
pub mod making;
pub mod small;
mod steps;
pub mod trying;
