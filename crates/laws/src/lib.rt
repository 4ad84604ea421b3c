// Theorems: each is the contract of a function that does nothing else, so that the check asks for its proof.
#![tactic(auto)]

pub mod answers;
pub mod itineraries;
pub mod journeys;
pub mod plans;
pub mod runs;
pub mod updating;
