// The itinerary for a mark: of all journeys that reach it, the one that is named.
#![tactic(auto)]

pub mod arrivals;
mod choosing;
pub mod journey_for;
mod order;
pub mod search;
mod telling;
mod trace;
mod ways;
