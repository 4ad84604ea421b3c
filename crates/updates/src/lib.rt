// Updates of a plan in lent memory, and whether an itinerary still goes.
#![tactic(auto)]

mod adding;
pub mod applying;
mod cancelling;
mod delaying;
pub mod still;
pub mod update;
