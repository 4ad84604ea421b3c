// The office that keeps a plan: questions, updates and itineraries that were given, one after the other.
#![tactic(auto)]

mod answering;
mod index;
pub mod office;
mod ready;
pub mod request;
pub mod response;
pub mod serve;
