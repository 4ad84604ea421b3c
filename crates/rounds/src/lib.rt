// The rounds: the answer to a question, with one boat, with one more, until so many.
#![tactic(auto)]

pub mod answer;
pub mod asking;
pub mod chains;
pub mod layout;
pub mod opening;
pub mod query;
pub mod reply;
pub mod rounds;
pub mod steps;
pub mod workspace;
