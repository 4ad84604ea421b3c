// Marks, the order among them, and the marks that answer a question.
#![tactic(auto)]

pub mod front;
pub mod mark;
