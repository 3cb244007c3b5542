// The lists that the requests `model` and `lend` hand in: read from the words of a line, and as a lent model.
#![tactic(auto)]

pub mod lent;
pub mod read;
