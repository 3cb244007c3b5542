// The text of requests and answers: reading a line's words, numbers and lists, writing answers, and cutting input into lines.
#![tactic(auto)]

pub mod line;
pub mod list;
pub mod read;
pub mod write;
