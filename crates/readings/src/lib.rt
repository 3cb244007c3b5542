// What the requests that make a calculation hand in, and the buffers that they are lent.
#![tactic(auto)]

pub mod buffer;
pub mod lent;
pub mod read;
