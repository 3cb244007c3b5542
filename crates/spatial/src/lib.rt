// Frames, twists and wrenches (`spatial.rs`), and the operators between them.
#![tactic(auto)]

pub mod frame;
pub mod operators;
pub mod twist;
pub mod wrench;
