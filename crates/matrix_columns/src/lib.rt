// The columns of the mass matrix: the walk of an active joint's.
#![tactic(auto)]

pub mod column;
pub mod fitted;
pub mod walk;
