// The three passes over the joints and the root's visit by the articulated-body algorithm (`forward_dynamics.rs`), both roots by one path.
#![tactic(auto)]

pub mod first;
pub mod fitted;
pub mod root;
pub mod second;
pub mod third;
