// The articulated-body algorithm in small steps, away from model and workspace: what one joint or the root works out in each pass (`forward_dynamics.rs`).
#![tactic(auto)]

pub mod first;
pub mod root;
pub mod second;
pub mod third;
