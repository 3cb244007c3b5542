// What forward dynamics keeps in the workspace, and the steps on one joint's numbers there (`forward_dynamics.rs`).
#![tactic(auto)]

pub mod body;
pub mod eliminate;
pub mod layout;
pub mod loads;
pub mod reduced;
pub mod term;
pub mod whole;
