// Forward dynamics (`forward_dynamics.rs`) in portions of its visits, on a fixed and on a floating root.
#![tactic(auto)]

pub mod checks;
pub mod forward_dynamics;
pub mod run;
