// The visits of forward dynamics in their order, and the places that each sets.
#![tactic(auto)]

pub mod kernel;
pub mod task;
