// The requests `model` and `lend`, which set the current model.
#![tactic(auto)]

pub mod lend;
pub mod model;
