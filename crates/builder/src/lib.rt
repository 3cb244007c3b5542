// The builder of a model, with refusals 1 to 8 and 26.
#![tactic(auto)]

pub mod axis;
pub mod build;
pub mod checks;
