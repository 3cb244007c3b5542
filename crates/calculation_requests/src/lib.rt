// The requests of `desk` that make a calculation.
#![tactic(auto)]

pub mod request;
