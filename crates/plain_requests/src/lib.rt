// The requests of `desk` that make the plain matrix.
#![tactic(auto)]

pub mod request;
