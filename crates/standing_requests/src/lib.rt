// The request of `desk` that marks the entries of a matrix that stand.
#![tactic(auto)]

pub mod request;
