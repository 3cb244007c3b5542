// The requests that reach the number routines.
#![tactic(auto)]

pub mod routines;
