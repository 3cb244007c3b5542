// The places of the mass matrix's workspace, and composites in it.
#![tactic(auto)]

pub mod composite;
pub mod plan;
