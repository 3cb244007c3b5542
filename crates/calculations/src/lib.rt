// A calculation made as a request of `desk` asks for it.
#![tactic(auto)]

pub mod make;
