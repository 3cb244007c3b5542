// What both calculations share: the position, its portions, how a calculation closes, its sizes, and the checks that both make.
#![tactic(auto)]

pub mod checks;
pub mod plan;
pub mod position;
