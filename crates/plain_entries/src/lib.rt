// One entry of the mass matrix by itself, by recursion on the tree and with no workspace: the composite of a link, and the walk up.
#![tactic(auto)]

pub mod entries;
pub mod gather;
