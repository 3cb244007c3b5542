// The arm's model: its joints, links and tree.
#![tactic(auto)]

pub mod joint;
pub mod model;
pub mod posed;
pub mod topology;
