// The visits of the mass matrix by composite bodies (`mass_matrix.rs`), on a fixed or a floating root.
#![tactic(auto)]

pub mod kernel;
pub mod task;
