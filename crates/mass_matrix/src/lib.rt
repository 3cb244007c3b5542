// The mass matrix (`mass_matrix.rs`) as a calculation in visits, on a fixed or a floating root, and a column of it.
#![tactic(auto)]

pub mod checks;
pub mod column;
pub mod mass_matrix;
pub mod run;
