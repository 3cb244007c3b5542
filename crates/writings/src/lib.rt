// What is written of a calculation: its answer, and the request `column`, which writes a column of its matrix.
#![tactic(auto)]

pub mod column;
pub mod write;
