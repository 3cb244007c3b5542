// The number routines. The crates above rely on them only by what they promise.
#![tactic(auto)]

pub mod double;
pub mod mat3;
pub mod quaternion;
pub mod vec3;
