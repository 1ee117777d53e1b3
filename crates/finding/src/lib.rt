// The looks that change nothing: those of ConV, by which the edge calls find u and v, and those of ConE.
#![tactic(auto)]

pub mod edge;
pub mod ends;
pub mod vertex;
