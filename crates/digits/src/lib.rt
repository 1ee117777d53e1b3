// Numbers read where they stand in a text. Nothing here knows what stands before or after a number.
#![tactic(auto)]

pub mod numbers;
pub mod signed;
