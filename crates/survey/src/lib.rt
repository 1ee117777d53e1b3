// The soundness walk over a lent catalogue, which it only reads.
#![tactic(auto)]

pub mod edges;
pub mod lists;
pub mod soundness;
pub mod surveys;
pub mod tests;
pub mod walks;
