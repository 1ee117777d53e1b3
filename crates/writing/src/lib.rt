// The one change of a step: a write of each kind into the lent catalogue, and the write that a decision brings.
#![tactic(auto)]

pub mod writes;
