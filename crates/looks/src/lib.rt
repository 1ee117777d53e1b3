// What all looks share: the keys refused, the places to go on to, the marks of u and v, and decisions without a
// write.
#![tactic(auto)]

pub mod both;
pub mod decisions;
pub mod keys;
pub mod places;
