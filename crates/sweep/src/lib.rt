// A sweep: what is live in one lent catalogue, written into a second one.
#![tactic(auto)]

pub mod checks;
pub mod copies;
pub mod nodes;
pub mod sweep;
pub mod walks;
