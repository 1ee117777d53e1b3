// How a table of workers and an answer are numbers, so that a host in another language can keep the one and read the
// other.
#![tactic(auto)]

pub mod kept;
pub mod packing;
pub mod reading;
