// Decimal numbers and lines, written as bytes into a lent output.
#![tactic(auto)]

pub mod lines;
pub mod puts;
