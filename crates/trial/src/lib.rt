// The trial, by the cases (a) to (d). It reads what it keeps, and says what is met or taken.
#![tactic(auto)]

pub mod ends;
pub mod open;
pub mod shut;
