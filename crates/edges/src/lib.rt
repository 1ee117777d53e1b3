// The looks of AddE and RemE, by the cases (a) to (f), and what they settle.
#![tactic(auto)]

pub mod look;
pub mod settle;
pub mod step;
