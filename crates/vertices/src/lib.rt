// The looks of AddV and RemV, and what they settle.
#![tactic(auto)]

pub mod look;
pub mod settle;
pub mod step;
