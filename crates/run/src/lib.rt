// A whole script: checked, run on memory that is made fresh, and its result written.
#![tactic(auto)]

pub mod call;
pub mod drills;
pub mod plays;
pub mod prints;
pub mod states;
pub mod takes;
pub mod tells;
pub mod turns;
