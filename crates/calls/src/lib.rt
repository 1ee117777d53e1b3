// The calls of a host on workers: taking up a request, and one step.
// Each does its own checking, in document 01's order of refusals.
#![tactic(auto)]

pub mod admit;
pub mod record;
pub mod refusal;
pub mod step;
pub mod take_up;
