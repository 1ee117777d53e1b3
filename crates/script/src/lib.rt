// The reader of scripts: a text is checked once as a whole, and then read again from positions in it.
#![tactic(auto)]

pub mod bad_line;
pub mod checks;
pub mod headers;
pub mod keys;
pub mod numbers;
pub mod requests;
pub mod shares;
pub mod turns;
