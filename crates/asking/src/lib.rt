// What the programs over the calls share: one request from its taking up to its reply, sums of replies, and printing.
#![tactic(auto)]

pub mod many_vertices;
pub mod perform;
pub mod print;
pub mod tally;
