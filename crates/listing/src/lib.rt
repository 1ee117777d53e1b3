// A listing: the call, the contents line, and the body, which is written by walks over the lists of a lent catalogue.
#![tactic(auto)]

pub mod body;
pub mod call;
pub mod contents;
pub mod walks;
