// What one step decides, by the place of the record; and the record, the write and the answer that follow.
// The crate `calls` makes the write.
#![tactic(auto)]

pub mod carry;
pub mod decide;
