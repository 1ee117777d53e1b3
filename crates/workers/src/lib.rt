// A worker's record and the table of workers, by value; and the checks of counts and numbers.
#![tactic(auto)]

pub mod checks;
pub mod met;
pub mod reach;
pub mod records;
pub mod requests;
pub mod table;
