// A run so far, as the code has it.
use catalogue::workers::Table;
use script::shares::Share;

// The workers; the request lines that each worker has left; how many replies there are, and how many bytes their lines.
#[derive(Clone, Copy)]
pub struct State {
    pub table: Table,
    pub left: [Share; 8],
    pub replies: u32,
    pub end: usize,
}
