// The host's side of the proved calls: what a C program links. The catalogue, the table of workers and the output are
// memory that the host lends and keeps. Each exported call has its file; `one` does the work of the two that move a
// worker.
#![tactic(auto)]

pub mod fresh;
pub mod list;
pub mod one;
pub mod runs;
pub mod sizes;
pub mod step;
pub mod sweeps;
pub mod table;
pub mod take_up;
