// What the calls answer.
use crate::workers::{Table, Worker};

// The refusals that a call on workers and catalogues can give, with their numbers of document 01.
// That of a script carries its line: see the module `script`.
#[derive(Clone, Copy)]
pub enum Refusal {
    Room = 20,
    Worker = 21,
    Busy = 22,
    Idle = 23,
    Code = 24,
    Key = 25,
    Torn = 26,
}

// What taking up and a step answer where they are not refused: going on, with the number of series that the trial has
// met; or a reply, by its number of document 01, of which the promises speak (`Cycle`, `NoRoom`).
#[derive(Clone, Copy)]
pub enum Answer {
    Going { met: u32 },
    Reply { number: u8 },
}

// The answer, with the table after the call.
#[derive(Clone, Copy)]
pub struct Outcome {
    pub table: Table,
    pub answer: Result<Answer, Refusal>,
}

// One step of one record: the record after it, and the answer.
#[derive(Clone, Copy)]
pub struct Stepped {
    pub worker: Worker,
    pub answer: Result<Answer, Refusal>,
}
