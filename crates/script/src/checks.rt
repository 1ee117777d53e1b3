// A whole text, checked once: it is a script, or its first bad line has a number.
ghost use Rattle.std.specs.Prelude.{◌≡◌, ◌≤◌};
ghost use Rattle.script.specs.Checks.{Answers, ending_at};

use crate::bad_line::BadLine;
use crate::headers::{Heading, read_header};
use crate::shares::{Share, Shares, read_shares};
use crate::turns::check_schedule;

// The request lines of each worker, for the workers below the number of workers; and where the schedule begins, with
// so many turns.
#[derive(Clone, Copy)]
pub struct Checked {
    pub workers: u32,
    pub shares: [Share; 8],
    pub schedule: usize,
    pub turns: u32,
}

// The schedule, and nothing after it.
#[tactic(auto, using(crate::proofs::CheckLaws::end_cases))]
fn check_end(text: &[u8], h: Heading, shares: Shares) -> Result<Checked, BadLine>
    requires workers_bound { h.workers ≤ 8 }
    requires total_bound { h.total ≤ 1024 }
    ensures { result ≡ ending_at text.now h shares }
{
    let schedule = shares.next;
    let Some(next) = check_schedule(text, schedule, h.workers, h.turns) else {
        return Err(BadLine { line: 2 + h.total });
    };
    if next < text.len() {
        return Err(BadLine { line: 3 + h.total });
    }
    let found = shares.shares;
    Ok(Checked {
        workers: h.workers,
        shares: found,
        schedule,
        turns: h.turns,
    })
}

// A text of more than 49,152 bytes is bad before it is read.
#[tactic(auto, using(crate::proofs::WholeLaws::whole_cases))]
pub fn check(text: &[u8]) -> Result<Checked, BadLine>
    ensures { Answers text.now result }
{
    if 49152 < text.len() {
        return Err(BadLine { line: 0 });
    }
    let h = read_header(text).ok_or(BadLine { line: 1 })?;
    let none = [Share { start: 0, count: 0 }; 8];
    let shares = read_shares(text, h.next, h.workers, 0, 2, h.counts, none)?;
    check_end(text, h, shares)
}
