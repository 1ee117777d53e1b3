// The header line: the number of workers, a count of requests for each, and the length of the schedule.
ghost use Rattle.std.specs.Prelude.{◌≡◌, ◌≤◌, []};
ghost use Rattle.script.specs.Headers.{told, header_line, counts_at};

use crate::numbers::read_number;

// What a header says. The counts from the number of workers on belong to no worker.
#[derive(Clone, Copy)]
pub struct Heading {
    pub workers: u32,
    pub total: u32,
    pub counts: [u32; 8],
    pub turns: u32,
    pub next: usize,
}

// The number after all counts is the length of the schedule.
#[tactic(auto, using(crate::proofs::CountLaws::counts_cases))]
fn read_counts(text: &[u8], at: usize, workers: u32) -> Option<Heading>
    requires at_least_one { 1 ≤ workers }
    requires workers_bound { workers ≤ 8 }
    ensures { told result ≡ counts_at workers [] text.now at }
{
    let mut counts = [0; 8];
    let mut total = 0;
    let mut place = at;
    for i in 0..workers {
        let n = read_number(text, place)?;
        if n.last {
            return None;
        }
        if 1024 - total < n.value {
            return None;
        }
        counts[i as usize] = n.value;
        total += n.value;
        place = n.next;
    }
    let turns = read_number(text, place)?;
    if turns.last {
        if 8192 < turns.value {
            return None;
        }
        return Some(Heading {
            workers,
            total,
            counts,
            turns: turns.value,
            next: turns.next,
        });
    }
    None
}

#[tactic(auto, using(crate::proofs::HeaderLine::header_cases))]
pub fn read_header(text: &[u8]) -> Option<Heading>
    ensures { told result ≡ header_line text.now }
{
    let workers = read_number(text, 0)?;
    if workers.last {
        return None;
    }
    if workers.value < 1 {
        return None;
    }
    if 8 < workers.value {
        return None;
    }
    read_counts(text, workers.next, workers.value)
}
