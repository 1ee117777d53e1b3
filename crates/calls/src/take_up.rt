// Taking up a request.
ghost use Rattle.catalogue.specs.Lent.{memory_of};
ghost use Rattle.calls.specs.Promised.{TakesUp};

use crate::admit::admit;
use crate::refusal::refuse;
use catalogue::answers::{Answer, Outcome, Refusal};
use catalogue::workers::{Request, Table};
use memory::checks::lend;
use workers::checks::worker_fits;
use workers::records::bare;
use workers::table::{put, worker_at};

// The memory, the worker's number, then what `admit` looks at. The catalogue is only read.
#[tactic(auto, using(memory::proofs::Sizes::sizes, workers::proofs::CheckLaws::worker_below), unfolding(catalogue::specs::Lent::lent_take_up, catalogue::specs::Calls::take_up))]
pub fn take_up(keys: &[i32], words: &[u32], table: Table, worker: u32, q: Request) -> Outcome
    ensures { TakesUp (memory_of keys.now words.now) table worker q result }
{
    let Ok(lent) = lend(keys, words) else {
        return refuse(table, Refusal::Room);
    };
    if !worker_fits(table.count, worker) {
        return refuse(table, Refusal::Worker);
    }
    let at = worker as usize;
    let w = worker_at(table, at);
    match admit(lent, w.place, q) {
        Ok(first) => Outcome {
            table: put(table, at, bare(first)),
            answer: Ok(Answer::Going { met: 0 }),
        },
        Err(refusal) => refuse(table, refusal),
    }
}
