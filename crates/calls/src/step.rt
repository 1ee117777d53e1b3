// One step of one worker of a table.
ghost use Rattle.catalogue.specs.Lent.{memory_of};
ghost use Rattle.calls.specs.Promised.{Steps};

use crate::record::step_record;
use crate::refusal::refuse;
use catalogue::answers::{Outcome, Refusal};
use catalogue::workers::Table;
use memory::checks::sized;
use memory::{KEYS_SIZE, WORDS_SIZE};
use workers::checks::worker_fits;
use workers::requests::busy_at;
use workers::table::{put, worker_at};

// The memory, the worker's number, then its place.
#[tactic(auto, using(memory::proofs::Sizes::sizes, workers::proofs::CheckLaws::worker_below, crate::proofs::Stepping::stepping), unfolding(catalogue::specs::Lent::lent_step, catalogue::specs::Calls::step))]
pub fn step(keys: &mut [i32], words: &mut [u32], table: Table, worker: u32) -> Outcome
    ensures { Steps (memory_of keys.old words.old) table worker result keys.new words.new }
{
    let Ok(()) = sized(keys, words) else {
        return refuse(table, Refusal::Room);
    };
    if !worker_fits(table.count, worker) {
        return refuse(table, Refusal::Worker);
    }
    let at = worker as usize;
    let w = worker_at(table, at);
    if !busy_at(w.place) {
        return refuse(table, Refusal::Idle);
    }
    let keys = keys.as_mut_array::<KEYS_SIZE>().unwrap();
    let words = words.as_mut_array::<WORDS_SIZE>().unwrap();
    let s = step_record(keys, words, w);
    Outcome {
        table: put(table, at, s.worker),
        answer: s.answer,
    }
}
