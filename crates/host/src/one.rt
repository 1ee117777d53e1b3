// A step and taking up, on the one record that they read and store back.
ghost use Rattle.std.specs.Prelude.{◌≡◌};
ghost use Rattle.catalogue.specs.Lent.{memory_of};
ghost use Rattle.catalogue.specs.Workers.{asks};
ghost use Rattle.border.specs.Kept.{slot};
ghost use Rattle.host.specs.Promised.{StepsOne, TakesUpOne};
ghost use Rattle.host.specs.Moves.{moved, refused, settled, entered};

use border::kept::Record;
use border::packing::packed_answer;
use calls::admit::admit;
use calls::record::step_record;
use catalogue::answers::{Answer, Refusal};
use catalogue::workers::{Pair, Place, Request, Worker};
use memory::checks::{lend, sized};
use memory::{KEYS_SIZE, WORDS_SIZE};
use workers::checks::worker_fits;
use workers::records::bare;
use workers::requests::busy_at;

// The record after the call, and what the call returns.
#[derive(Clone, Copy)]
pub struct Moved {
    pub kept: Record,
    pub told: u64,
}

// A call reads and stores back this record.
pub fn slot(worker: u32) -> usize
    ensures { result ≡ slot worker }
{
    (worker % 8) as usize
}

// A refusal keeps the record unchanged. A call returns it where it sees the reason: a result that held a record would be
// cleared and copied on its way, at each step.
#[tactic(auto, unfolding(crate::specs::Moves::refused))]
fn refuse(r: Record, refusal: Refusal) -> Moved
    ensures { result ≡ refused r refusal }
{
    Moved {
        kept: r,
        told: packed_answer(Err(refusal)),
    }
}

#[tactic(auto, unfolding(crate::specs::Moves::moved))]
fn move_to(w: Worker, answer: Answer) -> Moved
    ensures { result ≡ moved w answer }
{
    Moved {
        kept: Record::from(w),
        told: packed_answer(Ok(answer)),
    }
}

// A step that has decided, its refusals among the rest.
fn settle(r: Record, w: Worker, answer: Result<Answer, Refusal>) -> Moved
    ensures { result ≡ settled r w answer }
{
    match answer {
        Ok(answer) => move_to(w, answer),
        Err(refusal) => refuse(r, refusal),
    }
}

// The memory, the worker's number, then its place.
#[tactic(auto, using(memory::proofs::Sizes::sizes))]
pub fn step_one(keys: &mut [i32], words: &mut [u32], count: u32, worker: u32, r: Record) -> Moved
    ensures { StepsOne (memory_of keys.old words.old) count worker r result keys.new words.new }
{
    let Ok(()) = sized(keys, words) else {
        return refuse(r, Refusal::Room);
    };
    if !worker_fits(count, worker) {
        return refuse(r, Refusal::Worker);
    }
    let w = Worker::from(r);
    if !busy_at(w.place) {
        return refuse(r, Refusal::Idle);
    }
    let keys = keys.as_mut_array::<KEYS_SIZE>().unwrap();
    let words = words.as_mut_array::<WORDS_SIZE>().unwrap();
    let s = step_record(keys, words, w);
    settle(r, s.worker, s.answer)
}

// Where the request begins, or a refusal.
fn enter(r: Record, first: Result<Place, Refusal>) -> Moved
    ensures { result ≡ entered r first }
{
    match first {
        Ok(place) => move_to(bare(place), Answer::Going { met: 0 }),
        Err(refusal) => refuse(r, refusal),
    }
}

// The memory, the worker's number, then what `admit` looks at.
fn take_up_admitted(
    keys: &[i32],
    words: &[u32],
    count: u32,
    worker: u32,
    r: Record,
    q: Request,
) -> Moved
    ensures { TakesUpOne (memory_of keys.now words.now) count worker r q result }
{
    let Ok(lent) = lend(keys, words) else {
        return refuse(r, Refusal::Room);
    };
    if !worker_fits(count, worker) {
        return refuse(r, Refusal::Worker);
    }
    let w = Worker::from(r);
    enter(r, admit(lent, w.place, q))
}

// The catalogue is only read.
pub fn take_up_one(
    keys: &[i32],
    words: &[u32],
    count: u32,
    worker: u32,
    r: Record,
    code: u32,
    k: i32,
    l: i32,
) -> Moved
    ensures { TakesUpOne (memory_of keys.now words.now) count worker r (asks code k l) result }
{
    let q = Request {
        code,
        pair: Pair { k, l },
    };
    take_up_admitted(keys, words, count, worker, r, q)
}
