// The form by reference of one step: a worker's record is stepped where it lies.
#![tactic(auto)]

ghost use Rattle.std.specs.Prelude.{◌≡◌};
ghost use Rattle.catalogue.specs.Lent.{catalogue_in};
ghost use Rattle.catalogue.specs.Writes.{commit};
ghost use Rattle.catalogue.specs.Steps.Decide.{decide, stepped, write_of};
ghost use Rattle.memory.specs.Memories.{Hold};

use calls::record::step_record;
use catalogue::answers::{Answer, Refusal, Stepped};
use catalogue::workers::Worker;
use memory::{Keys, Words};

// The record lies with its owner; the covered step, by value, does the work.
pub fn step_in(keys: &mut Keys, words: &mut Words, w: &mut Worker) -> Result<Answer, Refusal>
    ensures value { result ≡ (stepped w.old (decide (catalogue_in keys.old words.old) w.old)).answer }
    ensures w_after { w.new ≡ (stepped w.old (decide (catalogue_in keys.old words.old) w.old)).worker }
    ensures hold { Hold keys.new words.new (commit (catalogue_in keys.old words.old) (write_of (decide (catalogue_in keys.old words.old) w.old))) }
{
    let s = step_record(keys, words, *w);
    *w = s.worker;
    s.answer
}

// For a caller that holds the record by value: the same contract as the covered step.
pub fn step_through(keys: &mut Keys, words: &mut Words, w: Worker) -> Stepped
    ensures value { result ≡ stepped w (decide (catalogue_in keys.old words.old) w) }
    ensures hold { Hold keys.new words.new (commit (catalogue_in keys.old words.old) (write_of (decide (catalogue_in keys.old words.old) w))) }
{
    let mut here = w;
    let answer = step_in(keys, words, &mut here);
    Stepped {
        worker: here,
        answer,
    }
}
