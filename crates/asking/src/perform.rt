// One request by a lone worker, stepped until it is answered.
ghost use Rattle.std.specs.Prelude.{◌≡◌};
ghost use Rattle.catalogue.specs.Answers.{told, made_number};
ghost use Rattle.catalogue.specs.Lent.{memory_of};
ghost use Rattle.catalogue.specs.Workers.{asks};
ghost use Rattle.asking.specs.Asked.{Performs};

use calls::refusal::refusal_number;
use calls::step::step;
use calls::take_up::take_up;
use catalogue::answers::{Answer, Refusal};
use catalogue::workers::{Pair, Request};
use workers::table::idle_table;

// More than any request takes while no other worker steps: a walk for each key, one along a list of edges, and a
// trial that opens each vertex once.
const MOST_STEPS: u32 = 10000;

// The reply or the refusal, 0 if there was none after all the steps; and the steps.
#[derive(Clone, Copy)]
pub struct Performed {
    pub number: u8,
    pub steps: u32,
}

fn answer_number(answer: Result<Answer, Refusal>) -> u8
    ensures { result ≡ (told answer).number }
{
    match answer {
        Ok(Answer::Going { met: _ }) => 0,
        Ok(Answer::Reply { number }) => number,
        Err(refusal) => refusal_number(refusal),
    }
}

pub fn made_number(made: Result<(), Refusal>) -> u8
    ensures { result ≡ made_number made }
{
    match made {
        Ok(()) => 0,
        Err(refusal) => refusal_number(refusal),
    }
}

pub fn perform(keys: &mut [i32], words: &mut [u32], code: u32, k: i32, l: i32) -> Performed
    ensures { Performs (memory_of keys.old words.old) (asks code k l) result keys.new words.new }
{
    let q = Request {
        code,
        pair: Pair { k, l },
    };
    let taken = take_up(keys, words, idle_table(1), 0, q);
    let mut table = taken.table;
    let answer = taken.answer;
    let mut number = answer_number(answer);
    for steps in 0..MOST_STEPS {
        if number != 0 {
            return Performed { number, steps };
        }
        let outcome = step(keys, words, table, 0);
        table = outcome.table;
        let next = outcome.answer;
        number = answer_number(next);
    }
    Performed {
        number,
        steps: MOST_STEPS,
    }
}
