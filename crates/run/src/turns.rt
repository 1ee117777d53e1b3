// One turn of the schedule.
ghost use Rattle.std.specs.Prelude.{◌≡◌, true};
ghost use Rattle.catalogue.specs.Calls.{worker_fits};
ghost use Rattle.catalogue.specs.Lent.{memory_of};
ghost use Rattle.catalogue.specs.Workers.{busy};
ghost use Rattle.calls.specs.Promised.{Steps};
ghost use Rattle.run.specs.Turns.{Ready, Turns};

use crate::states::State;
use crate::takes::take_next;
use crate::tells::tell;
use catalogue::answers::Outcome;
use catalogue::workers::Table;
use inplace::step_through;
use memory::{Keys, Words};
use workers::requests::{busy_at, request_of};
use workers::table::{put, worker_at};

// A busy worker's step: its record is taken out of the table, stepped by reference, and put back.
fn step_on(keys: &mut Keys, words: &mut Words, table: Table, worker: u32) -> Outcome
    requires worker_value { worker_fits table.count worker ≡ true }
    requires worker_value_2 { busy table worker ≡ true }
    ensures { Steps (memory_of keys.old words.old) table worker result keys.new words.new }
{
    let at = worker as usize;
    let w = worker_at(table, at);
    let s = step_through(keys, words, w);
    let moved = s.worker;
    let after = put(table, at, moved);
    let answer = s.answer;
    Outcome {
        table: after,
        answer,
    }
}

pub fn turn(
    text: &[u8],
    keys: &mut Keys,
    words: &mut Words,
    lines: &mut [u8],
    s: State,
    position: u32,
    worker: u32,
) -> State
    requires { Ready keys.old words.old lines.old s worker }
    ensures { Turns text.now (memory_of keys.old words.old) lines.old s position worker result keys.new words.new lines.new }
{
    let table = s.table;
    let w = worker_at(table, worker as usize);
    let place = w.place;
    if busy_at(place) {
        let request = request_of(place);
        let o = step_on(keys, words, table, worker);
        return tell(lines, s, position, worker, request.code, o);
    }
    take_next(text, keys, words, s, worker)
}
