// The whole schedule, turn by turn.
ghost use Rattle.std.specs.Prelude.{◌≡◌, ◌≤◌, length};
ghost use Rattle.catalogue.specs.Catalogue.{fresh};
ghost use Rattle.catalogue.specs.Run.{run};
ghost use Rattle.memory.specs.Memories.{Hold};
ghost use Rattle.script.specs.Checks.{IsScript, script_in};
ghost use Rattle.run.specs.Stands.{Stands, begins};

use crate::states::State;
use crate::turns::turn;
use memory::{Keys, Words};
use script::checks::Checked;
use script::shares::Share;
use script::turns::read_turn;
use workers::table::idle_table;

// The lines of at most 1,024 replies have at most 11 bytes each; and there is room for writing one more.
pub const LINES: usize = 12288;

// All workers are idle, and each has all its requests left. That the array has eight
// members is stated for the loop, which cannot see it.
fn begin(workers: u32, left: [Share; 8]) -> State
    ensures value { result ≡ begins workers left }
    ensures left_len { length left ≡ 8 }
{
    let table = idle_table(workers);
    State {
        table,
        left,
        replies: 0,
        end: 0,
    }
}

// The text is a script, as its check found; the positions of the turns begin at 1.
pub fn play(
    text: &[u8],
    keys: &mut Keys,
    words: &mut Words,
    lines: &mut [u8; LINES],
    c: Checked,
) -> State
    requires is_script { IsScript text.now c }
    requires hold { Hold keys.old words.old fresh }
    ensures stands { Stands text.now keys.new words.new lines.new result (run (script_in text.now c)) }
    ensures end_bound { result.end ≤ 11264 }
{
    let shares = c.shares;
    let mut s = begin(c.workers, shares);
    let mut place = c.schedule;
    for done in 0..c.turns {
        let t = read_turn(text, place);
        s = turn(text, keys, words, lines, s, done + 1, t.worker);
        place = t.next;
    }
    s
}
