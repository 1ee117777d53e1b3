// What becomes of the answer of a step: a reply gets a line after those of the replies before it.
ghost use Rattle.std.specs.Prelude.{◌≡◌, ◌+◌, ◌≤◌, length};
ghost use Rattle.run.specs.Turns.{moved, told, lines_told};

use crate::states::State;
use catalogue::answers::{Answer, Outcome};
use catalogue::workers::Table;
use text::lines::put_four;

// Another table, and no reply.
fn moved(s: State, table: Table) -> State
    ensures { result ≡ moved s table }
{
    State { table, ..s }
}

pub fn tell(lines: &mut [u8], s: State, position: u32, worker: u32, code: u32, o: Outcome) -> State
    requires end_in_bounds { s.end + 48 ≤ length lines.old }
    requires replies_bound { s.replies ≤ 1024 }
    ensures value { result ≡ told s o.table position worker code o.answer }
    ensures lines_after { lines.new ≡ lines_told lines.old s.end position worker code o.answer }
{
    let table = o.table;
    let answer = o.answer;
    match answer {
        Ok(Answer::Going { met: _ }) | Err(_) => moved(s, table),
        Ok(Answer::Reply { number }) => {
            let end = put_four(lines, s.end, position, worker, code, number as u32);
            let left = s.left;
            State {
                table,
                left,
                replies: s.replies + 1,
                end,
            }
        }
    }
}
