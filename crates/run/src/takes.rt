// An idle worker takes up its next request, if it has one.
ghost use Rattle.std.specs.Prelude.{◌≡◌, ◌<◌};
ghost use Rattle.catalogue.specs.Lent.{memory_of};
ghost use Rattle.run.specs.Turns.{taken_next};

use crate::states::State;
use calls::take_up::take_up;
use script::requests::read_request;
use script::shares::Share;

#[tactic(auto, using(crate::proofs::TurnLaws::taking))]
pub fn take_next(text: &[u8], keys: &[i32], words: &[u32], s: State, worker: u32) -> State
    requires { worker < 8 }
    ensures { result ≡ taken_next text.now (memory_of keys.now words.now) s worker }
{
    let w = worker as usize;
    let share = s.left[w];
    if share.count == 0 {
        return s;
    }
    let Some(request) = read_request(text, share.start) else {
        return s;
    };
    let o = take_up(keys, words, s.table, worker, request.value);
    let mut next = s;
    next.table = o.table;
    next.left[w] = Share {
        start: request.next,
        count: share.count - 1,
    };
    next
}
