// The schedule line: the numbers of the workers, turn by turn.
ghost use Rattle.std.specs.Prelude.{◌≡◌, ◌≤◌};
ghost use Rattle.script.specs.Turns.{turn_at, turns_at, schedule_at};

use crate::numbers::read_number;

// The worker whose turn it is, and where the next turn stands.
#[derive(Clone, Copy)]
pub struct Turn {
    pub worker: u32,
    pub next: usize,
}

// In a schedule that was checked; elsewhere it may return worker 0.
#[tactic(auto, using(crate::proofs::Taken::taken), unfolding(crate::specs::Turns::turn_at))]
pub fn read_turn(text: &[u8], at: usize) -> Turn
    ensures { result ≡ turn_at text.now at }
{
    let Some(n) = read_number(text, at) else {
        return Turn { worker: 0, next: 0 };
    };
    Turn {
        worker: n.value,
        next: n.next,
    }
}

// So many turns, of which the last one ends the line.
#[tactic(auto, using(crate::proofs::TurnLaws::turn_steps))]
fn check_turns(text: &[u8], at: usize, workers: u32, turns: u32) -> Option<usize>
    requires { workers ≤ 8 }
    ensures { result ≡ turns_at workers turns text.now at }
{
    let mut place = at;
    for i in 0..turns {
        let n = read_number(text, place)?;
        if workers <= n.value {
            return None;
        }
        if n.last {
            if i + 1 == turns {
                return Some(n.next);
            }
            return None;
        }
        place = n.next;
    }
    None
}

// Where the text goes on after the schedule. A schedule of no turns is an empty line.
#[tactic(auto, using(crate::proofs::ScheduleLine::schedule_cases))]
pub fn check_schedule(text: &[u8], at: usize, workers: u32, turns: u32) -> Option<usize>
    requires { workers ≤ 8 }
    ensures { result ≡ schedule_at workers turns text.now at }
{
    if 1 <= turns {
        return check_turns(text, at, workers, turns);
    }
    if text.len() <= at {
        return None;
    }
    if text[at] == 10 {
        return Some(at + 1);
    }
    None
}
