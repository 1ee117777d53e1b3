// The walk over the live vertices: each list is walked, and the live edges of all are summed.
ghost use Rattle.std.specs.Prelude.{◌≡◌, ◌+◌, ◌*◌, ◌≤◌, leb};
ghost use Rattle.survey.specs.Walks.{asks_of, lists_from};
ghost use Rattle.memory.specs.Memories.{held};

use crate::edges::edges_at;
use crate::surveys::Survey;
use crate::tests::{next_vertex, unmarked};

fn within_limit(seen: u32) -> bool
    ensures { result ≡ leb seen 2047 }
{
    seen <= 2047
}

// `left` is what the definition allows a walk; the sum grows by a pool at each vertex at most.
#[tactic(auto, using(crate::proofs::ListLaws::lists_cases))]
pub fn lists_from(survey: Survey, seen: u32, left: u16, x: u8) -> bool
    requires { seen + 2048 * left ≤ 524288 }
    ensures { result ≡ lists_from (asks_of survey.entry.sweep) (held survey.entry.lent) seen left x }
{
    if left == 0 {
        return within_limit(seen);
    }
    if x == 1 {
        return within_limit(seen);
    }
    let next = next_vertex(survey.lent.words, x);
    if unmarked(survey.lent.words, x) {
        let Some(live) = edges_at(survey, x) else {
            return false;
        };
        return lists_from(survey, seen + live, left - 1, next);
    }
    lists_from(survey, seen, left - 1, next)
}
