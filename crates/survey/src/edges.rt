// The walk of one edge list: each node is tested, and the live edges are counted.
ghost use Rattle.std.specs.Prelude.{◌≡◌, ◌+◌, ◌<◌, ◌≤◌};
ghost use Rattle.survey.specs.Walks.{asks_of, edges_from, edges_at};
ghost use Rattle.memory.specs.Memories.{held};

use crate::surveys::Survey;
use crate::tests::{edge_sound, is_live, next_edge};
use catalogue::links::Link;
use memory::reads::first_link;

// How many live edges, where all edges are sound.
// `left` is what the definition allows a walk: it ends there even if the links go round.
#[tactic(auto, using(crate::proofs::EdgeLaws::edges_cases))]
fn edges_from(survey: Survey, live: u32, left: u16, e: u16) -> Option<u32>
    requires e_bound { e < 2048 }
    requires left_bound { live + left ≤ 2048 }
    ensures { result ≡ edges_from (asks_of survey.entry.sweep) (held survey.entry.lent) live left e }
{
    if left == 0 {
        return Some(live);
    }
    if e == 0 {
        return Some(live);
    }
    if edge_sound(survey, e) {
        let next = next_edge(survey.lent.words, e);
        if is_live(survey.lent.words, e) {
            return edges_from(survey, live + 1, left - 1, next);
        }
        return edges_from(survey, live, left - 1, next);
    }
    None
}

#[tactic(auto, using(crate::proofs::EdgeLaws::whole_cases))]
pub fn edges_at(survey: Survey, x: u8) -> Option<u32>
    ensures { result ≡ edges_at (asks_of survey.entry.sweep) (held survey.entry.lent) x }
{
    let Some(Link { next, .. }) = first_link(survey.lent.words, x) else {
        return None;
    };
    edges_from(survey, 0, 2048, next)
}
