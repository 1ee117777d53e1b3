// The looks of ConE.
ghost use Rattle.std.specs.Prelude.{◌≡◌};
ghost use Rattle.catalogue.specs.Steps.Contains.{settle_contains_edge, step_contains_edge};
ghost use Rattle.memory.specs.Memories.{held};

use catalogue::links::{ADDED, Link};
use catalogue::steps::{BothSeen, Decision};
use catalogue::workers::{Ends, Place};
use looks::both::see_both;
use looks::decisions::{go_to, reply};
use memory::Lent;
use memory::reads::{edge_key, edge_link, edge_target};

// At an edge with the key l: its tag, its target, then the marks of u and v.
#[tactic(auto, using(laws::proofs::Pools::edge_in_pool), unfolding(catalogue::specs::Steps::Contains::settle_contains_edge))]
fn settle_contains_edge(lent: Lent, ends: Ends, c: u16) -> Decision
    ensures { result ≡ settle_contains_edge (held lent.entry) ends c }
{
    let no = reply(8);
    let Some(Link { tag, .. }) = edge_link(lent.words, c) else {
        return Decision::Torn;
    };
    if tag == ADDED {
        let Some(vertex) = edge_target(lent.words, c) else {
            return Decision::Torn;
        };
        if vertex == ends.v {
            let both = see_both(lent, ends.u, ends.v);
            return match both {
                BothSeen::Torn => Decision::Torn,
                BothSeen::Dead => no,
                BothSeen::Standing => reply(1),
            };
        }
        return no;
    }
    no
}

// One step of ConE at the edge c.
#[tactic(auto, using(laws::proofs::Ways::ways), unfolding(catalogue::specs::Steps::Contains::step_contains_edge))]
pub fn step_contains_edge(lent: Lent, ends: Ends, c: u16) -> Decision
    ensures { result ≡ step_contains_edge (held lent.entry) ends c }
{
    if c < 2048 {
        let key = edge_key(lent.keys, c);
        if key < ends.pair.l {
            let Some(Link { next, .. }) = edge_link(lent.words, c) else {
                return Decision::Torn;
            };
            return go_to(Place::ConE { ends, c: next });
        }
        if key == ends.pair.l {
            return settle_contains_edge(lent, ends, c);
        }
        return reply(8);
    }
    Decision::Torn
}
