// What one look of AddE or RemE sees: the cases (a) to (f).
ghost use Rattle.std.specs.Prelude.{◌≡◌, ◌<◌};
ghost use Rattle.catalogue.specs.Steps.Edges.{link_behind, see_key, see_edge, see_behind, look_at_edge};
ghost use Rattle.memory.specs.Memories.{held};

use catalogue::links::{ADDED, EdgeLink, Link, MARKED, PLAIN};
use catalogue::steps::{BothSeen, EdgeSeen, Landed};
use catalogue::workers::{Ends, Prev};
use looks::both::see_both;
use memory::Lent;
use memory::reads::{edge_key, edge_link, edge_target, first_link, vertex_link};

// The link that p is.
fn link_behind(lent: Lent, u: u8, p: Prev) -> Option<EdgeLink>
    ensures { result ≡ link_behind (held lent.entry) u p }
{
    match p {
        Prev::First => first_link(lent.words, u),
        Prev::Edge { edge } => edge_link(lent.words, edge),
    }
}

// (e), (f): the key of c.
#[tactic(auto, using(laws::proofs::Ways::ways), unfolding(catalogue::specs::Steps::Edges::see_key))]
fn see_key(lent: Lent, ends: Ends, c: u16, kept: u8, next: u16, tag: u8) -> EdgeSeen
    requires { c < 2048 }
    ensures { result ≡ see_key (held lent.entry) ends.pair.l c kept next tag }
{
    let key = edge_key(lent.keys, c);
    if key < ends.pair.l {
        return EdgeSeen::Onward { next };
    }
    if key == ends.pair.l {
        return EdgeSeen::Settles {
            at: Landed {
                kept,
                next,
                tag,
                equal: true,
            },
        };
    }
    EdgeSeen::Settles {
        at: Landed {
            kept,
            next,
            tag,
            equal: false,
        },
    }
}

// (c), (d): the tag of c, and for an ADDED edge the mark of its target.
#[tactic(auto, unfolding(catalogue::specs::Steps::Edges::see_edge))]
fn see_edge(lent: Lent, ends: Ends, c: u16, kept: u8) -> EdgeSeen
    requires { c < 2048 }
    ensures { result ≡ see_edge (held lent.entry) ends.pair.l c kept }
{
    if c == 0 {
        return see_key(lent, ends, c, kept, 0, PLAIN);
    }
    let Some(Link { next, tag }) = edge_link(lent.words, c) else {
        return EdgeSeen::Torn;
    };
    if tag == MARKED {
        return EdgeSeen::Unlinks { kept, next };
    }
    if tag == ADDED {
        let Some(vertex) = edge_target(lent.words, c) else {
            return EdgeSeen::Torn;
        };
        let Some(Link { tag: mark, .. }) = vertex_link(lent.words, vertex) else {
            return EdgeSeen::Torn;
        };
        if mark == MARKED {
            return EdgeSeen::Marks { next };
        }
        return see_key(lent, ends, c, kept, next, tag);
    }
    see_key(lent, ends, c, kept, next, tag)
}

// (b): p is MARKED, or does not lead to c.
#[tactic(auto, unfolding(catalogue::specs::Steps::Edges::see_behind))]
fn see_behind(lent: Lent, ends: Ends, p: Prev, c: u16) -> EdgeSeen
    ensures { result ≡ see_behind (held lent.entry) ends.pair.l ends.u p c }
{
    let Some(Link { next, tag }) = link_behind(lent, ends.u, p) else {
        return EdgeSeen::Torn;
    };
    if tag == MARKED {
        return EdgeSeen::Again;
    }
    if c < 2048 {
        if next == c {
            return see_edge(lent, ends, c, tag);
        }
        return EdgeSeen::Again;
    }
    EdgeSeen::Torn
}

// (a): u or v marked; then the rest.
#[tactic(auto, unfolding(catalogue::specs::Steps::Edges::look_at_edge))]
pub fn look_at_edge(lent: Lent, ends: Ends, p: Prev, c: u16) -> EdgeSeen
    ensures { result ≡ look_at_edge (held lent.entry) ends p c }
{
    match see_both(lent, ends.u, ends.v) {
        BothSeen::Torn => EdgeSeen::Torn,
        BothSeen::Dead => EdgeSeen::Dead,
        BothSeen::Standing => see_behind(lent, ends, p, c),
    }
}
