// One step of AddE or RemE.
ghost use Rattle.std.specs.Prelude.{◌≡◌};
ghost use Rattle.catalogue.specs.Steps.Edges.{relink, restart, step_edge};
ghost use Rattle.catalogue.specs.Steps.Places.{edge_place};
ghost use Rattle.catalogue.specs.declared.steps.Decision.TheVariants.{Going};
ghost use Rattle.memory.specs.Memories.{held};

use crate::look::look_at_edge;
use crate::settle::{mark_edge, settle_edge};
use catalogue::links::Link;
use catalogue::steps::{Decision, EdgeSeen};
use catalogue::workers::{Ends, Prev};
use catalogue::writes::Write;
use looks::decisions::reply;
use looks::places::edge_place;
use memory::Lent;
use memory::reads::first_link;

// The write that leads p past c, p's tag kept.
fn relink(u: u8, p: Prev, kept: u8, next: u16) -> Write
    ensures { result ≡ relink u p kept next }
{
    match p {
        Prev::First => Write::FirstEdge { u, next },
        Prev::Edge { edge } => Write::EdgeLink {
            edge,
            next,
            tag: kept,
        },
    }
}

// On to c after p, with a write.
fn go_on(code: u32, ends: Ends, p: Prev, c: u16, write: Write) -> Decision
    ensures { result ≡ Going (edge_place code ends p c) write }
{
    Decision::Going {
        next: edge_place(code, ends, p, c),
        write,
    }
}

// At the first-edge link of u again.
#[tactic(auto, unfolding(catalogue::specs::Steps::Edges::restart))]
fn restart(lent: Lent, code: u32, ends: Ends) -> Decision
    ensures { result ≡ restart (held lent.entry) code ends }
{
    let Some(Link { next, .. }) = first_link(lent.words, ends.u) else {
        return Decision::Torn;
    };
    go_on(code, ends, Prev::First, next, Write::Nothing)
}

// One step of AddE (code 4) or RemE (code 5) at p and c.
#[tactic(auto, unfolding(catalogue::specs::Steps::Edges::step_edge))]
pub fn step_edge(lent: Lent, code: u32, ends: Ends, p: Prev, c: u16) -> Decision
    ensures { result ≡ step_edge (held lent.entry) code ends p c }
{
    match look_at_edge(lent, ends, p, c) {
        EdgeSeen::Torn => Decision::Torn,
        EdgeSeen::Dead => reply(3),
        EdgeSeen::Again => restart(lent, code, ends),
        EdgeSeen::Unlinks { kept, next } => {
            go_on(code, ends, p, next, relink(ends.u, p, kept, next))
        }
        EdgeSeen::Marks { next } => go_on(code, ends, p, c, mark_edge(c, next)),
        EdgeSeen::Onward { next } => {
            go_on(code, ends, Prev::Edge { edge: c }, next, Write::Nothing)
        }
        EdgeSeen::Settles { at } => settle_edge(lent, code, ends, p, c, at),
    }
}
