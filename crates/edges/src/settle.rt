// Settling AddE and RemE, by the code, which is a number as the user asks.
ghost use Rattle.std.specs.Prelude.{◌≡◌};
ghost use Rattle.catalogue.specs.Numbers.{marked};
ghost use Rattle.catalogue.specs.Steps.Edges.{insert, new_edge, settle_add_edge, settle_remove_edge, settle_edge};
ghost use Rattle.catalogue.specs.declared.writes.Write.TheVariants.{EdgeLink};
ghost use Rattle.memory.specs.Memories.{held};

use catalogue::links::{ADDED, MARKED, Room, TRANSIT};
use catalogue::steps::{Decision, Landed};
use catalogue::workers::{Ends, Place, Prev};
use catalogue::writes::Write;
use looks::decisions::reply;
use memory::Lent;
use memory::reads::edge_room;

// The write that gives an edge its mark, its link kept.
pub fn mark_edge(edge: u16, next: u16) -> Write
    ensures { result ≡ EdgeLink edge next marked }
{
    Write::EdgeLink {
        edge,
        next,
        tag: MARKED,
    }
}

// The write that puts a new edge after p, whose tag is kept.
fn insert(ends: Ends, p: Prev, kept: u8, n: u16, next: u16) -> Write
    ensures { result ≡ insert ends p kept n next }
{
    match p {
        Prev::First => Write::NewFirst {
            edge: n,
            key: ends.pair.l,
            target: ends.v,
            next,
            u: ends.u,
        },
        Prev::Edge { edge } => Write::NewEdge {
            edge: n,
            key: ends.pair.l,
            target: ends.v,
            next,
            p: edge,
            tag: kept,
        },
    }
}

// AddE with no such key: the pool's next edge goes after p and its trial begins; or none is left.
fn new_edge(left: Room, ends: Ends, p: Prev, c: u16, kept: u8) -> Decision
    ensures { result ≡ new_edge left ends p c kept }
{
    match left {
        Room::Next { node } => {
            let write = insert(ends, p, kept, node, c);
            Decision::Begins {
                next: Place::Trial { ends, e: node },
                write,
                met: ends.v,
            }
        }
        Room::Full => reply(9),
        Room::Torn => Decision::Torn,
    }
}

// AddE: the key is there, on trial or added; or a new edge is wanted.
#[tactic(auto, unfolding(catalogue::specs::Steps::Edges::settle_add_edge))]
fn settle_add_edge(lent: Lent, ends: Ends, p: Prev, c: u16, at: Landed) -> Decision
    ensures { result ≡ settle_add_edge (held lent.entry) ends p c at }
{
    if at.equal {
        if at.tag == TRANSIT {
            return reply(7);
        }
        return reply(4);
    }
    let left = edge_room(lent.words);
    new_edge(left, ends, p, c, at.kept)
}

// RemE: an ADDED edge with the key gets its mark.
#[tactic(auto, unfolding(catalogue::specs::Steps::Edges::settle_remove_edge))]
fn settle_remove_edge(c: u16, at: Landed) -> Decision
    ensures { result ≡ settle_remove_edge c at }
{
    if at.equal {
        if at.tag == ADDED {
            let write = mark_edge(c, at.next);
            return Decision::Reply { number: 1, write };
        }
        return reply(5);
    }
    reply(5)
}

#[tactic(auto, unfolding(catalogue::specs::Steps::Edges::settle_edge))]
pub fn settle_edge(lent: Lent, code: u32, ends: Ends, p: Prev, c: u16, at: Landed) -> Decision
    ensures { result ≡ settle_edge (held lent.entry) code ends p c at }
{
    match code {
        4 => settle_add_edge(lent, ends, p, c, at),
        5 => settle_remove_edge(c, at),
        _ => Decision::Code,
    }
}
