// Finding u and v, the two ends of an edge, by the looks of ConV.
ghost use Rattle.std.specs.Prelude.{◌≡◌};
ghost use Rattle.catalogue.specs.Steps.Finding.{not_found, found_u, found_v, step_find_u, step_find_v};
ghost use Rattle.memory.specs.Memories.{held};

use crate::vertex::look_for;
use catalogue::links::Link;
use catalogue::steps::{Decision, VertexFound};
use catalogue::workers::{Ends, Pair};
use looks::decisions::{go_to, reply};
use looks::places::{edges_place, find_u_place, find_v_place};
use memory::Lent;
use memory::reads::{first_link, vertex_link};

#[tactic(auto, unfolding(catalogue::specs::Steps::Finding::not_found))]
fn not_found(code: u32) -> u8
    ensures { result ≡ not_found code }
{
    match code {
        6 => 8,
        _ => 3,
    }
}

// u is found: v is looked for from the head's next on.
#[tactic(auto, unfolding(catalogue::specs::Steps::Finding::found_u))]
fn found_u(lent: Lent, code: u32, pair: Pair, u: u8) -> Decision
    ensures { result ≡ found_u (held lent.entry) code pair u }
{
    let Some(Link { next, .. }) = vertex_link(lent.words, 0) else {
        return Decision::Torn;
    };
    go_to(find_v_place(code, pair, u, next))
}

// One step of finding u for k.
#[tactic(auto, unfolding(catalogue::specs::Steps::Finding::step_find_u))]
pub fn step_find_u(lent: Lent, code: u32, pair: Pair, c: u8) -> Decision
    ensures { result ≡ step_find_u (held lent.entry) code pair c }
{
    match look_for(lent, pair.k, c) {
        VertexFound::Torn => Decision::Torn,
        VertexFound::Onward { next } => go_to(find_u_place(code, pair, next)),
        VertexFound::Found => found_u(lent, code, pair, c),
        VertexFound::Missing => reply(not_found(code)),
    }
}

// v is found: the edges of u are looked at from its first-edge link on.
#[tactic(auto, unfolding(catalogue::specs::Steps::Finding::found_v))]
fn found_v(lent: Lent, code: u32, ends: Ends) -> Decision
    ensures { result ≡ found_v (held lent.entry) code ends }
{
    let Some(Link { next, .. }) = first_link(lent.words, ends.u) else {
        return Decision::Torn;
    };
    go_to(edges_place(code, ends, next))
}

// One step of finding v for l.
#[tactic(auto, unfolding(catalogue::specs::Steps::Finding::step_find_v))]
pub fn step_find_v(lent: Lent, code: u32, pair: Pair, u: u8, c: u8) -> Decision
    ensures { result ≡ step_find_v (held lent.entry) code pair u c }
{
    match look_for(lent, pair.l, c) {
        VertexFound::Torn => Decision::Torn,
        VertexFound::Onward { next } => go_to(find_v_place(code, pair, u, next)),
        VertexFound::Found => found_v(lent, code, Ends { pair, u, v: c }),
        VertexFound::Missing => reply(not_found(code)),
    }
}
