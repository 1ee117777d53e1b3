// One step of AddV or RemV.
ghost use Rattle.std.specs.Prelude.{◌≡◌};
ghost use Rattle.catalogue.specs.Steps.Vertices.{start_again, step_vertex};
ghost use Rattle.memory.specs.Memories.{held};

use crate::look::look_at_vertex;
use crate::settle::settle_vertex;
use catalogue::links::{Link, PLAIN};
use catalogue::steps::{Decision, VertexSeen};
use catalogue::writes::Write;
use looks::decisions::go_to;
use looks::places::vertex_place;
use memory::Lent;
use memory::reads::vertex_link;

// p is the head again, and c its next.
#[tactic(auto, unfolding(catalogue::specs::Steps::Vertices::start_again))]
fn start_again(lent: Lent, code: u32, k: i32) -> Decision
    ensures { result ≡ start_again (held lent.entry) code k }
{
    let Some(Link { next, .. }) = vertex_link(lent.words, 0) else {
        return Decision::Torn;
    };
    go_to(vertex_place(code, k, 0, next))
}

// One step of AddV (code 1) or RemV (code 2).
#[tactic(auto, unfolding(catalogue::specs::Steps::Vertices::step_vertex))]
pub fn step_vertex(lent: Lent, code: u32, k: i32, p: u8, c: u8) -> Decision
    ensures { result ≡ step_vertex (held lent.entry) code k p c }
{
    match look_at_vertex(lent, k, p, c) {
        VertexSeen::Torn => Decision::Torn,
        VertexSeen::Again => start_again(lent, code, k),
        VertexSeen::Unlinks { next } => Decision::Going {
            next: vertex_place(code, k, p, next),
            write: Write::VertexLink {
                vertex: p,
                next,
                tag: PLAIN,
            },
        },
        VertexSeen::Onward { next } => go_to(vertex_place(code, k, c, next)),
        VertexSeen::Settles { next, equal } => settle_vertex(lent, code, k, p, c, next, equal),
    }
}
