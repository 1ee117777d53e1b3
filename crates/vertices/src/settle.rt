// Settling AddV and RemV, by the code, which is a number as the user asks.
ghost use Rattle.std.specs.Prelude.{◌≡◌};
ghost use Rattle.catalogue.specs.Steps.Vertices.{settle_add_vertex, settle_remove_vertex, settle_vertex};
ghost use Rattle.memory.specs.Memories.{held};

use catalogue::links::{MARKED, Room};
use catalogue::steps::Decision;
use catalogue::writes::Write;
use looks::decisions::reply;
use memory::Lent;
use memory::reads::vertex_room;

// AddV: the key is there, or the pool's next vertex goes between p and c, or none is left.
#[tactic(auto, using(laws::proofs::Pools::vertex_in_pool), unfolding(catalogue::specs::Steps::Vertices::settle_add_vertex))]
fn settle_add_vertex(lent: Lent, k: i32, p: u8, c: u8, equal: bool) -> Decision
    ensures { result ≡ settle_add_vertex (held lent.entry) k p c equal }
{
    if equal {
        return reply(2);
    }
    match vertex_room(lent.words) {
        Room::Next { node } => Decision::Reply {
            number: 1,
            write: Write::NewVertex {
                vertex: node as u8,
                key: k,
                next: c,
                p,
            },
        },
        Room::Full => reply(9),
        Room::Torn => Decision::Torn,
    }
}

// RemV: c gets its mark, if it has the key.
#[tactic(auto, unfolding(catalogue::specs::Steps::Vertices::settle_remove_vertex))]
fn settle_remove_vertex(c: u8, next: u8, equal: bool) -> Decision
    ensures { result ≡ settle_remove_vertex c next equal }
{
    if equal {
        return Decision::Reply {
            number: 1,
            write: Write::VertexLink {
                vertex: c,
                next,
                tag: MARKED,
            },
        };
    }
    reply(2)
}

#[tactic(auto, unfolding(catalogue::specs::Steps::Vertices::settle_vertex))]
pub fn settle_vertex(lent: Lent, code: u32, k: i32, p: u8, c: u8, next: u8, equal: bool) -> Decision
    ensures { result ≡ settle_vertex (held lent.entry) code k p c next equal }
{
    match code {
        1 => settle_add_vertex(lent, k, p, c, equal),
        2 => settle_remove_vertex(c, next, equal),
        _ => Decision::Code,
    }
}
