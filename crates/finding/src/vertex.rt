// The looks of ConV.
ghost use Rattle.std.specs.Prelude.{◌≡◌};
ghost use Rattle.catalogue.specs.Steps.Finding.{look_for, step_contains};
ghost use Rattle.memory.specs.Memories.{held};

use catalogue::links::{Link, MARKED};
use catalogue::steps::{Decision, VertexFound};
use catalogue::workers::Place;
use looks::decisions::{go_to, reply};
use memory::Lent;
use memory::reads::{vertex_key, vertex_link};

// One look for a key at c.
#[tactic(auto, using(laws::proofs::Ways::ways), unfolding(catalogue::specs::Steps::Finding::look_for))]
pub fn look_for(lent: Lent, k: i32, c: u8) -> VertexFound
    ensures { result ≡ look_for (held lent.entry) k c }
{
    let key = vertex_key(lent.keys, c);
    if key < k {
        let Some(Link { next, .. }) = vertex_link(lent.words, c) else {
            return VertexFound::Torn;
        };
        return VertexFound::Onward { next };
    }
    if key == k {
        let Some(Link { tag, .. }) = vertex_link(lent.words, c) else {
            return VertexFound::Torn;
        };
        if tag == MARKED {
            return VertexFound::Missing;
        }
        return VertexFound::Found;
    }
    VertexFound::Missing
}

// One step of ConV.
#[tactic(auto, unfolding(catalogue::specs::Steps::Finding::step_contains))]
pub fn step_contains(lent: Lent, k: i32, c: u8) -> Decision
    ensures { result ≡ step_contains (held lent.entry) k c }
{
    match look_for(lent, k, c) {
        VertexFound::Torn => Decision::Torn,
        VertexFound::Onward { next } => go_to(Place::ConV { k, c: next }),
        VertexFound::Found => reply(1),
        VertexFound::Missing => reply(2),
    }
}
