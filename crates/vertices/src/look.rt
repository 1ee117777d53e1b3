// What one look of AddV or RemV sees.
ghost use Rattle.std.specs.Prelude.{◌≡◌};
ghost use Rattle.catalogue.specs.Steps.Vertices.{see_vertex, look_at_vertex};
ghost use Rattle.memory.specs.Memories.{held};

use catalogue::links::{Link, MARKED, PLAIN};
use catalogue::steps::VertexSeen;
use memory::Lent;
use memory::reads::{vertex_key, vertex_link};

// At c, which p leads to.
#[tactic(auto, using(laws::proofs::Ways::ways), unfolding(catalogue::specs::Steps::Vertices::see_vertex))]
fn see_vertex(lent: Lent, k: i32, c: u8) -> VertexSeen
    ensures { result ≡ see_vertex (held lent.entry) k c }
{
    let Some(Link { next, tag }) = vertex_link(lent.words, c) else {
        return VertexSeen::Torn;
    };
    if tag == MARKED {
        return VertexSeen::Unlinks { next };
    }
    let key = vertex_key(lent.keys, c);
    if key < k {
        return VertexSeen::Onward { next };
    }
    if key == k {
        return VertexSeen::Settles { next, equal: true };
    }
    VertexSeen::Settles { next, equal: false }
}

// One look at p and c.
#[tactic(auto, unfolding(catalogue::specs::Steps::Vertices::look_at_vertex))]
pub fn look_at_vertex(lent: Lent, k: i32, p: u8, c: u8) -> VertexSeen
    ensures { result ≡ look_at_vertex (held lent.entry) k p c }
{
    if p == 1 {
        return VertexSeen::Torn;
    }
    let Some(Link { next, tag }) = vertex_link(lent.words, p) else {
        return VertexSeen::Torn;
    };
    if next == c {
        if tag == PLAIN {
            return see_vertex(lent, k, c);
        }
        return VertexSeen::Again;
    }
    VertexSeen::Again
}
