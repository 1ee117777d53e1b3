// The marks of u and v.
ghost use Rattle.std.specs.Prelude.{◌≡◌};
ghost use Rattle.catalogue.specs.Steps.Both.{see_both};
ghost use Rattle.memory.specs.Memories.{held};

use catalogue::links::{Link, MARKED};
use catalogue::steps::BothSeen;
use memory::Lent;
use memory::reads::vertex_link;

// u before v, and v only where u is unmarked.
#[tactic(auto, unfolding(catalogue::specs::Steps::Both::see_both))]
pub fn see_both(lent: Lent, u: u8, v: u8) -> BothSeen
    ensures { result ≡ see_both (held lent.entry) u v }
{
    let Some(Link { tag, .. }) = vertex_link(lent.words, u) else {
        return BothSeen::Torn;
    };
    if tag == MARKED {
        return BothSeen::Dead;
    }
    let Some(Link { tag: mark, .. }) = vertex_link(lent.words, v) else {
        return BothSeen::Torn;
    };
    if mark == MARKED {
        return BothSeen::Dead;
    }
    BothSeen::Standing
}
