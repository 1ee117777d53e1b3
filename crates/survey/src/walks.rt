// The vertex walk: each node is tested, and those that the walk meets are the set that answers for all targets.
ghost use Rattle.std.specs.Prelude.{◌≡◌};
ghost use Rattle.survey.specs.Walks.{also_met, walk_from};
ghost use Rattle.memory.specs.Memories.{held};

use crate::tests::{next_vertex, vertex_sound};
use memory::Lent;
use workers::met::{met_has, with_met};

// In unchecked memory a walk may meet a vertex twice.
#[tactic(auto, unfolding(crate::specs::Walks::also_met))]
fn also_met(met: [u64; 4], n: u8) -> [u64; 4]
    ensures { result ≡ also_met met n }
{
    if met_has(met, n) {
        return met;
    }
    with_met(met, n)
}

// The vertices that the walk met: all of them, or those before the first that is not sound.
// `left` is what the definition allows a walk: it ends there even if the links go round.
#[tactic(auto, using(crate::proofs::WalkLaws::walk_cases))]
pub fn walk_from(lent: Lent, left: u16, x: u8) -> Result<[u64; 4], [u64; 4]>
    ensures { result ≡ walk_from (held lent.entry) left x }
{
    if left == 0 {
        return Ok([0; 4]);
    }
    if x == 1 {
        return Ok([0; 4]);
    }
    if vertex_sound(lent, x) {
        let next = next_vertex(lent.words, x);
        return match walk_from(lent, left - 1, next) {
            Ok(met) => Ok(also_met(met, x)),
            Err(met) => Err(also_met(met, x)),
        };
    }
    Err([0; 4])
}
