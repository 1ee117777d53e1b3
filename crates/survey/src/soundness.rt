// The survey: whether a lent catalogue is sound.
ghost use Rattle.std.specs.Prelude.{◌≡◌};
ghost use Rattle.catalogue.specs.Soundness.{sound};
ghost use Rattle.survey.specs.Walks.{asks_of};
ghost use Rattle.memory.specs.Memories.{held};

use crate::lists::lists_from;
use crate::surveys::Survey;
use crate::tests::{next_vertex, unmarked, vertex_sound};
use crate::walks::walk_from;
use memory::Lent;

// Two walks of the vertices: the first one's set answers for the targets that the second one reads.
#[tactic(auto, using(crate::proofs::SoundLaws::sound_cases))]
pub fn sound(lent: Lent, sweep: bool) -> bool
    ensures { result ≡ sound (asks_of sweep) (held lent.entry) }
{
    if unmarked(lent.words, 0) && vertex_sound(lent, 0) {
        let first = next_vertex(lent.words, 0);
        let Ok(met) = walk_from(lent, 256, first) else {
            return false;
        };
        return lists_from(Survey { lent, met, sweep }, 0, 256, first);
    }
    false
}
