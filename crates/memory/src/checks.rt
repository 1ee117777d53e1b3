// The check that every call on lent memory begins with.
ghost use Rattle.std.specs.Prelude.{◌≡◌};
ghost use Rattle.catalogue.specs.Tests.{checked};
ghost use Rattle.catalogue.specs.Lent.{memory_of, sized};
ghost use Rattle.memory.specs.Memories.{Lends};
ghost use Rattle.catalogue.specs.declared.answers.Refusal.TheVariants as refusal;

use crate::{KEYS_SIZE, Lent, WORDS_SIZE};
use catalogue::answers::Refusal;

// 20: memory whose slices are not both of the stated sizes is refused.
#[tactic(auto, unfolding(catalogue::specs::Lent::sized))]
pub fn sized(keys: &[i32], words: &[u32]) -> Result<(), Refusal>
    ensures { result ≡ checked (sized (memory_of keys.now words.now)) refusal.Room }
{
    if keys.len() == KEYS_SIZE && words.len() == WORDS_SIZE {
        return Ok(());
    }
    Err(Refusal::Room)
}

// The same of memory that is to be read: from here on its sizes are those of its types.
#[tactic(auto, unfolding(catalogue::specs::Lent::sized))]
pub fn lend<'a>(keys: &'a [i32], words: &'a [u32]) -> Result<Lent<'a>, Refusal>
    ensures { Lends (memory_of keys.now words.now) result }
{
    let Some(keys) = keys.as_array::<KEYS_SIZE>() else {
        return Err(Refusal::Room);
    };
    let Some(words) = words.as_array::<WORDS_SIZE>() else {
        return Err(Refusal::Room);
    };
    Ok(Lent { keys, words })
}
