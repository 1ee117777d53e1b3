// A fresh catalogue in lent memory.
ghost use Rattle.catalogue.specs.Catalogue.{fresh};
ghost use Rattle.catalogue.specs.Lent.{memory_of};
ghost use Rattle.clearing.specs.Promised.{MakesFresh};
ghost use Rattle.memory.specs.Memories.{Hold};

use catalogue::answers::Refusal;
use catalogue::links::PLAIN;
use memory::checks::sized;
use memory::{KEYS_SIZE, Keys, WORDS_SIZE, Words};
use writing::writes::{put_vertex_key, put_vertex_link};

// All of it is zero, but for the head's key and the head's link to the tail.
pub fn lay_fresh(keys: &mut Keys, words: &mut Words)
    ensures { Hold keys.new words.new fresh }
{
    keys.fill(0);
    words.fill(0);
    put_vertex_key(keys, 0, -2147483648);
    put_vertex_link(words, 0, 1, PLAIN);
}

// Memory of another size is refused, and unchanged.
#[tactic(auto, using(memory::proofs::Sizes::sizes), unfolding(catalogue::specs::Lent::lent_fresh))]
pub fn fresh(keys: &mut [i32], words: &mut [u32]) -> Result<(), Refusal>
    ensures { MakesFresh (memory_of keys.old words.old) result keys.new words.new }
{
    sized(keys, words)?;
    let keys = keys.as_mut_array::<KEYS_SIZE>().unwrap();
    let words = words.as_mut_array::<WORDS_SIZE>().unwrap();
    lay_fresh(keys, words);
    Ok(())
}
