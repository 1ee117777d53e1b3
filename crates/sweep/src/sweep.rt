// The sweep as a call: its refusals in their order, and the two walks.
ghost use Rattle.std.specs.Prelude.{true, ◌≡◌};
ghost use Rattle.catalogue.specs.Soundness.{sound, sweep};
ghost use Rattle.catalogue.specs.Sweep.{swept, sweep_into};
ghost use Rattle.catalogue.specs.Lent.{Sized, memory_of, catalogue_in, lay};
ghost use Rattle.sweep.specs.Promised.{Sweeps};
ghost use Rattle.memory.specs.Memories.{held};

use crate::checks::any_busy;
use crate::walks::{sweep_edges, sweep_vertices};
use catalogue::answers::Refusal;
use catalogue::workers::Table;
use clearing::fresh::lay_fresh;
use memory::checks::{lend, sized};
use memory::{KEYS_SIZE, Keys, Lent, WORDS_SIZE, Words};
use survey::soundness::sound;
use survey::tests::next_vertex;
use workers::checks::one_to;

// The vertices first, so that every target has its new number when its edge is made.
#[tactic(auto, using(crate::proofs::Second::second_cases))]
fn sweep_sound(lent: Lent, new_keys: &mut Keys, new_words: &mut Words)
    requires { sound sweep (held lent) ≡ true }
    ensures { memory_of new_keys.new new_words.new ≡ lay (swept (held lent.entry)) }
{
    lay_fresh(new_keys, new_words);
    let first = next_vertex(lent.words, 0);
    let mut numbers = [0u8; 256];
    sweep_vertices(lent, new_keys, new_words, &mut numbers, 0, first, 256);
    sweep_edges(lent, &numbers, new_keys, new_words, 0, first, 256);
}

// The table, then the first catalogue; the second one is unchanged where one of them is refused.
#[tactic(auto, using(crate::proofs::Refusals::into_cases), unfolding(catalogue::specs::Sweep::sweep_into, catalogue::specs::Calls::count_fits))]
fn sweep_into(
    lent: Lent,
    new_keys: &mut [i32],
    new_words: &mut [u32],
    table: Table,
) -> Result<(), Refusal>
    requires { Sized new_keys.old new_words.old }
    ensures value { result ≡ (sweep_into (held lent.entry) (catalogue_in new_keys.old new_words.old) table).answer }
    ensures new_words_after { memory_of new_keys.new new_words.new ≡ lay (sweep_into (held lent.entry) (catalogue_in new_keys.old new_words.old) table).second }
{
    if !one_to(8, table.count) {
        return Err(Refusal::Worker);
    }
    if any_busy(table, table.count) {
        return Err(Refusal::Busy);
    }
    if !sound(lent, true) {
        return Err(Refusal::Torn);
    }
    let new_keys = new_keys.as_mut_array::<KEYS_SIZE>().unwrap();
    let new_words = new_words.as_mut_array::<WORDS_SIZE>().unwrap();
    sweep_sound(lent, new_keys, new_words);
    Ok(())
}

// Memory of another size, on either side, is refused first.
#[tactic(auto, using(memory::proofs::Sizes::sizes), unfolding(catalogue::specs::Lent::lent_sweep))]
pub fn sweep(
    keys: &[i32],
    words: &[u32],
    new_keys: &mut [i32],
    new_words: &mut [u32],
    table: Table,
) -> Result<(), Refusal>
    ensures { Sweeps (memory_of keys.now words.now) (memory_of new_keys.old new_words.old) table result new_keys.new new_words.new }
{
    let lent = lend(keys, words)?;
    sized(new_keys, new_words)?;
    sweep_into(lent, new_keys, new_words, table)
}
