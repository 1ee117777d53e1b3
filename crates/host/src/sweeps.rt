// The call that sweeps a catalogue at rest into a second one.
ghost use Rattle.catalogue.specs.Lent.{memory_of};
ghost use Rattle.host.specs.Promised.{Sweeps};

use border::kept::Kept;
use border::packing::packed_made;
use border::reading::table_of;
use sweep::sweep::sweep;

// The whole call, on the table by value.
fn sweep_kept(
    keys: &[i32],
    words: &[u32],
    new_keys: &mut [i32],
    new_words: &mut [u32],
    t: Kept,
) -> u64
    ensures { Sweeps (memory_of keys.now words.now) (memory_of new_keys.old new_words.old) t result new_keys.new new_words.new }
{
    packed_made(sweep(keys, words, new_keys, new_words, table_of(t)))
}

// The table is only read.
#[unsafe(no_mangle)]
pub extern "C" fn pallaymi_sweep(
    keys: &[i32],
    words: &[u32],
    new_keys: &mut [i32],
    new_words: &mut [u32],
    table: &Kept,
) -> u64
    ensures { Sweeps (memory_of keys.now words.now) (memory_of new_keys.old new_words.old) table.now result new_keys.new new_words.new }
{
    sweep_kept(keys, words, new_keys, new_words, *table)
}
