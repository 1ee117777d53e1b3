// The call that makes lent memory a fresh catalogue.
ghost use Rattle.catalogue.specs.Lent.{memory_of};
ghost use Rattle.host.specs.Promised.{MakesFresh};

use border::packing::packed_made;
use clearing::fresh::fresh;

#[unsafe(no_mangle)]
pub extern "C" fn pallaymi_fresh(keys: &mut [i32], words: &mut [u32]) -> u64
    ensures { MakesFresh (memory_of keys.old words.old) result keys.new words.new }
{
    packed_made(fresh(keys, words))
}
