// The call that writes the text of a catalogue at rest.
ghost use Rattle.catalogue.specs.Lent.{memory_of};
ghost use Rattle.host.specs.Promised.{Lists};

use border::packing::packed_listed;
use listing::call::listing;

#[unsafe(no_mangle)]
pub extern "C" fn pallaymi_listing(keys: &[i32], words: &[u32], output: &mut [u8]) -> u64
    ensures { Lists (memory_of keys.now words.now) output.old result output.new }
{
    packed_listed(listing(keys, words, output))
}
