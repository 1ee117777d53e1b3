// The call that runs a whole script and writes its result.
ghost use Rattle.catalogue.specs.Lent.{memory_of};
ghost use Rattle.host.specs.Promised.{Runs};

use border::packing::packed_ran;
use run::call::run;

#[unsafe(no_mangle)]
pub extern "C" fn pallaymi_run(
    script: &[u8],
    keys: &mut [i32],
    words: &mut [u32],
    output: &mut [u8],
) -> u64
    ensures { Runs script.now (memory_of keys.old words.old) output.old result keys.new words.new output.new }
{
    packed_ran(run(script, keys, words, output))
}
