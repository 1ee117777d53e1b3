// The call that moves a worker on by one step.
ghost use Rattle.catalogue.specs.Lent.{memory_of};
ghost use Rattle.host.specs.Promised.{Steps};

use crate::one::{slot, step_one};
use border::kept::Kept;

// Only the worker's record is read and stored back.
#[unsafe(no_mangle)]
pub extern "C" fn pallaymi_step(
    keys: &mut [i32],
    words: &mut [u32],
    table: &mut Kept,
    worker: u32,
) -> u64
    ensures { Steps (memory_of keys.old words.old) table.old worker result table.new keys.new words.new }
{
    let at = slot(worker);
    let x = step_one(keys, words, table.count, worker, table.records[at]);
    table.records[at] = x.kept;
    x.told
}
