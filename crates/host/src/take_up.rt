// The call by which a worker takes up a request.
ghost use Rattle.catalogue.specs.Lent.{memory_of};
ghost use Rattle.catalogue.specs.Workers.{asks};
ghost use Rattle.host.specs.Promised.{TakesUp};

use crate::one::{slot, take_up_one};
use border::kept::Kept;

// Only the worker's record is read and stored back.
#[unsafe(no_mangle)]
pub extern "C" fn pallaymi_take_up(
    keys: &[i32],
    words: &[u32],
    table: &mut Kept,
    worker: u32,
    code: u32,
    k: i32,
    l: i32,
) -> u64
    ensures { TakesUp (memory_of keys.now words.now) table.old worker (asks code k l) result table.new }
{
    let at = slot(worker);
    let x = take_up_one(
        keys,
        words,
        table.count,
        worker,
        table.records[at],
        code,
        k,
        l,
    );
    table.records[at] = x.kept;
    x.told
}
