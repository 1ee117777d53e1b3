// A whole table, read back.
ghost use Rattle.std.specs.Prelude.{◌≡◌};
ghost use Rattle.border.specs.Kept.{table_in};

use crate::kept::Kept;
use catalogue::workers::{Table, Worker};

// All eight records are read back, unused ones too.
pub fn table_of(t: Kept) -> Table
    ensures { result ≡ table_in t }
{
    let workers = t.records.map(Worker::from);
    Table {
        count: t.count,
        workers,
    }
}
