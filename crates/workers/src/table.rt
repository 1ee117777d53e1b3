// The table of workers.
ghost use Rattle.std.specs.Prelude.{◌≡◌, ◌<◌};
ghost use Rattle.catalogue.specs.Workers.{worker_at, put, idle_table};

use crate::records::idle;
use catalogue::workers::{Table, Worker};

pub fn worker_at(t: Table, n: usize) -> Worker
    requires { n < 8 }
    ensures { result ≡ worker_at t n }
{
    t.workers[n]
}

pub fn put(t: Table, n: usize, w: Worker) -> Table
    requires { n < 8 }
    ensures { result ≡ put t n w }
{
    let mut next = t;
    next.workers[n] = w;
    next
}

pub fn idle_table(count: u32) -> Table
    ensures { result ≡ idle_table count }
{
    Table {
        count,
        workers: [idle(); 8],
    }
}
