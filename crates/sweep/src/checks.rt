// The check of the workers: no sweep while one of them is busy.
ghost use Rattle.std.specs.Prelude.{◌≡◌, ◌≤◌};
ghost use Rattle.catalogue.specs.Sweep.{any_busy};

use catalogue::workers::Table;
use workers::requests::busy_at;

// 22: a worker below n is busy.
pub fn any_busy(table: Table, n: u32) -> bool
    requires { n ≤ 8 }
    ensures { result ≡ any_busy table n }
{
    table.workers[..n as usize].iter().any(|w| busy_at(w.place))
}
