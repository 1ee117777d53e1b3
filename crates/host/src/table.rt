// The call that makes a table of idle workers.
ghost use Rattle.std.specs.Prelude.{◌≡◌};
ghost use Rattle.border.specs.Kept.{idle_kept};
ghost use Rattle.host.specs.Promised.{MakesTable};

use border::kept::{Kept, Record};
use border::packing::packed_made;
use catalogue::answers::Refusal;
use workers::checks::one_to;
use workers::records::idle;

// The table after the call, and what the call returns.
#[derive(Clone, Copy)]
pub struct Tabled {
    pub table: Kept,
    pub told: u64,
}

fn idle_kept(count: u32) -> Kept
    ensures { result ≡ idle_kept count }
{
    Kept {
        count,
        records: [Record::from(idle()); 8],
    }
}

// A count that is not 1 to 8 is refused, and what was lent is left as it is.
#[tactic(auto, unfolding(catalogue::specs::Calls::count_fits))]
fn make_table(t: Kept, count: u32) -> Tabled
    ensures { MakesTable t count result.told result.table }
{
    if !one_to(8, count) {
        return Tabled {
            table: t,
            told: packed_made(Err(Refusal::Worker)),
        };
    }
    Tabled {
        table: idle_kept(count),
        told: packed_made(Ok(())),
    }
}

#[unsafe(no_mangle)]
pub extern "C" fn pallaymi_table(table: &mut Kept, count: u32) -> u64
    ensures { MakesTable table.old count result table.new }
{
    let x = make_table(*table, count);
    *table = x.table;
    x.told
}
