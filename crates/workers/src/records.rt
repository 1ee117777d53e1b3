// A worker's record, made anew where it changes.
ghost use Rattle.std.specs.Prelude.{false, ◌≡◌, ◌<◌};
ghost use Rattle.catalogue.specs.Workers.{bare, idle, begun, has, kept, queued, taken};

use crate::reach::{meet, no_reach, take_one};
use catalogue::workers::{Place, Worker};

// The record of a worker that is on no trial.
pub fn bare(place: Place) -> Worker
    ensures { result ≡ bare place }
{
    Worker {
        place,
        reach: no_reach(),
    }
}

pub fn idle() -> Worker
    ensures { result ≡ idle }
{
    bare(Place::Idle)
}

// The record as a trial begins: v alone is met and queued.
pub fn begun(place: Place, v: u8) -> Worker
    ensures { result ≡ begun place v }
{
    Worker {
        place,
        reach: meet(no_reach(), v),
    }
}

// The record at another place of the same trial.
pub fn kept(w: Worker, place: Place) -> Worker
    ensures { result ≡ kept w place }
{
    Worker { place, ..w }
}

// The same with n met and last in the queue; the step has tested that there is room and that n is not met.
pub fn queued(w: Worker, place: Place, n: u8) -> Worker
    requires back_bound { w.reach.back < 256 }
    requires n_value { has w.reach.met n ≡ false }
    ensures { result ≡ queued w place n }
{
    Worker {
        place,
        reach: meet(w.reach, n),
    }
}

// The same with the front of the queue taken.
pub fn taken(w: Worker, place: Place) -> Worker
    requires { w.reach.front < 256 }
    ensures { result ≡ taken w place }
{
    Worker {
        place,
        reach: take_one(w.reach),
    }
}
