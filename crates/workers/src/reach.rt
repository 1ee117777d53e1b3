// How far a trial has got: the set met and the queue, made anew where they change.
ghost use Rattle.std.specs.Prelude.{false, ◌≡◌, ◌<◌};
ghost use Rattle.catalogue.specs.Workers.{no_reach, has, meet, take_one, ahead};

use crate::met::with_met;
use catalogue::workers::{Ahead, Reach};

// Outside a trial.
pub fn no_reach() -> Reach
    ensures { result ≡ no_reach }
{
    Reach {
        met: [0u64; 4],
        queue: [0u8; 256],
        front: 0,
        back: 0,
    }
}

// n is met and last in the queue; the step has tested that there is room and that n is not met.
pub fn meet(reach: Reach, n: u8) -> Reach
    requires back_bound { reach.back < 256 }
    requires n_value { has reach.met n ≡ false }
    ensures { result ≡ meet reach n }
{
    let mut next = reach;
    next.met = with_met(reach.met, n);
    next.queue[reach.back as usize] = n;
    next.back += 1;
    next
}

// The front of the queue is taken.
pub fn take_one(reach: Reach) -> Reach
    requires { reach.front < 256 }
    ensures { result ≡ take_one reach }
{
    Reach {
        front: reach.front + 1,
        ..reach
    }
}

// The vertex at the front of the queue, and 0 past its end.
fn front_of(reach: Reach) -> u8
    ensures { result ≡ (ahead reach).x }
{
    reach.queue.get(reach.front as usize).copied().unwrap_or(0)
}

// What a step of a trial reads of its reach.
pub fn ahead(reach: Reach) -> Ahead
    ensures { result ≡ ahead reach }
{
    let met = reach.met;
    Ahead {
        met,
        x: front_of(reach),
        front: reach.front,
        back: reach.back,
    }
}
