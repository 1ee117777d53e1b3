// Sums over many requests. The sums stay far below the ends of their types; a wrapping sum asks no proof of it.
ghost use Rattle.std.specs.Prelude.{◌≡◌};
ghost use Rattle.asking.specs.Tallies.{none, counted};

use crate::perform::Performed;
use std::num::wrapping_add_u32;

// How many were answered 1, how many 9, how many otherwise; and the steps of all of them.
#[derive(Clone, Copy)]
pub struct Tally {
    pub done: u32,
    pub no_room: u32,
    pub other: u32,
    pub steps: u32,
}

pub fn none() -> Tally
    ensures { result ≡ none }
{
    Tally {
        done: 0,
        no_room: 0,
        other: 0,
        steps: 0,
    }
}

pub fn counted(tally: Tally, performed: Performed) -> Tally
    ensures { result ≡ counted tally performed }
{
    let mut next = tally;
    next.steps = wrapping_add_u32(tally.steps, performed.steps);
    let number = performed.number;
    match number {
        1 => next.done = wrapping_add_u32(tally.done, 1),
        9 => next.no_room = wrapping_add_u32(tally.no_room, 1),
        _ => next.other = wrapping_add_u32(tally.other, 1),
    }
    next
}
