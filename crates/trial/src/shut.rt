// A trial with no vertex open: (c), (d).
ghost use Rattle.std.specs.Prelude.{◌≡◌};
ghost use Rattle.catalogue.specs.Steps.Trial.{take_front, step_shut, trial_shut};
ghost use Rattle.memory.specs.Memories.{held};

use crate::ends::{end_trial, see_trial};
use catalogue::links::{ADDED, Link, MARKED};
use catalogue::steps::{BothSeen, Decision};
use catalogue::workers::{Ahead, Ends, Place};
use memory::Lent;
use memory::reads::{first_link, vertex_link};

// (d) The front x of the queue is taken.
#[tactic(auto, unfolding(catalogue::specs::Steps::Trial::take_front))]
fn take_front(lent: Lent, ends: Ends, e: u16, x: u8) -> Decision
    ensures { result ≡ take_front (held lent.entry) ends e x }
{
    if x == ends.u {
        return end_trial(lent, e, MARKED, 6);
    }
    let Some(Link { tag, .. }) = vertex_link(lent.words, x) else {
        return Decision::Torn;
    };
    if tag == MARKED {
        return Decision::Takes {
            next: Place::Trial { ends, e },
        };
    }
    let Some(Link { next, .. }) = first_link(lent.words, x) else {
        return Decision::Torn;
    };
    Decision::Takes {
        next: Place::TrialOpen {
            ends,
            e,
            x,
            c: next,
        },
    }
}

// (c), (d) No vertex is open.
#[tactic(auto, unfolding(catalogue::specs::Steps::Trial::step_shut))]
fn step_shut(lent: Lent, ahead: Ahead, ends: Ends, e: u16) -> Decision
    ensures { result ≡ step_shut (held lent.entry) ahead ends e }
{
    if ahead.front == ahead.back {
        return end_trial(lent, e, ADDED, 1);
    }
    take_front(lent, ends, e, ahead.x)
}

// One step of a trial with no vertex open.
#[tactic(auto, unfolding(catalogue::specs::Steps::Trial::trial_shut))]
pub fn trial_shut(lent: Lent, ahead: Ahead, ends: Ends, e: u16) -> Decision
    ensures { result ≡ trial_shut (held lent.entry) ahead ends e }
{
    match see_trial(lent, ahead, ends) {
        BothSeen::Torn => Decision::Torn,
        BothSeen::Dead => end_trial(lent, e, MARKED, 3),
        BothSeen::Standing => step_shut(lent, ahead, ends, e),
    }
}
