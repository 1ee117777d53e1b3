// A trial with a vertex open: (b).
ghost use Rattle.std.specs.Prelude.{◌≡◌};
ghost use Rattle.catalogue.specs.Steps.Trial.{cross, pass_edge, step_open, trial_open};
ghost use Rattle.memory.specs.Memories.{held};

use crate::ends::{end_trial, see_trial};
use catalogue::links::{Link, MARKED};
use catalogue::steps::{BothSeen, Decision};
use catalogue::workers::{Ahead, Ends, Place};
use memory::Lent;
use memory::reads::{edge_link, edge_target, vertex_link};
use workers::met::met_has;

// (b) An edge that is not MARKED leads to y.
#[tactic(auto, unfolding(catalogue::specs::Steps::Trial::cross))]
fn cross(lent: Lent, ahead: Ahead, y: u8, next: Place) -> Decision
    ensures { result ≡ cross (held lent.entry) ahead y next }
{
    let Some(Link { tag, .. }) = vertex_link(lent.words, y) else {
        return Decision::Torn;
    };
    if tag == MARKED {
        return Decision::Keeps { next };
    }
    if met_has(ahead.met, y) {
        return Decision::Keeps { next };
    }
    if 256 <= ahead.back {
        return Decision::Torn;
    }
    Decision::Meets { next, met: y }
}

// (b) The edge c of the open vertex x.
#[tactic(auto, using(laws::proofs::Pools::edge_in_pool), unfolding(catalogue::specs::Steps::Trial::pass_edge))]
fn pass_edge(lent: Lent, ahead: Ahead, ends: Ends, e: u16, x: u8, c: u16) -> Decision
    ensures { result ≡ pass_edge (held lent.entry) ahead ends e x c }
{
    let Some(Link { next, tag: of_edge }) = edge_link(lent.words, c) else {
        return Decision::Torn;
    };
    let onward = Place::TrialOpen {
        ends,
        e,
        x,
        c: next,
    };
    if of_edge == MARKED {
        return Decision::Keeps { next: onward };
    }
    let Some(vertex) = edge_target(lent.words, c) else {
        return Decision::Torn;
    };
    cross(lent, ahead, vertex, onward)
}

// (b) The vertex x is open at its edge c.
#[tactic(auto, unfolding(catalogue::specs::Steps::Trial::step_open))]
fn step_open(lent: Lent, ahead: Ahead, ends: Ends, e: u16, x: u8, c: u16) -> Decision
    ensures { result ≡ step_open (held lent.entry) ahead ends e x c }
{
    let Some(Link { tag, .. }) = vertex_link(lent.words, x) else {
        return Decision::Torn;
    };
    if tag == MARKED {
        return Decision::Keeps {
            next: Place::Trial { ends, e },
        };
    }
    if c == 0 {
        return Decision::Keeps {
            next: Place::Trial { ends, e },
        };
    }
    pass_edge(lent, ahead, ends, e, x, c)
}

// One step of a trial with the vertex x open.
#[tactic(auto, unfolding(catalogue::specs::Steps::Trial::trial_open))]
pub fn trial_open(lent: Lent, ahead: Ahead, ends: Ends, e: u16, x: u8, c: u16) -> Decision
    ensures { result ≡ trial_open (held lent.entry) ahead ends e x c }
{
    match see_trial(lent, ahead, ends) {
        BothSeen::Torn => Decision::Torn,
        BothSeen::Dead => end_trial(lent, e, MARKED, 3),
        BothSeen::Standing => step_open(lent, ahead, ends, e, x, c),
    }
}
