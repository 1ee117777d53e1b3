// One test for each case of the definitions: straight ways through reads.
ghost use Rattle.std.specs.Prelude.{◌≡◌, ◌<◌};
ghost use Rattle.catalogue.specs.Live.{next_vertex, first_edge, next_edge, unmarked, is_added, is_live};
ghost use Rattle.catalogue.specs.Soundness.{vertex_sound, tag_fits, target_sound, edge_sound};
ghost use Rattle.survey.specs.Walks.{linked, asks_of};
ghost use Rattle.memory.specs.Memories.{held};

use crate::surveys::Survey;
use catalogue::links::{ADDED, Link, MARKED, TRANSIT};
use memory::reads::{edge_key, edge_link, edge_target, first_link, vertex_key, vertex_link};
use memory::{Lent, Words};
use workers::met::met_has;

// A torn link leads to the tail, where a walk ends.
pub fn next_vertex(words: &Words, x: u8) -> u8
    ensures { result ≡ next_vertex (linked words.now) x }
{
    let Some(Link { next, .. }) = vertex_link(words, x) else {
        return 1;
    };
    next
}

pub fn first_edge(words: &Words, x: u8) -> u16
    ensures { result ≡ first_edge (linked words.now) x }
{
    let Some(Link { next, .. }) = first_link(words, x) else {
        return 0;
    };
    next
}

pub fn next_edge(words: &Words, e: u16) -> u16
    ensures { result ≡ next_edge (linked words.now) e }
{
    let Some(Link { next, .. }) = edge_link(words, e) else {
        return 0;
    };
    next
}

pub fn unmarked(words: &Words, x: u8) -> bool
    ensures { result ≡ unmarked (linked words.now) x }
{
    let Some(Link { tag, .. }) = vertex_link(words, x) else {
        return false;
    };
    tag != MARKED
}

pub fn is_added(words: &Words, e: u16) -> bool
    ensures { result ≡ is_added (linked words.now) e }
{
    let Some(Link { tag, .. }) = edge_link(words, e) else {
        return false;
    };
    tag == ADDED
}

#[tactic(auto, using(crate::proofs::Lives::live_cases))]
pub fn is_live(words: &Words, e: u16) -> bool
    ensures { result ≡ is_live (linked words.now) e }
{
    if is_added(words, e) {
        let Some(vertex) = edge_target(words, e) else {
            return false;
        };
        return unmarked(words, vertex);
    }
    false
}

pub fn vertex_sound(lent: Lent, x: u8) -> bool
    ensures { result ≡ vertex_sound (held lent.entry) x }
{
    let Some(Link { next, .. }) = vertex_link(lent.words, x) else {
        return false;
    };
    vertex_key(lent.keys, x) < vertex_key(lent.keys, next)
}

// A sweep has no use for an edge on trial.
fn tag_fits(sweep: bool, tag: u8) -> bool
    ensures { result ≡ tag_fits (asks_of sweep) tag }
{
    !(sweep && tag == TRANSIT)
}

// A target that is not marked has to stand on the vertex walk, whose vertices `met` has.
#[tactic(auto, using(crate::proofs::Told::target_ways))]
fn target_sound(survey: Survey, e: u16, y: u8) -> bool
    requires { e < 2048 }
    ensures { result ≡ target_sound (held survey.entry.lent) e y }
{
    let key = vertex_key(survey.lent.keys, y);
    let wanted = edge_key(survey.lent.keys, e);
    if key == wanted {
        let Some(Link { tag, .. }) = vertex_link(survey.lent.words, y) else {
            return false;
        };
        if tag == MARKED {
            return true;
        }
        return met_has(survey.met, y);
    }
    false
}

#[tactic(auto, using(crate::proofs::Told::told_ways))]
pub fn edge_sound(survey: Survey, e: u16) -> bool
    requires { e < 2048 }
    ensures { result ≡ edge_sound (asks_of survey.entry.sweep) (held survey.entry.lent) e }
{
    let Some(Link { next, tag }) = edge_link(survey.lent.words, e) else {
        return false;
    };
    if tag_fits(survey.sweep, tag) {
        let key = edge_key(survey.lent.keys, e);
        let following = edge_key(survey.lent.keys, next);
        if key < following {
            let Some(vertex) = edge_target(survey.lent.words, e) else {
                return false;
            };
            return target_sound(survey, e, vertex);
        }
        return false;
    }
    false
}
