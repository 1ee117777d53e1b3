// (a), and how a trial ends.
ghost use Rattle.std.specs.Prelude.{◌≡◌};
ghost use Rattle.catalogue.specs.Steps.Trial.{end_trial, see_trial};
ghost use Rattle.memory.specs.Memories.{held};

use catalogue::links::Link;
use catalogue::steps::{BothSeen, Decision};
use catalogue::workers::{Ahead, Ends};
use catalogue::writes::Write;
use looks::both::see_both;
use memory::Lent;
use memory::reads::edge_link;

// The own edge gets its last tag, and the trial ends with a reply.
#[tactic(auto, unfolding(catalogue::specs::Steps::Trial::end_trial))]
pub fn end_trial(lent: Lent, e: u16, tag: u8, reply: u8) -> Decision
    ensures { result ≡ end_trial (held lent.entry) e tag reply }
{
    let Some(Link { next, .. }) = edge_link(lent.words, e) else {
        return Decision::Torn;
    };
    Decision::Reply {
        number: reply,
        write: Write::EdgeLink { edge: e, next, tag },
    }
}

// (a) The ends of the queue in order, then the marks of u and v.
#[tactic(auto, unfolding(catalogue::specs::Steps::Trial::see_trial, catalogue::specs::Steps::Trial::ends_fit))]
pub fn see_trial(lent: Lent, ahead: Ahead, ends: Ends) -> BothSeen
    ensures { result ≡ see_trial (held lent.entry) ahead ends }
{
    if ahead.front <= ahead.back {
        if ahead.back <= 256 {
            return see_both(lent, ends.u, ends.v);
        }
        return BothSeen::Torn;
    }
    BothSeen::Torn
}
