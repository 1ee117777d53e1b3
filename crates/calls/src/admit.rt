// What taking up returns for one worker.
ghost use Rattle.std.specs.Prelude.{◌≡◌};
ghost use Rattle.catalogue.specs.Calls.{admit};
ghost use Rattle.memory.specs.Memories.{held};

use catalogue::answers::Refusal;
use catalogue::links::Link;
use catalogue::workers::{Place, Request};
use looks::keys::key_refused;
use looks::places::first_place;
use memory::Lent;
use memory::reads::vertex_link;
use workers::checks::one_to;
use workers::requests::busy_at;

// The worker's place, the code, the keys, then the head's link.
#[tactic(auto, unfolding(catalogue::specs::Calls::admit))]
pub fn admit(lent: Lent, place: Place, q: Request) -> Result<Place, Refusal>
    ensures { result ≡ admit (held lent.entry) place q }
{
    if busy_at(place) {
        return Err(Refusal::Busy);
    }
    if !one_to(6, q.code) {
        return Err(Refusal::Code);
    }
    if key_refused(q) {
        return Err(Refusal::Key);
    }
    let Some(Link { next, .. }) = vertex_link(lent.words, 0) else {
        return Err(Refusal::Torn);
    };
    Ok(first_place(q, next))
}
