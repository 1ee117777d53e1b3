// What a step decides, by the place of the record.
ghost use Rattle.std.specs.Prelude.{◌≡◌};
ghost use Rattle.catalogue.specs.Steps.Decide.{step_at, decide_at, decide};
ghost use Rattle.memory.specs.Memories.{held};

use catalogue::steps::Decision;
use catalogue::workers::{Ahead, Place, Worker};
use edges::step::step_edge;
use finding::edge::step_contains_edge;
use finding::ends::{step_find_u, step_find_v};
use finding::vertex::step_contains;
use looks::keys::key_refused;
use memory::Lent;
use trial::open::trial_open;
use trial::shut::trial_shut;
use vertices::step::step_vertex;
use workers::reach::ahead;
use workers::requests::request_of;

// Of what a trial keeps, its places read what lies ahead.
fn step_at(lent: Lent, place: Place, ahead: Ahead) -> Decision
    ensures { result ≡ step_at (held lent.entry) place ahead }
{
    match place {
        Place::Idle => Decision::Torn,
        Place::AddV { k, p, c } => step_vertex(lent, 1, k, p, c),
        Place::RemV { k, p, c } => step_vertex(lent, 2, k, p, c),
        Place::ConV { k, c } => step_contains(lent, k, c),
        Place::AddEFindU { pair, c } => step_find_u(lent, 4, pair, c),
        Place::RemEFindU { pair, c } => step_find_u(lent, 5, pair, c),
        Place::ConEFindU { pair, c } => step_find_u(lent, 6, pair, c),
        Place::AddEFindV { pair, u, c } => step_find_v(lent, 4, pair, u, c),
        Place::RemEFindV { pair, u, c } => step_find_v(lent, 5, pair, u, c),
        Place::ConEFindV { pair, u, c } => step_find_v(lent, 6, pair, u, c),
        Place::AddE { ends, p, c } => step_edge(lent, 4, ends, p, c),
        Place::RemE { ends, p, c } => step_edge(lent, 5, ends, p, c),
        Place::ConE { ends, c } => step_contains_edge(lent, ends, c),
        Place::Trial { ends, e } => trial_shut(lent, ahead, ends, e),
        Place::TrialOpen { ends, e, x, c } => trial_open(lent, ahead, ends, e, x, c),
    }
}

// The keys of the request are looked at before anything else.
fn decide_at(lent: Lent, place: Place, ahead: Ahead) -> Decision
    ensures { result ≡ decide_at (held lent.entry) place ahead }
{
    if key_refused(request_of(place)) {
        return Decision::Torn;
    }
    step_at(lent, place, ahead)
}

pub fn decide(lent: Lent, w: Worker) -> Decision
    ensures { result ≡ decide (held lent.entry) w }
{
    decide_at(lent, w.place, ahead(w.reach))
}
