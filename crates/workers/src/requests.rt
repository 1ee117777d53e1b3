// What a place says of the request that it belongs to.
ghost use Rattle.std.specs.Prelude.{◌≡◌};
ghost use Rattle.catalogue.specs.Workers.{busy_at, request_of};

use catalogue::workers::{Pair, Place, Request};

pub fn busy_at(place: Place) -> bool
    ensures { result ≡ busy_at place }
{
    !matches!(place, Place::Idle)
}

// Codes 1 to 3 have no second key.
pub fn request_of(place: Place) -> Request
    ensures { result ≡ request_of place }
{
    match place {
        Place::Idle => Request {
            code: 0,
            pair: Pair { k: 0, l: 0 },
        },
        Place::AddV { k, .. } => Request {
            code: 1,
            pair: Pair { k, l: 0 },
        },
        Place::RemV { k, .. } => Request {
            code: 2,
            pair: Pair { k, l: 0 },
        },
        Place::ConV { k, .. } => Request {
            code: 3,
            pair: Pair { k, l: 0 },
        },
        Place::AddEFindU { pair, .. } | Place::AddEFindV { pair, .. } => Request { code: 4, pair },
        Place::RemEFindU { pair, .. } | Place::RemEFindV { pair, .. } => Request { code: 5, pair },
        Place::ConEFindU { pair, .. } | Place::ConEFindV { pair, .. } => Request { code: 6, pair },
        Place::AddE { ends, .. } | Place::Trial { ends, .. } | Place::TrialOpen { ends, .. } => {
            Request {
                code: 4,
                pair: ends.pair,
            }
        }
        Place::RemE { ends, .. } => Request {
            code: 5,
            pair: ends.pair,
        },
        Place::ConE { ends, .. } => Request {
            code: 6,
            pair: ends.pair,
        },
    }
}
