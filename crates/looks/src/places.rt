// Which place a request goes on to, by its code. The code stays a number: the user asks that decisions go by it.
ghost use Rattle.std.specs.Prelude.{◌≡◌};
ghost use Rattle.catalogue.specs.Steps.Places.{vertex_place, find_u_place, find_v_place, edge_place, edges_place, first_place};

use catalogue::workers::{Ends, Pair, Place, Prev, Request};

#[tactic(auto, unfolding(catalogue::specs::Steps::Places::vertex_place))]
pub fn vertex_place(code: u32, k: i32, p: u8, c: u8) -> Place
    ensures { result ≡ vertex_place code k p c }
{
    match code {
        1 => Place::AddV { k, p, c },
        _ => Place::RemV { k, p, c },
    }
}

#[tactic(auto, unfolding(catalogue::specs::Steps::Places::find_u_place))]
pub fn find_u_place(code: u32, pair: Pair, c: u8) -> Place
    ensures { result ≡ find_u_place code pair c }
{
    match code {
        4 => Place::AddEFindU { pair, c },
        5 => Place::RemEFindU { pair, c },
        _ => Place::ConEFindU { pair, c },
    }
}

#[tactic(auto, unfolding(catalogue::specs::Steps::Places::find_v_place))]
pub fn find_v_place(code: u32, pair: Pair, u: u8, c: u8) -> Place
    ensures { result ≡ find_v_place code pair u c }
{
    match code {
        4 => Place::AddEFindV { pair, u, c },
        5 => Place::RemEFindV { pair, u, c },
        _ => Place::ConEFindV { pair, u, c },
    }
}

#[tactic(auto, unfolding(catalogue::specs::Steps::Places::edge_place))]
pub fn edge_place(code: u32, ends: Ends, p: Prev, c: u16) -> Place
    ensures { result ≡ edge_place code ends p c }
{
    match code {
        4 => Place::AddE { ends, p, c },
        _ => Place::RemE { ends, p, c },
    }
}

// The first look at the edges of u.
#[tactic(auto, unfolding(catalogue::specs::Steps::Places::edges_place))]
pub fn edges_place(code: u32, ends: Ends, c: u16) -> Place
    ensures { result ≡ edges_place code ends c }
{
    match code {
        6 => Place::ConE { ends, c },
        _ => edge_place(code, ends, Prev::First, c),
    }
}

// Taking up: c is the head's next. Another code has no place: it is refused as CODE before.
#[tactic(auto, unfolding(catalogue::specs::Steps::Places::first_place))]
pub fn first_place(q: Request, c: u8) -> Place
    ensures { result ≡ first_place q c }
{
    let code = q.code;
    let pair = q.pair;
    let k = pair.k;
    match code {
        1 => Place::AddV { k, p: 0, c },
        2 => Place::RemV { k, p: 0, c },
        3 => Place::ConV { k, c },
        4 => Place::AddEFindU { pair, c },
        5 => Place::RemEFindU { pair, c },
        6 => Place::ConEFindU { pair, c },
        _ => Place::Idle,
    }
}
