// The table of workers as numbers: memory of one size that a host lends, and that no bits in it can spoil. An enum
// cannot be lent to another language, so a place is written down as a kind and its numbers, and read back.
ghost use Rattle.std.specs.Prelude.{◌≡◌};
ghost use Rattle.border.specs.Kept.{prev_in, edge_place_in, finding_place_in, place_in, at_kind, vertex_spot, edge_spot, spot_of, worker_in, record_of};

use catalogue::workers::{Ends, Pair, Place, Prev, Reach, Worker};

// A place: its kind, the request's keys, and the node numbers that the place uses; what it does not use is zero.
#[repr(C)]
#[derive(Clone, Copy)]
pub struct Spot {
    pub pair: Pair,
    pub e: u16,
    pub c: u16,
    pub kind: u8,
    pub u: u8,
    pub v: u8,
    pub x: u8,
}

// A worker's record.
#[repr(C)]
#[derive(Clone, Copy)]
pub struct Record {
    pub spot: Spot,
    pub reach: Reach,
}

// The table.
#[repr(C)]
#[derive(Clone, Copy)]
pub struct Kept {
    pub count: u32,
    pub records: [Record; 8],
}

// x says whether an edge stands before the current one.
#[tactic(auto, unfolding(crate::specs::Kept::prev_in))]
fn prev_in(x: u8, e: u16) -> Prev
    ensures { result ≡ prev_in x e }
{
    match x {
        0 => Prev::First,
        _ => Prev::Edge { edge: e },
    }
}

// The places at the edges of u, and the trials; a kind that no place has reads as idle.
#[tactic(auto, unfolding(crate::specs::Kept::edge_place_in))]
fn edge_place_in(s: Spot) -> Place
    ensures { result ≡ edge_place_in s }
{
    let ends = Ends {
        pair: s.pair,
        u: s.u,
        v: s.v,
    };
    let p = prev_in(s.x, s.e);
    match s.kind {
        10 => Place::AddE { ends, p, c: s.c },
        11 => Place::RemE { ends, p, c: s.c },
        12 => Place::ConE { ends, c: s.c },
        13 => Place::Trial { ends, e: s.e },
        14 => Place::TrialOpen {
            ends,
            e: s.e,
            x: s.x,
            c: s.c,
        },
        _ => Place::Idle,
    }
}

// The places that find u or v: the vertex looked at is v.
#[tactic(auto, unfolding(crate::specs::Kept::finding_place_in))]
fn finding_place_in(s: Spot) -> Place
    ensures { result ≡ finding_place_in s }
{
    let Spot { pair, u, v: c, .. } = s;
    match s.kind {
        4 => Place::AddEFindU { pair, c },
        5 => Place::RemEFindU { pair, c },
        6 => Place::ConEFindU { pair, c },
        7 => Place::AddEFindV { pair, u, c },
        8 => Place::RemEFindV { pair, u, c },
        9 => Place::ConEFindV { pair, u, c },
        _ => edge_place_in(s),
    }
}

impl From<Spot> for Place {
    ghost from_gives = { λ s p. p ≡ place_in s };

    // The vertex calls: p is u, and c is v.
    #[tactic(auto, unfolding(crate::specs::Kept::place_in))]
    fn from(s: Spot) -> Place {
        let Spot { u: p, v: c, .. } = s;
        let k = s.pair.k;
        match s.kind {
            1 => Place::AddV { k, p, c },
            2 => Place::RemV { k, p, c },
            3 => Place::ConV { k, c },
            _ => finding_place_in(s),
        }
    }
}

// A place that has no edge. The vertex calls have no second key.
#[tactic(auto, unfolding(crate::specs::Kept::vertex_spot))]
fn vertex_spot(kind: u8, pair: Pair, u: u8, v: u8) -> Spot
    ensures { result ≡ vertex_spot kind pair u v }
{
    at_kind(kind, Ends { pair, u, v }, 0, 0, 0)
}

// An edge place, by what stands before its edge.
#[tactic(auto, unfolding(crate::specs::Kept::edge_spot))]
fn edge_spot(kind: u8, ends: Ends, p: Prev, c: u16) -> Spot
    ensures { result ≡ edge_spot kind ends p c }
{
    match p {
        Prev::First => at_kind(kind, ends, 0, 0, c),
        Prev::Edge { edge } => at_kind(kind, ends, 1, edge, c),
    }
}

#[tactic(auto, unfolding(crate::specs::Kept::at_kind))]
fn at_kind(kind: u8, ends: Ends, x: u8, e: u16, c: u16) -> Spot
    ensures { result ≡ at_kind kind ends x e c }
{
    let Ends { pair, u, v } = ends;
    Spot {
        pair,
        e,
        c,
        kind,
        u,
        v,
        x,
    }
}

impl From<Place> for Spot {
    ghost from_gives = { λ p s. s ≡ spot_of p };

    fn from(place: Place) -> Spot {
        match place {
            Place::Idle => vertex_spot(0, Pair { k: 0, l: 0 }, 0, 0),
            Place::AddV { k, p, c } => vertex_spot(1, Pair { k, l: 0 }, p, c),
            Place::RemV { k, p, c } => vertex_spot(2, Pair { k, l: 0 }, p, c),
            Place::ConV { k, c } => vertex_spot(3, Pair { k, l: 0 }, 0, c),
            Place::AddEFindU { pair, c } => vertex_spot(4, pair, 0, c),
            Place::RemEFindU { pair, c } => vertex_spot(5, pair, 0, c),
            Place::ConEFindU { pair, c } => vertex_spot(6, pair, 0, c),
            Place::AddEFindV { pair, u, c } => vertex_spot(7, pair, u, c),
            Place::RemEFindV { pair, u, c } => vertex_spot(8, pair, u, c),
            Place::ConEFindV { pair, u, c } => vertex_spot(9, pair, u, c),
            Place::AddE { ends, p, c } => edge_spot(10, ends, p, c),
            Place::RemE { ends, p, c } => edge_spot(11, ends, p, c),
            Place::ConE { ends, c } => at_kind(12, ends, 0, 0, c),
            Place::Trial { ends, e } => at_kind(13, ends, 0, e, 0),
            Place::TrialOpen { ends, e, x, c } => at_kind(14, ends, x, e, c),
        }
    }
}

impl From<Record> for Worker {
    ghost from_gives = { λ r w. w ≡ worker_in r };

    fn from(r: Record) -> Worker {
        Worker {
            place: Place::from(r.spot),
            reach: r.reach,
        }
    }
}

impl From<Worker> for Record {
    ghost from_gives = { λ w r. r ≡ record_of w };

    fn from(w: Worker) -> Record {
        Record {
            spot: Spot::from(w.place),
            reach: w.reach,
        }
    }
}
