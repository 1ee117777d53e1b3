// What one look sees, and what a step decides.
use crate::workers::Place;
use crate::writes::Write;

// One look of AddV and RemV at p and c.
#[derive(Clone, Copy)]
pub enum VertexSeen {
    Torn,
    // p's link is not (c, PLAIN)
    Again,
    // c is MARKED
    Unlinks { next: u8 },
    // c's key is lower
    Onward { next: u8 },
    // c's key is not lower; whether it is equal
    Settles { next: u8, equal: bool },
}

// One look of ConV at c, which the edge calls share to find u and v.
#[derive(Clone, Copy)]
pub enum VertexFound {
    Torn,
    Onward { next: u8 },
    Found,
    Missing,
}

// u and v, looked at together: one of them is marked, or both stand.
#[derive(Clone, Copy)]
pub enum BothSeen {
    Torn,
    Dead,
    Standing,
}

// An edge c at which a look settles: p's tag, c's next and tag, and whether c's key is equal.
#[derive(Clone, Copy)]
pub struct Landed {
    pub kept: u8,
    pub next: u16,
    pub tag: u8,
    pub equal: bool,
}

// One look of AddE and RemE at p and c: a case for each of (a) to (f).
#[derive(Clone, Copy)]
pub enum EdgeSeen {
    Torn,
    Dead,
    Again,
    // p's tag, which is kept, and c's next
    Unlinks { kept: u8, next: u16 },
    Marks { next: u16 },
    Onward { next: u16 },
    Settles { at: Landed },
}

// What a step decides. It has read all that it reads;
// the record after it and at most one write follow from this alone.
#[derive(Clone, Copy)]
pub enum Decision {
    Torn,
    // no call has this code
    Code,
    // the place it goes on to; what a trial keeps is zero there
    Going { next: Place, write: Write },
    // a trial begins, with the first vertex met
    Begins { next: Place, write: Write, met: u8 },
    // a trial goes on with what it keeps
    Keeps { next: Place },
    // a trial goes on, and a vertex is met and queued
    Meets { next: Place, met: u8 },
    // a trial goes on, and the front of its queue is taken
    Takes { next: Place },
    Reply { number: u8, write: Write },
}
