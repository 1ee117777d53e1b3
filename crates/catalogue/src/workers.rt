// A worker's record, and the table of workers.

// What stands before the current edge: the first-edge link of u, or an edge node.
#[derive(Clone, Copy)]
pub enum Prev {
    First,
    Edge { edge: u16 },
}

// The keys of an edge call: series l is derived from series k. The layout is C's, since records in lent memory hold
// it.
#[repr(C)]
#[derive(Clone, Copy)]
pub struct Pair {
    pub k: i32,
    pub l: i32,
}

// The keys of an edge call, and the vertices found for them: u for k, v for l.
#[derive(Clone, Copy)]
pub struct Ends {
    pub pair: Pair,
    pub u: u8,
    pub v: u8,
}

// Where a worker stands: idle, or at one place of one request,
// with the request's keys and the node numbers that the place uses.
#[derive(Clone, Copy)]
pub enum Place {
    Idle,
    AddV { k: i32, p: u8, c: u8 },
    RemV { k: i32, p: u8, c: u8 },
    ConV { k: i32, c: u8 },
    // finding u for k
    AddEFindU { pair: Pair, c: u8 },
    RemEFindU { pair: Pair, c: u8 },
    ConEFindU { pair: Pair, c: u8 },
    // finding v for l
    AddEFindV { pair: Pair, u: u8, c: u8 },
    RemEFindV { pair: Pair, u: u8, c: u8 },
    ConEFindV { pair: Pair, u: u8, c: u8 },
    // looking along the edges of u
    AddE { ends: Ends, p: Prev, c: u16 },
    RemE { ends: Ends, p: Prev, c: u16 },
    ConE { ends: Ends, c: u16 },
    // the trial of the own edge e, with no vertex open
    Trial { ends: Ends, e: u16 },
    // the trial with the vertex x open at its edge c
    TrialOpen { ends: Ends, e: u16, x: u8, c: u16 },
}

// How far a trial has got: the set of vertices met, and the queue of vertices with its two ends. The layout is C's,
// as that of a pair.
#[repr(C)]
#[derive(Clone, Copy)]
pub struct Reach {
    pub met: [u64; 4],
    pub queue: [u8; 256],
    pub front: u16,
    pub back: u16,
}

// What a step of a trial reads of it: the set met, the vertex at the front of the queue, and the queue's ends.
#[derive(Clone, Copy)]
pub struct Ahead {
    pub met: [u64; 4],
    pub x: u8,
    pub front: u16,
    pub back: u16,
}

// The place, and beside it what a trial keeps.
#[derive(Clone, Copy)]
pub struct Worker {
    pub place: Place,
    pub reach: Reach,
}

// The workers numbered below the count; the records from the count on are unused.
#[derive(Clone, Copy)]
pub struct Table {
    pub count: u32,
    pub workers: [Worker; 8],
}

// A request: its code, and its keys; codes 1 to 3 use k alone. The code is a number, since any may be asked and all but
// 1 to 6 are refused as CODE.
#[derive(Clone, Copy)]
pub struct Request {
    pub code: u32,
    pub pair: Pair,
}
