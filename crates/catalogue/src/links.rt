// What a read of the lent catalogue answers. Each word is taken apart once, where it is read.
// A read of a link or of a target answers an `Option`: `None` is for a word that document 01 does not allow there
// (The steps, the paragraph on TORN). The compiler refuses a reader that forgets the case.

// A link taken apart: the node that it leads to, and the tag of the node that owns it. The tag is a number, since a
// link's word is made of it (`Numbers: link`) and every theorem on links names it so.
#[derive(Clone, Copy)]
pub struct Link<N> {
    pub next: N,
    pub tag: u8,
}

// A vertex's link, which leads to a vertex.
pub type VertexLink = Link<u8>;

// A link that leads to an edge: a vertex's first-edge link, or the link of an edge node.
pub type EdgeLink = Link<u16>;

// What a pool has left: the node that it hands out next, or nothing, or a count that the pool cannot have.
#[derive(Clone, Copy)]
pub enum Room {
    Next { node: u16 },
    Full,
    Torn,
}

// The tags of links, as document 01 numbers them.
pub const PLAIN: u8 = 0;

pub const MARKED: u8 = 1;

pub const TRANSIT: u8 = 2;

pub const ADDED: u8 = 3;
