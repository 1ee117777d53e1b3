// The one change that a step may make in the lent catalogue.
// Each case turns one link that another worker can reach, or none. A node that is handed out is filled first.
// In a catalogue that steps have made no worker reaches it before the last link of its case is turned.
#[derive(Clone, Copy)]
pub enum Write {
    Nothing,
    // the link of a vertex
    VertexLink {
        vertex: u8,
        next: u8,
        tag: u8,
    },
    // a vertex handed out between p and next
    NewVertex {
        vertex: u8,
        key: i32,
        next: u8,
        p: u8,
    },
    // the link of u to its first edge
    FirstEdge {
        u: u8,
        next: u16,
    },
    // the link of an edge
    EdgeLink {
        edge: u16,
        next: u16,
        tag: u8,
    },
    // an edge handed out as the first of u
    NewFirst {
        edge: u16,
        key: i32,
        target: u8,
        next: u16,
        u: u8,
    },
    // an edge handed out between p, whose tag is kept, and next
    NewEdge {
        edge: u16,
        key: i32,
        target: u8,
        next: u16,
        p: u16,
        tag: u8,
    },
}
