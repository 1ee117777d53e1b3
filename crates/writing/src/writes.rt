// One write for each field, and above them the one change that a step may make in a lent catalogue.
ghost use Rattle.std.specs.Prelude.{◌≡◌, ◌+◌, ◌<◌, ◌≤◌, set};
ghost use Rattle.catalogue.specs.Numbers.{link, plain};
ghost use Rattle.catalogue.specs.Writes.{commit, with_vertex, with_edge};
ghost use Rattle.catalogue.specs.Lent.{words_size, catalogue_in};
ghost use Rattle.memory.specs.Memories.{Hold, Writable};

use catalogue::links::{PLAIN, TRANSIT};
use catalogue::writes::Write;
use memory::{Keys, Words};

pub fn put_vertex_key(keys: &mut Keys, n: u8, key: i32)
    ensures { keys.new ≡ set keys.old n key }
{
    keys[n as usize] = key;
}

// A link's word.
fn put_link(words: &mut Words, at: usize, next: u16, tag: u8)
    requires { at < words_size }
    ensures { words.new ≡ set words.old at (link next tag) }
{
    words[at] = 4 * (next as u32) + (tag as u32);
}

pub fn put_vertex_link(words: &mut Words, n: u8, next: u8, tag: u8)
    ensures { words.new ≡ set words.old (2 + n) (link next tag) }
{
    put_link(words, 2 + (n as usize), next as u16, tag);
}

fn put_first_link(words: &mut Words, n: u8, next: u16)
    ensures { words.new ≡ set words.old (258 + n) (link next plain) }
{
    put_link(words, 258 + (n as usize), next, PLAIN);
}

fn put_edge_link(words: &mut Words, n: u16, next: u16, tag: u8)
    requires { n < 2048 }
    ensures { words.new ≡ set words.old (2562 + n) (link next tag) }
{
    put_link(words, 2562 + (n as usize), next, tag);
}

// A new vertex has no edges. It is filled, then counted; in a catalogue that steps have made no link leads to it yet.
fn fill_vertex(keys: &mut Keys, words: &mut Words, n: u8, key: i32, next: u8)
    requires { 2 ≤ n }
    ensures { Hold keys.new words.new (with_vertex (catalogue_in keys.old words.old) n key next) }
{
    put_vertex_key(keys, n, key);
    put_vertex_link(words, n, next, PLAIN);
    put_first_link(words, n, 0);
    words[0] = (n - 1) as u32;
}

// A new edge is on trial. It is filled, then counted; in a catalogue that steps have made no link leads to it yet.
fn fill_edge(keys: &mut Keys, words: &mut Words, n: u16, key: i32, target: u8, next: u16)
    requires { n < 2048 }
    ensures { Hold keys.new words.new (with_edge (catalogue_in keys.old words.old) n key target next) }
{
    keys[256 + (n as usize)] = key;
    words[514 + (n as usize)] = target as u32;
    put_edge_link(words, n, next, TRANSIT);
    words[1] = n as u32;
}

// The link that leads to the new node is the last store; where p is that node, it wins.
fn new_vertex(keys: &mut Keys, words: &mut Words, n: u8, key: i32, next: u8, p: u8)
    requires { 2 ≤ n }
    ensures { Hold keys.new words.new (commit (catalogue_in keys.old words.old) (Write.NewVertex n key next p)) }
{
    fill_vertex(keys, words, n, key, next);
    put_vertex_link(words, p, n, PLAIN);
}

fn new_first(keys: &mut Keys, words: &mut Words, n: u16, key: i32, target: u8, next: u16, u: u8)
    requires { n < 2048 }
    ensures { Hold keys.new words.new (commit (catalogue_in keys.old words.old) (Write.NewFirst n key target next u)) }
{
    fill_edge(keys, words, n, key, target, next);
    put_first_link(words, u, n);
}

// p may be the new node itself, so its tag is what the decision read, not what stands there now.
fn new_edge(
    keys: &mut Keys,
    words: &mut Words,
    n: u16,
    key: i32,
    target: u8,
    next: u16,
    p: u16,
    tag: u8,
)
    requires { (n < 2048) × (p < 2048) }
    ensures { Hold keys.new words.new (commit (catalogue_in keys.old words.old) (Write.NewEdge n key target next p tag)) }
{
    fill_edge(keys, words, n, key, target, next);
    put_edge_link(words, p, n, tag);
}

pub fn commit(keys: &mut Keys, words: &mut Words, write: Write)
    requires { Writable write }
    ensures { Hold keys.new words.new (commit (catalogue_in keys.old words.old) write) }
{
    match write {
        Write::Nothing => {}
        Write::VertexLink { vertex, next, tag } => put_vertex_link(words, vertex, next, tag),
        Write::NewVertex {
            vertex,
            key,
            next,
            p,
        } => new_vertex(keys, words, vertex, key, next, p),
        Write::FirstEdge { u, next } => put_first_link(words, u, next),
        Write::EdgeLink { edge, next, tag } => put_edge_link(words, edge, next, tag),
        Write::NewFirst {
            edge,
            key,
            target,
            next,
            u,
        } => new_first(keys, words, edge, key, target, next, u),
        Write::NewEdge {
            edge,
            key,
            target,
            next,
            p,
            tag,
        } => new_edge(keys, words, edge, key, target, next, p, tag),
    }
}
