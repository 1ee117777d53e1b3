// One new node of the second catalogue: it is put at the end of its list.
ghost use Rattle.std.specs.Prelude.{◌≡◌, ◌+◌, ◌<◌, set};
ghost use Rattle.catalogue.specs.Lent.{memory_of};
ghost use Rattle.survey.specs.Walks.{linked};
ghost use Rattle.sweep.specs.Built.{committed, last_vertex, vertex_write, edge_write, with_edge, target_number};

use catalogue::links::ADDED;
use catalogue::writes::Write;
use memory::reads::edge_target;
use memory::{Keys, Words};
use writing::writes::commit;

// The head, where no vertex is made yet.
fn last_vertex(n: u8) -> u8
    requires { n < 254 }
    ensures { result ≡ last_vertex n }
{
    if n == 0 {
        return 0;
    }
    1 + n
}

// A vertex after the n that are made; it is the last one, so it leads to the tail.
pub fn add_vertex(new_keys: &mut Keys, new_words: &mut Words, n: u8, key: i32)
    requires { n < 254 }
    ensures { memory_of new_keys.new new_words.new ≡ committed (memory_of new_keys.old new_words.old) (vertex_write n key) }
{
    let p = last_vertex(n);
    commit(
        new_keys,
        new_words,
        Write::NewVertex {
            vertex: 2 + n,
            key,
            next: 1,
            p,
        },
    );
}

// The new number of x, after n others.
pub fn put_number(numbers: &mut [u8; 256], x: u8, n: u8)
    requires { n < 254 }
    ensures { numbers.new ≡ set numbers.old x (2 + n) }
{
    let at = x as usize;
    numbers[at] = 2 + n;
}

// p is the edge before, or the tail where there is none.
fn edge_write(n: u16, key: i32, target: u8, source: u8, p: u16) -> Write
    requires { n < 2047 }
    ensures { result ≡ edge_write n key target source p }
{
    let edge = 1 + n;
    if p == 0 {
        return Write::NewFirst {
            edge,
            key,
            target,
            next: 0,
            u: source,
        };
    }
    Write::NewEdge {
        edge,
        key,
        target,
        next: 0,
        p,
        tag: ADDED,
    }
}

// The write of a new edge puts it on trial, so its own link is written once more.
pub fn add_edge(
    new_keys: &mut Keys,
    new_words: &mut Words,
    n: u16,
    key: i32,
    target: u8,
    source: u8,
    p: u16,
)
    requires n_bound { n < 2047 }
    requires p_bound { p < 2048 }
    ensures { memory_of new_keys.new new_words.new ≡ with_edge n key target source p (memory_of new_keys.old new_words.old) }
{
    let write = edge_write(n, key, target, source, p);
    commit(new_keys, new_words, write);
    commit(
        new_keys,
        new_words,
        Write::EdgeLink {
            edge: 1 + n,
            next: 0,
            tag: ADDED,
        },
    );
}

// A live edge has a whole target; the number of a torn one is of no use.
pub fn target_number(words: &Words, numbers: &[u8; 256], e: u16) -> u8
    requires { e < 2048 }
    ensures { result ≡ target_number (linked words.now) numbers.now e }
{
    let Some(vertex) = edge_target(words, e) else {
        return 0;
    };
    let at = vertex as usize;
    numbers[at]
}
