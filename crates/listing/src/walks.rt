// Walks by recursion, as they are defined: the fuel falls by one at each node.
// What is put in a call is no longer than its last clause says.
// From this a caller has the room that is left without a look at the keys.
ghost use Rattle.std.specs.Prelude.{◌≡◌, ◌+◌, ◌*◌, ◌≤◌, length};
ghost use Rattle.catalogue.specs.Live.{gather};
ghost use Rattle.survey.specs.Walks.{linked};
ghost use Rattle.listing.specs.Walks.{unmarked_from, added_from, live_from, added_of, live_of, vertex_text, edge_text, edges_text};
ghost use Rattle.text.specs.Puts.{put_at};
ghost use Rattle.memory.specs.Memories.{held};

use memory::reads::{edge_key, vertex_key};
use memory::{Lent, Words};
use survey::tests::{first_edge, is_added, is_live, next_edge, next_vertex, unmarked};
use text::lines::{put_one, put_pair};

// What the contents line counts: live vertices, and the ADDED edges in their lists.
#[derive(Clone, Copy)]
pub struct Counted {
    pub vertices: usize,
    pub edges: usize,
}

fn count_added(words: &Words, e: u16, fuel: u16) -> usize
    ensures { result ≡ length (added_from (linked words.now) fuel e) }
{
    if fuel == 0 {
        return 0;
    }
    if e == 0 {
        return 0;
    }
    let next = next_edge(words, e);
    let rest = count_added(words, next, fuel - 1);
    if is_added(words, e) {
        return rest + 1;
    }
    rest
}

pub fn count_contents(words: &Words, x: u8, fuel: u16) -> Counted
    ensures vertices_value { result.vertices ≡ length (unmarked_from (linked words.now) fuel x) }
    ensures edges_value { result.edges ≡ length (gather (added_of (linked words.now)) (unmarked_from (linked words.now) fuel x)) }
{
    if fuel == 0 {
        return Counted {
            vertices: 0,
            edges: 0,
        };
    }
    if x == 1 {
        return Counted {
            vertices: 0,
            edges: 0,
        };
    }
    let next = next_vertex(words, x);
    let rest = count_contents(words, next, fuel - 1);
    if unmarked(words, x) {
        let first = first_edge(words, x);
        let here = count_added(words, first, 2048);
        let vertices = rest.vertices + 1;
        let edges = here + rest.edges;
        return Counted { vertices, edges };
    }
    rest
}

pub fn list_vertices(lent: Lent, output: &mut [u8], at: usize, x: u8, fuel: u16) -> usize
    requires { at + 12 * fuel ≤ length output.old }
    ensures output_after { output.new ≡ put_at output.old at (vertex_text (held lent.entry) fuel x) }
    ensures value { result ≡ at + length (vertex_text (held lent.entry) fuel x) }
    ensures upper_bound { result ≤ at + 12 * fuel }
{
    if fuel == 0 {
        return at;
    }
    if x == 1 {
        return at;
    }
    let next = next_vertex(lent.words, x);
    if unmarked(lent.words, x) {
        let key = vertex_key(lent.keys, x);
        let end = put_one(output, at, key);
        return list_vertices(lent, output, end, next, fuel - 1);
    }
    list_vertices(lent, output, at, next, fuel - 1)
}

fn list_edges_of(lent: Lent, output: &mut [u8], at: usize, source: i32, e: u16, fuel: u16) -> usize
    requires { at + 24 * length (live_from (linked lent.words.now) fuel e) ≤ length output.old }
    ensures output_after { output.new ≡ put_at output.old at (edge_text (held lent.entry) source fuel e) }
    ensures value { result ≡ at + length (edge_text (held lent.entry) source fuel e) }
    ensures upper_bound { result ≤ at + 24 * length (live_from (linked lent.entry.words.now) fuel e) }
{
    if fuel == 0 {
        return at;
    }
    if e == 0 {
        return at;
    }
    let next = next_edge(lent.words, e);
    if is_live(lent.words, e) {
        let key = edge_key(lent.keys, e);
        let end = put_pair(output, at, source, key);
        return list_edges_of(lent, output, end, source, next, fuel - 1);
    }
    list_edges_of(lent, output, at, source, next, fuel - 1)
}

pub fn list_edges(lent: Lent, output: &mut [u8], at: usize, x: u8, fuel: u16) -> usize
    requires { at + 24 * length (gather (live_of (linked lent.words.now)) (unmarked_from (linked lent.words.now) fuel x)) ≤ length output.old }
    ensures output_after { output.new ≡ put_at output.old at (edges_text (held lent.entry) fuel x) }
    ensures value { result ≡ at + length (edges_text (held lent.entry) fuel x) }
    ensures upper_bound { result ≤ at + 24 * length (gather (live_of (linked lent.entry.words.now)) (unmarked_from (linked lent.entry.words.now) fuel x)) }
{
    if fuel == 0 {
        return at;
    }
    if x == 1 {
        return at;
    }
    let next = next_vertex(lent.words, x);
    if unmarked(lent.words, x) {
        let source = vertex_key(lent.keys, x);
        let first = first_edge(lent.words, x);
        let end = list_edges_of(lent, output, at, source, first, 2048);
        return list_edges(lent, output, end, next, fuel - 1);
    }
    list_edges(lent, output, at, next, fuel - 1)
}
