// Walks by recursion, as they are defined: the fuel falls by one at each node.
// Each node that is kept becomes a new one.
ghost use Rattle.std.specs.Prelude.{◌≡◌, ◌+◌, ◌≤◌, ◌<◌, length};
ghost use Rattle.catalogue.specs.Catalogue.{vertex_key};
ghost use Rattle.catalogue.specs.Live.{gather};
ghost use Rattle.catalogue.specs.Lent.{memory_of};
ghost use Rattle.survey.specs.Walks.{linked};
ghost use Rattle.listing.specs.Walks.{unmarked_from, live_from, live_of};
ghost use Rattle.sweep.specs.Built.{with_vertices, numbered, number_of, edges_built, lists_built};
ghost use Rattle.memory.specs.Memories.{held};

use crate::copies::{Tip, copy_edge, copy_vertex};
use memory::{Keys, Lent, Words};
use survey::tests::{first_edge, next_edge, next_vertex, unmarked};

// n vertices are made; `numbers` has the new number of each under its old one.
#[tactic(auto, using(crate::proofs::VertexCases::vertex_cases))]
pub fn sweep_vertices(
    lent: Lent,
    new_keys: &mut Keys,
    new_words: &mut Words,
    numbers: &mut [u8; 256],
    n: u8,
    x: u8,
    fuel: u16,
)
    requires { n + length (unmarked_from (linked lent.words.now) fuel x) ≤ 254 }
    ensures new_words_after { memory_of new_keys.new new_words.new ≡ with_vertices (vertex_key (held lent.entry)) (unmarked_from (linked lent.entry.words.now) fuel x) n (memory_of new_keys.old new_words.old) }
    ensures numbers_after { numbers.new ≡ numbered (unmarked_from (linked lent.entry.words.now) fuel x) n numbers.old }
{
    if fuel == 0 {
        return;
    }
    if x == 1 {
        return;
    }
    let next = next_vertex(lent.words, x);
    if unmarked(lent.words, x) {
        copy_vertex(lent.keys, new_keys, new_words, numbers, n, x);
        return sweep_vertices(lent, new_keys, new_words, numbers, n + 1, next, fuel - 1);
    }
    sweep_vertices(lent, new_keys, new_words, numbers, n, next, fuel - 1)
}

// The live edges from e on, at the tip of their list; returns how many edges are made then.
#[tactic(auto, using(crate::proofs::EdgeCases::edge_cases))]
fn sweep_edges_of(
    lent: Lent,
    numbers: &[u8; 256],
    new_keys: &mut Keys,
    new_words: &mut Words,
    tip: Tip,
    e: u16,
    fuel: u16,
) -> u16
    requires p_bound { tip.p < 2048 }
    requires e_bound { tip.n + length (live_from (linked lent.words.now) fuel e) ≤ 2047 }
    ensures new_words_after { memory_of new_keys.new new_words.new ≡ edges_built (held lent.entry) numbers.now tip.source (live_from (linked lent.entry.words.now) fuel e) tip.n tip.p (memory_of new_keys.old new_words.old) }
    ensures value { result ≡ tip.n + length (live_from (linked lent.entry.words.now) fuel e) }
{
    if fuel == 0 {
        return tip.n;
    }
    if e == 0 {
        return tip.n;
    }
    let next = next_edge(lent.words, e);
    let after = copy_edge(lent, numbers, new_keys, new_words, tip, e);
    sweep_edges_of(lent, numbers, new_keys, new_words, after, next, fuel - 1)
}

// All edges of x, after n others.
fn sweep_list(
    lent: Lent,
    numbers: &[u8; 256],
    new_keys: &mut Keys,
    new_words: &mut Words,
    n: u16,
    x: u8,
) -> u16
    requires { n + length (live_of (linked lent.words.now) x) ≤ 2047 }
    ensures new_words_after { memory_of new_keys.new new_words.new ≡ edges_built (held lent.entry) numbers.now (number_of numbers.now x) (live_of (linked lent.entry.words.now) x) n 0 (memory_of new_keys.old new_words.old) }
    ensures value { result ≡ n + length (live_of (linked lent.entry.words.now) x) }
{
    let at = x as usize;
    let source = numbers[at];
    let first = first_edge(lent.words, x);
    let tip = Tip { source, n, p: 0 };
    sweep_edges_of(lent, numbers, new_keys, new_words, tip, first, 2048)
}

// n edges are made, all of vertices before x.
#[tactic(auto, using(crate::proofs::ListCases::list_cases))]
pub fn sweep_edges(
    lent: Lent,
    numbers: &[u8; 256],
    new_keys: &mut Keys,
    new_words: &mut Words,
    n: u16,
    x: u8,
    fuel: u16,
)
    requires { n + length (gather (live_of (linked lent.words.now)) (unmarked_from (linked lent.words.now) fuel x)) ≤ 2047 }
    ensures { memory_of new_keys.new new_words.new ≡ lists_built (held lent.entry) numbers.now (unmarked_from (linked lent.entry.words.now) fuel x) n (memory_of new_keys.old new_words.old) }
{
    if fuel == 0 {
        return;
    }
    if x == 1 {
        return;
    }
    let next = next_vertex(lent.words, x);
    if unmarked(lent.words, x) {
        let end = sweep_list(lent, numbers, new_keys, new_words, n, x);
        return sweep_edges(lent, numbers, new_keys, new_words, end, next, fuel - 1);
    }
    sweep_edges(lent, numbers, new_keys, new_words, n, next, fuel - 1)
}
