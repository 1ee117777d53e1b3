// One node of the first catalogue, made anew in the second.
ghost use Rattle.std.specs.Prelude.{◌≡◌, ◌+◌, ◌≤◌, ◌<◌, set};
ghost use Rattle.catalogue.specs.Catalogue.{vertex_key_in, edge_key};
ghost use Rattle.catalogue.specs.Live.{is_live};
ghost use Rattle.catalogue.specs.Lent.{memory_of, vkeys};
ghost use Rattle.survey.specs.Walks.{linked};
ghost use Rattle.sweep.specs.Built.{committed, vertex_write, target_number, tip_after, copied};
ghost use Rattle.memory.specs.Memories.{held};

use crate::nodes::{add_edge, add_vertex, put_number, target_number};
use memory::reads::{edge_key, vertex_key};
use memory::{Keys, Lent, Words};
use survey::tests::is_live;

// Where the next edge of a list goes: n edges are made, of which p is the last one with this source.
#[derive(Clone, Copy)]
pub struct Tip {
    pub source: u8,
    pub n: u16,
    pub p: u16,
}

// The vertex x and its new number, after n others.
pub fn copy_vertex(
    keys: &Keys,
    new_keys: &mut Keys,
    new_words: &mut Words,
    numbers: &mut [u8; 256],
    n: u8,
    x: u8,
)
    requires { n < 254 }
    ensures new_words_after { memory_of new_keys.new new_words.new ≡ committed (memory_of new_keys.old new_words.old) (vertex_write n (vertex_key_in (vkeys keys.now) x)) }
    ensures numbers_after { numbers.new ≡ set numbers.old x (2 + n) }
{
    let key = vertex_key(keys, x);
    add_vertex(new_keys, new_words, n, key);
    put_number(numbers, x, n);
}

// The edge e, if it is live; returns where the edge after it goes.
pub fn copy_edge(
    lent: Lent,
    numbers: &[u8; 256],
    new_keys: &mut Keys,
    new_words: &mut Words,
    tip: Tip,
    e: u16,
) -> Tip
    requires p_bound { tip.p < 2048 }
    requires tip_bound { (tip_after (is_live (linked lent.words.now) e) tip).n ≤ 2047 }
    ensures new_words_after { memory_of new_keys.new new_words.new ≡ copied (is_live (linked lent.entry.words.now) e) tip (edge_key (held lent.entry) e) (target_number (linked lent.entry.words.now) numbers.now e) (memory_of new_keys.old new_words.old) }
    ensures value { result ≡ tip_after (is_live (linked lent.entry.words.now) e) tip }
{
    if is_live(lent.words, e) {
        let key = edge_key(lent.keys, e);
        let target = target_number(lent.words, numbers, e);
        add_edge(new_keys, new_words, tip.n, key, target, tip.source, tip.p);
        let made = tip.n + 1;
        return Tip {
            source: tip.source,
            n: made,
            p: made,
        };
    }
    tip
}
