// One read for each field. A word is taken apart where it is read; one that is no link or target gives `None`,
// and a count that a pool cannot have gives `Torn`.
ghost use Rattle.std.specs.Prelude.{◌≡◌, ◌+◌, ◌%◌, ◌<◌, ◌≤◌, pos, length, get_or};
ghost use Rattle.catalogue.specs.Tests.{pick};
ghost use Rattle.catalogue.specs.Numbers.{greatest, room, apart};
ghost use Rattle.catalogue.specs.Catalogue.{vertex_key_in, vertex_link_in, first_link_in, edge_key_in, edge_link_in, edge_target_in};
ghost use Rattle.catalogue.specs.Lent.{vkeys, ekeys, vlinks, firsts, targets, elinks, vertex_count, edge_count};

use crate::{Keys, Words};
use catalogue::links::{EdgeLink, Link, MARKED, PLAIN, Room, VertexLink};

// The key of both tails.
const GREATEST: i32 = i32::MAX;

// The key that stands at a place. The tail's is the greatest, whatever memory holds.
fn key(keys: &Keys, at: usize, tail: bool) -> i32
    requires { at < length keys.now }
    ensures { result ≡ pick tail greatest (get_or keys.now at (pos 0)) }
{
    if tail {
        return GREATEST;
    }
    keys[at]
}

// The tag in a word.
fn tag_in(word: u32) -> u8
    ensures { result ≡ word % 4 }
{
    (word % 4) as u8
}

// The link in a word: it leads into its pool, and its tag fits its owner.
fn link_in(word: u32, pool: u32, fits: bool) -> Option<EdgeLink>
    requires { pool ≤ 65536 }
    ensures { result ≡ apart pool (λ tag. fits) word }
{
    let next = word / 4;
    if next < pool {
        if fits {
            return Some(Link {
                next: next as u16,
                tag: tag_in(word),
            });
        }
        return None;
    }
    None
}

// The node that a pool hands out next, by the count that it has handed out.
#[tactic(auto, unfolding(catalogue::specs::Numbers::room))]
fn room_after(count: u32, most: u32, first: u32) -> Room
    requires { first + most ≤ 65535 }
    ensures { result ≡ room most first count }
{
    if count < most {
        return Room::Next {
            node: (first + count) as u16,
        };
    }
    if count == most {
        return Room::Full;
    }
    Room::Torn
}

#[tactic(auto, unfolding(catalogue::specs::Catalogue::vertex_key_in))]
pub fn vertex_key(keys: &Keys, n: u8) -> i32
    ensures { result ≡ vertex_key_in (vkeys keys.now) n }
{
    key(keys, n as usize, n == 1)
}

// The tail has no mark, and its word is not read.
#[tactic(auto, unfolding(catalogue::specs::Catalogue::vertex_link_in))]
pub fn vertex_link(words: &Words, n: u8) -> Option<VertexLink>
    ensures { result ≡ vertex_link_in (vlinks words.now) n }
{
    if n == 1 {
        return Some(Link {
            next: 1,
            tag: PLAIN,
        });
    }
    let word = words[2 + (n as usize)];
    let Some(Link { next, tag }) = link_in(word, 256, tag_in(word) <= MARKED) else {
        return None;
    };
    Some(Link {
        next: next as u8,
        tag,
    })
}

// A first-edge link is PLAIN.
#[tactic(auto, unfolding(catalogue::specs::Catalogue::first_link_in))]
pub fn first_link(words: &Words, n: u8) -> Option<EdgeLink>
    ensures { result ≡ first_link_in (firsts words.now) n }
{
    let word = words[258 + (n as usize)];
    link_in(word, 2048, tag_in(word) == PLAIN)
}

#[tactic(auto, unfolding(catalogue::specs::Catalogue::edge_key_in))]
pub fn edge_key(keys: &Keys, n: u16) -> i32
    requires { n < 2048 }
    ensures { result ≡ edge_key_in (ekeys keys.now) n }
{
    key(keys, 256 + (n as usize), n == 0)
}

// An edge node's link is never PLAIN; the tail has none.
#[tactic(auto, unfolding(catalogue::specs::Catalogue::edge_link_in))]
pub fn edge_link(words: &Words, n: u16) -> Option<EdgeLink>
    ensures { result ≡ edge_link_in (elinks words.now) n }
{
    if n == 0 {
        return None;
    }
    if n < 2048 {
        let word = words[2562 + (n as usize)];
        return link_in(word, 2048, MARKED <= tag_in(word));
    }
    None
}

// The target of an edge: a vertex number.
#[tactic(auto, unfolding(catalogue::specs::Catalogue::edge_target_in))]
pub fn edge_target(words: &Words, n: u16) -> Option<u8>
    requires { n < 2048 }
    ensures { result ≡ edge_target_in (targets words.now) n }
{
    let word = words[514 + (n as usize)];
    if word < 256 {
        return Some(word as u8);
    }
    None
}

// The vertex that is handed out next.
#[tactic(auto, unfolding(catalogue::specs::Numbers::room))]
pub fn vertex_room(words: &Words) -> Room
    ensures { result ≡ room 254 2 (vertex_count words.now) }
{
    room_after(words[0], 254, 2)
}

// The edge that is handed out next.
pub fn edge_room(words: &Words) -> Room
    ensures { result ≡ room 2047 1 (edge_count words.now) }
{
    room_after(words[1], 2047, 1)
}
