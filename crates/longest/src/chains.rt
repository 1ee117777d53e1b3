// All edges but one, between the vertices from the second on, so that each can be reached from the second.
ghost use Rattle.std.specs.Prelude.{◌≤◌};

use asking::many_vertices::key;
use asking::perform::perform;

// From each vertex but the first, up to an end, to the one that stands so far after it.
fn add_chain(keys: &mut [i32], words: &mut [u32], apart: u8, end: u16)
    requires { end ≤ 254 }
{
    for n in 1..end {
        perform(keys, words, 4, key(n), key(n + (apart as u16)));
    }
}

// 252, 251, .. and 245 edges to the eight next vertices, and 58 to the ninth.
pub fn add_chains(keys: &mut [i32], words: &mut [u32]) {
    for apart in 1..9 {
        add_chain(keys, words, apart, 254 - (apart as u16));
    }
    add_chain(keys, words, 9, 59);
}
