// The same request on many edges. An edge leads from a vertex to each fourteenth vertex below it,
// which is more edges than fit. The trial of a new one has the edges of its target to go through.
ghost use Rattle.std.specs.Prelude.{◌<◌};

use asking::many_vertices::{VERTICES, key};
use asking::perform::perform;
use asking::tally::{Tally, counted, none};

const APART: u16 = 14;

// On the edges of the n-th vertex.
fn on_edges_of(keys: &mut [i32], words: &mut [u32], before: Tally, code: u32, n: u16) -> Tally {
    let mut tally = before;
    for below in 1..=n / APART {
        let target = n - APART * below;
        let performed = perform(keys, words, code, key(n), key(target));
        tally = counted(tally, performed);
    }
    tally
}

// On the edges of every by-th vertex.
pub fn on_edges(keys: &mut [i32], words: &mut [u32], code: u32, by: u16) -> Tally
    requires { 0 < by }
{
    let mut tally = none();
    for n in (0..VERTICES).step_by(by as usize) {
        tally = on_edges_of(keys, words, tally, code, n);
    }
    tally
}
