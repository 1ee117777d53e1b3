// The same request on many vertices.
ghost use Rattle.std.specs.Prelude.{◌≡◌, ◌<◌};
ghost use Rattle.asking.specs.Tallies.{key};

use crate::perform::perform;
use crate::tally::{Tally, counted, none};

// How many vertices fit.
pub const VERTICES: u16 = 254;

// The key of the n-th vertex; every other one lies below zero.
pub fn key(n: u16) -> i32
    ensures { result ≡ key n }
{
    let k = n as i32;
    if n % 2 == 0 {
        return k;
    }
    -k
}

// On every by-th vertex from the first on.
pub fn on_vertices(keys: &mut [i32], words: &mut [u32], code: u32, first: u16, by: u16) -> Tally
    requires { 0 < by }
{
    let mut tally = none();
    for n in (first..VERTICES).step_by(by as usize) {
        let performed = perform(keys, words, code, key(n), 0);
        tally = counted(tally, performed);
    }
    tally
}
