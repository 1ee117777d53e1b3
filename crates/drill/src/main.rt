// The drill: a script from standard input, its result to standard output.
// One byte more than the longest script is read, so that a longer one is seen to be too long.
#![tactic(auto)]

use memory::{KEYS_SIZE, WORDS_SIZE};
use run::drills::drill;

fn main() {
    let mut text = [0u8; 49153];
    let got = io::read_full(0, &mut text);
    let mut keys = [0i32; KEYS_SIZE];
    let mut words = [0u32; WORDS_SIZE];
    let mut output = [0u8; 65536];
    let bytes = drill(&text[..got], &mut keys, &mut words, &mut output);
    io::write_all(1, &output[..bytes]);
}
