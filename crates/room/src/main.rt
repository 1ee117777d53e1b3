// The pool of vertices runs out, and a sweep makes room again.
#![tactic(auto)]

use asking::many_vertices::on_vertices;
use asking::perform::{made_number, perform};
use asking::print::{print_line, print_tally};
use clearing::fresh::fresh;
use memory::{KEYS_SIZE, WORDS_SIZE};
use sweep::sweep::sweep;
use workers::table::idle_table;

fn ask(keys: &mut [i32], words: &mut [u32], code: u32, k: i32) {
    let performed = perform(keys, words, code, k, 0);
    print_line(performed.number as u32);
}

fn main() {
    let mut keys = [0; KEYS_SIZE];
    let mut words = [0; WORDS_SIZE];
    if fresh(&mut keys, &mut words).is_err() {
        return;
    }
    print_tally(on_vertices(&mut keys, &mut words, 1, 0, 1));
    // one more than fit; then one that is there
    ask(&mut keys, &mut words, 1, 254);
    ask(&mut keys, &mut words, 1, 0);
    // a removed vertex keeps its node
    ask(&mut keys, &mut words, 2, 0);
    ask(&mut keys, &mut words, 1, 254);
    // a sweep does not keep it
    let mut new_keys = [0; KEYS_SIZE];
    let mut new_words = [0; WORDS_SIZE];
    let made = sweep(&keys, &words, &mut new_keys, &mut new_words, idle_table(1));
    print_line(made_number(made) as u32);
    ask(&mut new_keys, &mut new_words, 1, 254);
}
