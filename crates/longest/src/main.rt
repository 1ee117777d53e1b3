// Calls that come close to their bounds, on a full catalogue. ConV goes past every vertex;
// a trial takes every vertex but one and passes every edge but its own.
#![tactic(auto)]

mod chains;

use asking::many_vertices::{key, on_vertices};
use asking::perform::perform;
use asking::print::{print_line, print_tally};
use chains::add_chains;
use clearing::fresh::fresh;
use memory::{KEYS_SIZE, WORDS_SIZE};

fn main() {
    let mut keys = [0; KEYS_SIZE];
    let mut words = [0; WORDS_SIZE];
    if fresh(&mut keys, &mut words).is_err() {
        return;
    }
    print_tally(on_vertices(&mut keys, &mut words, 1, 0, 1));
    // all 254 vertices are passed, then the tail is seen: 255 steps after the taking up
    let contains = perform(&mut keys, &mut words, 3, 254, 0);
    print_line(contains.number as u32);
    print_line(contains.steps);
    // 128 steps find the source, 127 the target, one puts the edge in; the trial makes 2,553:
    // two for each of 253 vertices, one for each of 2,046 edges, one for the end
    add_chains(&mut keys, &mut words);
    let derives = perform(&mut keys, &mut words, 4, key(0), key(1));
    print_line(derives.number as u32);
    print_line(derives.steps);
}
