// A catalogue filled through the calls until neither pool has a node left,
// then listed, swept, thinned out, swept again and filled again.
#![tactic(auto)]

mod many_edges;

use asking::many_vertices::on_vertices;
use asking::perform::made_number;
use asking::print::{print_line, print_listing, print_tally};
use clearing::fresh::fresh;
use many_edges::on_edges;
use memory::{KEYS_SIZE, WORDS_SIZE};
use sweep::sweep::sweep;
use workers::table::idle_table;

// Every vertex and every edge is asked for; the tally says what is there already, or has no room.
fn fill(keys: &mut [i32], words: &mut [u32]) {
    print_tally(on_vertices(keys, words, 1, 0, 1));
    print_tally(on_edges(keys, words, 4, 1));
    print_listing(keys, words);
}

// Some vertices and some edges; what is removed keeps its place, MARKED.
fn thin_out(keys: &mut [i32], words: &mut [u32]) {
    print_tally(on_vertices(keys, words, 2, 5, 10));
    print_tally(on_edges(keys, words, 5, 8));
}

fn sweep_and_list(keys: &[i32], words: &[u32], new_keys: &mut [i32], new_words: &mut [u32]) {
    let made = sweep(keys, words, new_keys, new_words, idle_table(1));
    print_line(made_number(made) as u32);
    print_listing(new_keys, new_words);
}

fn main() {
    let mut keys = [0; KEYS_SIZE];
    let mut words = [0; WORDS_SIZE];
    let mut new_keys = [0; KEYS_SIZE];
    let mut new_words = [0; WORDS_SIZE];
    if fresh(&mut keys, &mut words).is_err() {
        return;
    }
    fill(&mut keys, &mut words);
    sweep_and_list(&keys, &words, &mut new_keys, &mut new_words);
    thin_out(&mut keys, &mut words);
    sweep_and_list(&keys, &words, &mut new_keys, &mut new_words);
    fill(&mut new_keys, &mut new_words);
}
