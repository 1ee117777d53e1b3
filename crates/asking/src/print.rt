// Printing: a number and what follows it, a tally, a listing. By the kit's `io`: std's way rests on two more functions
// of C, and its errors would end a program with status 1.
use crate::tally::Tally;
use listing::call::listing;

fn print_number(n: u32, after: u8) {
    io::print_decimal(1, n as u64);
    io::write_all(1, &[after]);
}

pub fn print_line(n: u32) {
    print_number(n, b'\n');
}

pub fn print_tally(tally: Tally) {
    print_number(tally.done, b' ');
    print_number(tally.no_room, b' ');
    print_number(tally.other, b' ');
    print_number(tally.steps, b'\n');
}

// A refused listing prints nothing, which the stored output would show.
pub fn print_listing(keys: &[i32], words: &[u32]) {
    let mut output = io::large_buffer();
    let Ok(bytes) = listing(keys, words, &mut output) else {
        return;
    };
    let n = io::count(bytes as isize, &output);
    io::write_all(1, &output[..n]);
}
