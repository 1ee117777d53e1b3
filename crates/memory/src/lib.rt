// The lent catalogue: where each field stands in the two lent slices, and one read for each.
#![tactic(auto)]

pub mod checks;
pub mod reads;

// How long the two lent slices are: `keys_size` and `words_size` of the definitions.
pub const KEYS_SIZE: usize = 2304;

pub const WORDS_SIZE: usize = 4610;

// A lent slice of its stated size.
pub type Keys = [i32; KEYS_SIZE];

pub type Words = [u32; WORDS_SIZE];

// A lent catalogue, to be read.
#[derive(Clone, Copy)]
pub struct Lent<'a> {
    pub keys: &'a Keys,
    pub words: &'a Words,
}
