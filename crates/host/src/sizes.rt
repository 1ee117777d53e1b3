// How much memory a host lends.
ghost use Rattle.std.specs.Prelude.{◌≡◌};
ghost use Rattle.catalogue.specs.Lent.{keys_size, words_size, output_size};
ghost use Rattle.border.specs.Kept.{table_size};

use memory::{KEYS_SIZE, WORDS_SIZE};

// The keys of a catalogue, in numbers of 32 bits.
#[unsafe(no_mangle)]
pub extern "C" fn pallaymi_keys_size() -> usize
    ensures { result ≡ keys_size }
{
    KEYS_SIZE
}

// The words of a catalogue, in numbers of 32 bits.
#[unsafe(no_mangle)]
pub extern "C" fn pallaymi_words_size() -> usize
    ensures { result ≡ words_size }
{
    WORDS_SIZE
}

// An output, in bytes: at least so many.
#[unsafe(no_mangle)]
pub extern "C" fn pallaymi_output_size() -> usize
    ensures { result ≡ output_size }
{
    65536
}

// A table, in bytes.
#[unsafe(no_mangle)]
pub extern "C" fn pallaymi_table_size() -> usize
    ensures { result ≡ table_size }
{
    2504
}
