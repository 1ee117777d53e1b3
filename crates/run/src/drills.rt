// What the drill prints for a script: its result, or the refusal with the number of the first bad line.
ghost use Rattle.std.specs.Prelude.{◌≡◌, ◌≤◌, length, take};
ghost use Rattle.catalogue.specs.Drill.{drill};
ghost use Rattle.catalogue.specs.Lent.{output_size};
ghost use Rattle.run.specs.Drills.{refusal_text};

use crate::call::run;
use catalogue::script::RunError;
use memory::{Keys, Words};
use text::lines::put_natural_followed;
use text::puts::put_bytes;

// The line of a refusal: its word, its number, and the number of the bad line.
fn print_refusal(output: &mut [u8], line: u32) -> usize
    requires { output_size ≤ length output.old }
    ensures output_after { take result output.new ≡ refusal_text line }
    ensures upper_bound { result ≤ length output.new }
{
    let at = put_bytes(output, 0, b"refused 27 ");
    put_natural_followed(output, at, line, 10)
}

// The text is at the start of the output, and so many bytes long.
pub fn drill(text: &[u8], keys: &mut Keys, words: &mut Words, output: &mut [u8]) -> usize
    requires { output_size ≤ length output.old }
    ensures output_after { take result output.new ≡ drill text.now }
    ensures upper_bound { result ≤ length output.new }
{
    match run(text, keys, words, output) {
        Ok(bytes) => bytes as usize,
        Err(RunError::BadScript { line }) => print_refusal(output, line),
        Err(RunError::Refused(_)) => 0,
    }
}
