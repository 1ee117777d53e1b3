// The call of a host: a script is run on lent memory, and its result written at the start of a lent output.
ghost use Rattle.catalogue.specs.Lent.{Sized, memory_of, output_size};
ghost use Rattle.std.specs.Prelude.{◌≤◌, Ok, length};
ghost use Rattle.script.specs.Checks.{IsScript};
ghost use Rattle.run.specs.Promised.{RunsScript};

use crate::plays::{LINES, play};
use crate::prints::print;
use catalogue::answers::Refusal;
use catalogue::script::RunError;
use clearing::fresh::lay_fresh;
use listing::call::OUTPUT_SIZE;
use memory::checks::sized;
use memory::{KEYS_SIZE, Lent, WORDS_SIZE};
use script::checks::{Checked, check};

// The lines of the replies wait in a buffer of their own: the contents line before them counts what there is after
// the run.
fn run_script(
    text: &[u8],
    keys: &mut [i32],
    words: &mut [u32],
    output: &mut [u8],
    c: Checked,
) -> u32
    requires sized { Sized keys.old words.old }
    requires output_size_in_bounds { output_size ≤ length output.old }
    requires is_script { IsScript text.now c }
    ensures { RunsScript text.now (memory_of keys.old words.old) output.old (Ok result) keys.new words.new output.new }
{
    let keys = keys.as_mut_array::<KEYS_SIZE>().unwrap();
    let words = words.as_mut_array::<WORDS_SIZE>().unwrap();
    lay_fresh(keys, words);
    let mut lines = [0u8; LINES];
    let s = play(text, keys, words, &mut lines, c);
    print(Lent { keys, words }, output, s.replies, &lines[..s.end])
}

#[tactic(auto, using(memory::proofs::Sizes::sizes), unfolding(catalogue::specs::Lent::lent_run, catalogue::specs::Lent::output_fits))]
pub fn run(
    text: &[u8],
    keys: &mut [i32],
    words: &mut [u32],
    output: &mut [u8],
) -> Result<u32, RunError>
    ensures { RunsScript text.now (memory_of keys.old words.old) output.old result keys.new words.new output.new }
{
    sized(keys, words)?;
    if output.len() < OUTPUT_SIZE {
        return Err(RunError::Refused(Refusal::Room));
    }
    match check(text) {
        Err(bad) => Err(RunError::BadScript { line: bad.line }),
        Ok(c) => Ok(run_script(text, keys, words, output, c)),
    }
}
