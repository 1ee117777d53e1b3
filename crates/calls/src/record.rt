// One step of one record, by value.
ghost use Rattle.std.specs.Prelude.{◌≡◌};
ghost use Rattle.catalogue.specs.Lent.{Sized, catalogue_in};
ghost use Rattle.catalogue.specs.Writes.{commit};
ghost use Rattle.catalogue.specs.Steps.Decide.{decide, stepped, write_of};
ghost use Rattle.memory.specs.Memories.{Hold};

use catalogue::answers::Stepped;
use catalogue::workers::Worker;
use memory::{KEYS_SIZE, Keys, Lent, WORDS_SIZE, Words};
use steps::carry::{answer_of, record_after, write_of};
use steps::decide::decide;
use writing::writes::commit;

// All reads come first, then the one write, then the record.
pub fn step_record(keys: &mut Keys, words: &mut Words, w: Worker) -> Stepped
    ensures value { result ≡ stepped w (decide (catalogue_in keys.old words.old) w) }
    ensures hold { Hold keys.new words.new (commit (catalogue_in keys.old words.old) (write_of (decide (catalogue_in keys.old words.old) w))) }
{
    let d = decide(Lent { keys, words }, w);
    let write = write_of(d);
    commit(keys, words, write);
    let worker = record_after(w, d);
    let answer = answer_of(d, worker);
    Stepped { worker, answer }
}

// The same for a caller that has checked the sizes of what it was lent.
pub fn step_lent(keys: &mut [i32], words: &mut [u32], w: Worker) -> Stepped
    requires { Sized keys.old words.old }
    ensures value { result ≡ stepped w (decide (catalogue_in keys.old words.old) w) }
    ensures hold { Hold keys.new words.new (commit (catalogue_in keys.old words.old) (write_of (decide (catalogue_in keys.old words.old) w))) }
{
    let keys = keys.as_mut_array::<KEYS_SIZE>().unwrap();
    let words = words.as_mut_array::<WORDS_SIZE>().unwrap();
    step_record(keys, words, w)
}
