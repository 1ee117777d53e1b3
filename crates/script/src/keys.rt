// Keys read where they stand in a line: a number, or a minus and a number other than 0. The two reserved keys are
// bad.
ghost use Rattle.std.specs.Prelude.{◌≡◌};
ghost use Rattle.script.specs.Words.{key_at};

use crate::numbers::{Item, as_item};
use digits::signed::read_signed;

#[tactic(auto, using(crate::proofs::NumberLaws::key_cases))]
pub fn read_key(text: &[u8], at: usize) -> Option<Item<i32>>
    ensures { result ≡ key_at text.now at }
{
    let p = read_signed(text, at)?;
    let key = as_item(text, p)?;
    if key.value < 2147483647 {
        return Some(key);
    }
    None
}
