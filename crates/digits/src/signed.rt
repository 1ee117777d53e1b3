// A number with a sign: a number, or a minus and a number other than 0.
ghost use Rattle.std.specs.Prelude.{◌≡◌};
ghost use Rattle.digits.specs.Digits.{signed_at};

use crate::numbers::{Parsed, read_digits};

// As for a number without a sign.
#[tactic(auto, using(crate::proofs::Signs::signs))]
pub fn read_signed(text: &[u8], at: usize) -> Option<Parsed<i32>>
    ensures { result ≡ signed_at text.now at }
{
    if text.len() <= at {
        return None;
    }
    if text[at] == 45 {
        let Parsed { value, next } = read_digits(text, at + 1)?;
        if value == 0 {
            return None;
        }
        return Some(Parsed {
            value: -(value as i32),
            next,
        });
    }
    let Parsed { value, next } = read_digits(text, at)?;
    Some(Parsed {
        value: value as i32,
        next,
    })
}
