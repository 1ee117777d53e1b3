// Numbers read where they stand in a line. No line of a script has a number above 2147483647, so such a number is
// bad.
ghost use Rattle.std.specs.Prelude.{◌≡◌};
ghost use Rattle.script.specs.Words.{ended, number_at, end_at};

use digits::numbers::{Parsed, read_digits};

// A value that is a word of a line, where the text goes on, and whether it is the last word of its line.
#[derive(Clone, Copy)]
pub struct Item<T> {
    pub value: T,
    pub next: usize,
    pub last: bool,
}

// What ends a word: a space, so that more follows in its line, or the line's end.
#[derive(Clone, Copy)]
pub struct End {
    pub next: usize,
    pub last: bool,
}

#[tactic(auto, using(crate::proofs::Taken::taken), unfolding(crate::specs::Words::end_at))]
pub fn end_at(text: &[u8], at: usize) -> Option<End>
    ensures { result ≡ end_at text.now at }
{
    if text.len() <= at {
        return None;
    }
    let b = text[at];
    if b == 10 {
        return Some(End {
            next: at + 1,
            last: true,
        });
    }
    if b == 32 {
        return Some(End {
            next: at + 1,
            last: false,
        });
    }
    None
}

// What was parsed is a word where a word ends after it.
#[tactic(auto, using(crate::proofs::Taken::taken))]
pub(crate) fn as_item<T: Copy>(text: &[u8], p: Parsed<T>) -> Option<Item<T>>
    ensures { result ≡ ended text.now p }
{
    let End { next, last } = end_at(text, p.next)?;
    Some(Item {
        value: p.value,
        next,
        last,
    })
}

#[tactic(auto, using(crate::proofs::NumberLaws::number_cases))]
pub fn read_number(text: &[u8], at: usize) -> Option<Item<u32>>
    ensures { result ≡ number_at text.now at }
{
    let p = read_digits(text, at)?;
    as_item(text, p)
}
