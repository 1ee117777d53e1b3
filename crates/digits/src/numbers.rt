// A number in decimal: 0, or digits without a leading zero. It ends before the first byte that is no digit.
ghost use Rattle.std.specs.Prelude.{◌≡◌};
ghost use Rattle.digits.specs.Digits.{digit_at, digits_at};

// A value that was read, and the index of the first byte after it.
#[derive(Clone, Copy)]
pub struct Parsed<T> {
    pub value: T,
    pub next: usize,
}

// The digit at a position, if one stands there.
#[tactic(auto, using(crate::proofs::Values::digit_cases), unfolding(crate::specs::Digits::digit_at))]
fn digit_at(text: &[u8], at: usize) -> Option<u64>
    ensures { result ≡ digit_at text.now at }
{
    if at < text.len() {
        let b = text[at];
        if 48 <= b {
            if b <= 57 {
                return Some((b - 48) as u64);
            }
        }
    }
    None
}

// A number above 2147483647 is none.
#[tactic(auto, using(crate::proofs::Readings::readings))]
pub fn read_digits(text: &[u8], at: usize) -> Option<Parsed<u32>>
    ensures { result ≡ digits_at text.now at }
{
    let mut sum: u64 = 0;
    let mut place = at;
    // By position, and not by an iterator: where the digits end is a part of the answer.
    while let Some(digit) = digit_at(text, place) {
        sum = 10 * sum + digit;
        if 2147483647 < sum {
            return None;
        }
        place += 1;
    }
    let size = place - at;
    if size == 0 {
        return None;
    }
    if text[at] == 48 && 1 < size {
        return None;
    }
    Some(Parsed {
        value: sum as u32,
        next: place,
    })
}
