// Each call writes at `at` and returns where the next one goes on. There is no heap: an output is lent memory of a
// fixed size, so the place stands beside it.
ghost use Rattle.std.specs.Prelude.{◌≡◌, [], ◌∷◌, ◌+◌, ◌<◌, ◌≤◌, nat_abs, length, drop};
ghost use Rattle.catalogue.specs.Text.{decimal, number};
ghost use Rattle.text.specs.Puts.{put_at};

pub fn put_byte(output: &mut [u8], at: usize, b: u8) -> usize
    requires { at < length output.old }
    ensures output_after { output.new ≡ put_at output.old at (b ∷ []) }
    ensures value { result ≡ at + 1 }
{
    output[at] = b;
    at + 1
}

pub fn put_bytes(output: &mut [u8], at: usize, bytes: &[u8]) -> usize
    requires { at + length bytes.now ≤ length output.old }
    ensures output_after { output.new ≡ put_at output.old at bytes.now }
    ensures value { result ≡ at + length bytes.now }
{
    let end = at + bytes.len();
    output[at..end].copy_from_slice(bytes);
    end
}

// The digits come out last one first, so they fill the scratch from its end; returns where they begin.
#[tactic(auto, using(crate::proofs::Spelling::spellings))]
fn spell(scratch: &mut [u8; 10], n: u32) -> usize
    ensures { drop result scratch.new ≡ decimal n }
{
    let mut rest = n;
    for first in (0..10).rev() {
        scratch[first] = 48 + ((rest % 10) as u8);
        rest = rest / 10;
        if rest == 0 {
            return first;
        }
    }
    // Not reached: ten places are enough for 32 bits.
    0
}

#[tactic(auto, using(crate::proofs::Spelling::spelt))]
pub fn put_natural(output: &mut [u8], at: usize, n: u32) -> usize
    requires { at + 10 ≤ length output.old }
    ensures output_after { output.new ≡ put_at output.old at (decimal n) }
    ensures value { result ≡ at + length (decimal n) }
{
    let mut scratch: [u8; 10] = [0; 10];
    let first = spell(&mut scratch, n);
    put_bytes(output, at, &scratch[first..])
}

// The least number has no opposite of 32 bits, so the sign is turned in 64.
fn magnitude(signed: i32) -> u32
    ensures { result ≡ nat_abs signed }
{
    if signed < 0 {
        return (-(signed as i64)) as u32;
    }
    signed as u32
}

pub fn put_number(output: &mut [u8], at: usize, n: i32) -> usize
    requires { at + 11 ≤ length output.old }
    ensures output_after { output.new ≡ put_at output.old at (number n) }
    ensures value { result ≡ at + length (number n) }
{
    let size = magnitude(n);
    if n < 0 {
        let first = put_byte(output, at, 45);
        return put_natural(output, first, size);
    }
    put_natural(output, at, size)
}
