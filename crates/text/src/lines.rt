// Lines of numbers: each number is put with the byte after it, which is a space, and for the last one the line's end.
ghost use Rattle.std.specs.Prelude.{◌≡◌, [], ◌∷◌, ◌++◌, ◌+◌, ◌≤◌, pos, length};
ghost use Rattle.catalogue.specs.Text.{number, line};
ghost use Rattle.text.specs.Puts.{put_at};

use crate::puts::{put_byte, put_natural, put_number};

fn put_followed(output: &mut [u8], at: usize, n: i32, b: u8) -> usize
    requires { at + 12 ≤ length output.old }
    ensures output_after { output.new ≡ put_at output.old at (number n ++ (b ∷ [])) }
    ensures value { result ≡ at + length (number n ++ (b ∷ [])) }
{
    let end = put_number(output, at, n);
    put_byte(output, end, b)
}

pub fn put_one(output: &mut [u8], at: usize, n: i32) -> usize
    requires { at + 12 ≤ length output.old }
    ensures output_after { output.new ≡ put_at output.old at (line (n ∷ [])) }
    ensures value { result ≡ at + length (line (n ∷ [])) }
{
    put_followed(output, at, n, 10)
}

pub fn put_pair(output: &mut [u8], at: usize, a: i32, b: i32) -> usize
    requires { at + 24 ≤ length output.old }
    ensures output_after { output.new ≡ put_at output.old at (line (a ∷ (b ∷ []))) }
    ensures value { result ≡ at + length (line (a ∷ (b ∷ []))) }
{
    let second = put_followed(output, at, a, 32);
    put_one(output, second, b)
}

// The same for numbers without a sign, which may use all 32 bits.
pub fn put_natural_followed(output: &mut [u8], at: usize, n: u32, b: u8) -> usize
    requires { at + 12 ≤ length output.old }
    ensures output_after { output.new ≡ put_at output.old at (number (pos n) ++ (b ∷ [])) }
    ensures value { result ≡ at + length (number (pos n) ++ (b ∷ [])) }
{
    let end = put_natural(output, at, n);
    put_byte(output, end, b)
}

fn put_two(output: &mut [u8], at: usize, a: u32, b: u32) -> usize
    requires { at + 24 ≤ length output.old }
    ensures output_after { output.new ≡ put_at output.old at (line (pos a ∷ (pos b ∷ []))) }
    ensures value { result ≡ at + length (line (pos a ∷ (pos b ∷ []))) }
{
    let second = put_natural_followed(output, at, a, 32);
    put_natural_followed(output, second, b, 10)
}

pub fn put_three(output: &mut [u8], at: usize, a: u32, b: u32, c: u32) -> usize
    requires { at + 36 ≤ length output.old }
    ensures output_after { output.new ≡ put_at output.old at (line (pos a ∷ (pos b ∷ (pos c ∷ [])))) }
    ensures value { result ≡ at + length (line (pos a ∷ (pos b ∷ (pos c ∷ [])))) }
{
    let second = put_natural_followed(output, at, a, 32);
    put_two(output, second, b, c)
}

pub fn put_four(output: &mut [u8], at: usize, a: u32, b: u32, c: u32, d: u32) -> usize
    requires { at + 48 ≤ length output.old }
    ensures output_after { output.new ≡ put_at output.old at (line (pos a ∷ (pos b ∷ (pos c ∷ (pos d ∷ []))))) }
    ensures value { result ≡ at + length (line (pos a ∷ (pos b ∷ (pos c ∷ (pos d ∷ []))))) }
{
    let second = put_natural_followed(output, at, a, 32);
    put_three(output, second, b, c, d)
}
