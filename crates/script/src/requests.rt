// Request lines: a code and its keys.
ghost use Rattle.std.specs.Prelude.{◌≡◌};
ghost use Rattle.script.specs.Lines.{request_at, keys_at, line_of};

use crate::keys::read_key;
use crate::numbers::read_number;
use catalogue::workers::{Pair, Request};
use digits::numbers::Parsed;

fn line_of(code: u32, k: i32, l: i32, next: usize) -> Option<Parsed<Request>>
    ensures { result ≡ line_of code k l next }
{
    Some(Parsed {
        value: Request {
            code,
            pair: Pair { k, l },
        },
        next,
    })
}

// One key or two, by the code.
#[tactic(auto, using(crate::proofs::RequestLaws::request_cases))]
fn read_keys(text: &[u8], at: usize, code: u32) -> Option<Parsed<Request>>
    ensures { result ≡ keys_at code text.now at }
{
    let k = read_key(text, at)?;
    if k.last {
        if code <= 3 {
            return line_of(code, k.value, 0, k.next);
        }
        return None;
    }
    let l = read_key(text, k.next)?;
    if l.last {
        if code <= 3 {
            return None;
        }
        return line_of(code, k.value, l.value, l.next);
    }
    None
}

// The request of a line, and where the next line begins.
#[tactic(auto, using(crate::proofs::RequestLaws::request_cases))]
pub fn read_request(text: &[u8], at: usize) -> Option<Parsed<Request>>
    ensures { result ≡ request_at text.now at }
{
    let code = read_number(text, at)?;
    if code.last {
        return None;
    }
    if 1 <= code.value {
        if code.value <= 6 {
            return read_keys(text, code.next, code.value);
        }
    }
    None
}
