// The request lines, checked in the order in which they stand, and where each worker's begin.
ghost use Rattle.std.specs.Prelude.{◌≡◌, ◌+◌, ◌≤◌, take, drop};
ghost use Rattle.script.specs.Shares.{Sharing, skip_at, starts_at, starts_told, onto};

use crate::bad_line::BadLine;
use crate::requests::read_request;

// Request lines of one worker: where they begin, and how many they are.
#[derive(Clone, Copy)]
pub struct Share {
    pub start: usize,
    pub count: u32,
}

// Where the text goes on after all, and the lines of each worker.
#[derive(Clone, Copy)]
pub struct Shares {
    pub next: usize,
    pub shares: [Share; 8],
}

// So many request lines, of which the first has the number `line`.
#[tactic(auto, using(crate::proofs::ShareLaws::skips))]
fn skip(text: &[u8], at: usize, count: u32, line: u32) -> Result<usize, BadLine>
    requires { line + count ≤ 1026 }
    ensures { result ≡ skip_at text.now count line at }
{
    let mut place = at;
    for i in 0..count {
        let Some(request) = read_request(text, place) else {
            return Err(BadLine { line: line + i });
        };
        place = request.next;
    }
    Ok(place)
}

// The lines of the workers from w on, of which the first has the number `line`. The shares of those before w are kept.
#[tactic(auto, using(crate::proofs::ShareLaws::share_cases))]
pub fn read_shares(
    text: &[u8],
    at: usize,
    workers: u32,
    w: u32,
    line: u32,
    counts: [u32; 8],
    before: [Share; 8],
) -> Result<Shares, BadLine>
    requires { Sharing workers w line counts }
    ensures { starts_told workers result ≡ onto (take w before) (starts_at text.now (drop w (take workers counts)) line at) }
{
    let mut shares = before;
    let mut place = at;
    let mut first = line;
    for n in w..workers {
        let count = counts[n as usize];
        shares[n as usize] = Share {
            start: place,
            count,
        };
        place = skip(text, place, count, first)?;
        first += count;
    }
    Ok(Shares {
        next: place,
        shares,
    })
}
