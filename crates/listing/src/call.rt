// The call of a host: the text of a lent catalogue, written at the start of a lent output.
ghost use Rattle.std.specs.Prelude.{◌≡◌, ◌≤◌, length};
ghost use Rattle.catalogue.specs.Lent.{memory_of};
ghost use Rattle.catalogue.specs.Listing.{list_into};
ghost use Rattle.listing.specs.Promised.{Lists};
ghost use Rattle.memory.specs.Memories.{held};

use crate::body::list_body;
use crate::contents::put_contents;
use catalogue::answers::Refusal;
use memory::Lent;
use memory::checks::lend;
use survey::soundness::sound;

// How long an output has to be at least; the listing of a sound catalogue never needs more.
pub const OUTPUT_SIZE: usize = 65536;

// An unsound catalogue is refused before a byte is written.
#[tactic(auto, using(crate::proofs::Results::result_cases))]
fn list_into(lent: Lent, output: &mut [u8]) -> Result<u32, Refusal>
    requires { 65536 ≤ length output.old }
    ensures value { result ≡ (list_into (held lent.entry) output.old).answer }
    ensures output_after { output.new ≡ (list_into (held lent.entry) output.old).output }
{
    if !sound(lent, false) {
        return Err(Refusal::Torn);
    }
    let start = put_contents(lent.words, output, 0, 0);
    let end = list_body(lent, output, start);
    Ok(end as u32)
}

#[tactic(auto, using(memory::proofs::Sizes::sizes), unfolding(catalogue::specs::Lent::lent_listing, catalogue::specs::Lent::output_fits))]
pub fn listing(keys: &[i32], words: &[u32], output: &mut [u8]) -> Result<u32, Refusal>
    ensures { Lists (memory_of keys.now words.now) output.old result output.new }
{
    let lent = lend(keys, words)?;
    if output.len() < OUTPUT_SIZE {
        return Err(Refusal::Room);
    }
    list_into(lent, output)
}
