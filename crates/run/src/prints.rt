// The result, written at the start of the output.
ghost use Rattle.std.specs.Prelude.{◌≡◌, length};
ghost use Rattle.catalogue.specs.Listing.{written};
ghost use Rattle.run.specs.Prints.{Printable, printed};

use listing::body::list_body;
use listing::contents::put_contents;
use memory::Lent;
use text::puts::put_bytes;

pub fn print(lent: Lent, output: &mut [u8], replies: u32, lines: &[u8]) -> u32
    requires { Printable lent.keys.now lent.words.now output.old lines.now }
    ensures value { result ≡ length (printed lent.entry.keys.now lent.entry.words.now replies lines.now) }
    ensures output_after { output.new ≡ written (printed lent.entry.keys.now lent.entry.words.now replies lines.now) output.old }
{
    let told = put_contents(lent.words, output, 0, replies);
    let body = put_bytes(output, told, lines);
    let end = list_body(lent, output, body);
    end as u32
}
