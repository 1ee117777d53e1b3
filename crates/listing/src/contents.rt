// The first line of a result: how many replies, live vertices and ADDED edges there are.
ghost use Rattle.std.specs.Prelude.{◌≡◌, [], ◌∷◌, ◌+◌, ◌≤◌, pos, length};
ghost use Rattle.catalogue.specs.Listing.{added_edges};
ghost use Rattle.catalogue.specs.Live.{live_vertices};
ghost use Rattle.catalogue.specs.Text.{line};
ghost use Rattle.survey.specs.Walks.{linked};
ghost use Rattle.text.specs.Puts.{put_at};

use crate::body::counts;
use memory::Words;
use text::lines::put_three;

pub fn put_contents(words: &Words, output: &mut [u8], at: usize, replies: u32) -> usize
    requires { at + 36 ≤ length output.old }
    ensures output_after { output.new ≡ put_at output.old at (line (pos replies ∷ (pos (length (live_vertices (linked words.now))) ∷ (pos (length (added_edges (linked words.now))) ∷ [])))) }
    ensures value { result ≡ at + length (line (pos replies ∷ (pos (length (live_vertices (linked words.now))) ∷ (pos (length (added_edges (linked words.now))) ∷ [])))) }
    ensures upper_bound { result ≤ at + 36 }
{
    let counted = counts(words);
    let vertices = counted.vertices as u32;
    let edges = counted.edges as u32;
    put_three(output, at, replies, vertices, edges)
}
