// The walks of a listing: all that the head leads to, with the fuel of the whole pool.
ghost use Rattle.std.specs.Prelude.{◌≡◌, ◌++◌, ◌+◌, ◌*◌, ◌≤◌, length};
ghost use Rattle.catalogue.specs.Listing.{vertex_lines, edge_lines, added_edges};
ghost use Rattle.catalogue.specs.Live.{live_vertices, live_edges};
ghost use Rattle.catalogue.specs.Text.{lines};
ghost use Rattle.survey.specs.Walks.{linked};
ghost use Rattle.text.specs.Puts.{put_at};
ghost use Rattle.memory.specs.Memories.{held};

use crate::walks::{Counted, count_contents, list_edges, list_vertices};
use memory::{Lent, Words};
use survey::tests::next_vertex;

pub fn counts(words: &Words) -> Counted
    ensures vertices_value { result.vertices ≡ length (live_vertices (linked words.now)) }
    ensures edges_value { result.edges ≡ length (added_edges (linked words.now)) }
{
    let first = next_vertex(words, 0);
    count_contents(words, first, 256)
}

pub fn list_body(lent: Lent, output: &mut [u8], at: usize) -> usize
    requires { at + 3072 + 24 * length (live_edges (linked lent.words.now)) ≤ length output.old }
    ensures output_after { output.new ≡ put_at output.old at (lines (vertex_lines (held lent.entry) ++ edge_lines (held lent.entry))) }
    ensures value { result ≡ at + length (lines (vertex_lines (held lent.entry) ++ edge_lines (held lent.entry))) }
    ensures upper_bound { result ≤ at + 3072 + 24 * length (live_edges (linked lent.entry.words.now)) }
{
    let first = next_vertex(lent.words, 0);
    let end = list_vertices(lent, output, at, first, 256);
    list_edges(lent, output, end, first, 256)
}
