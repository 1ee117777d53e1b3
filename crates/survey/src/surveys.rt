// What the tests of edges read.
ghost use Rattle.survey.specs.Walks.{Ready};

use memory::Lent;

// A lent catalogue, the vertices on its walk, and whether a sweep asks.
#[derive(Clone, Copy)]
pub struct Survey<'a> {
    pub lent: Lent<'a>,
    pub met: [u64; 4],
    pub sweep: bool,
    ghost ready: { Ready lent.keys.now lent.words.now met },
}
