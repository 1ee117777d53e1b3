// A machine of plain lists: its world, the steps of its workers, its invariants, hindsight, and the row of the
// answered calls. There is nothing to run here; specs/Lib.antt and proofs/Lib.antt name the layers,
// and the crate `promises` rests on them.
#![tactic(auto)]
