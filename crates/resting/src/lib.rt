// No code: what a sweep keeps, stated in specs/Kept.antt and proved in proofs/ over the definitions alone.
#![tactic(auto)]
