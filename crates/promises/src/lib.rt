// What the user was promised of every run, stated in specs/Promises.antt
// and proved in proofs/ over the definitions that the code's contracts cite.
#![tactic(auto)]
