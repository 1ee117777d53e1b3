// Laws of the definitions of document 01, which the proofs of several crates rest on.
// There is nothing to run here; proofs/Lib.antt names the laws.
#![tactic(auto)]
