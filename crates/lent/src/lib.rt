// No code: what the calls do on lent memory is what the definitions do on catalogues.
#![tactic(auto)]
