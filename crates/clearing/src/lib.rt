// A fresh catalogue in lent memory, and the call that makes one.
#![tactic(auto)]

pub mod fresh;
