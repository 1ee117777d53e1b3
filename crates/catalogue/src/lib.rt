// The declared types that the definitions of document 01 speak of.
// The definitions stand in specs/, in the document's order.
#![tactic(auto)]

pub mod answers;
pub mod links;
pub mod script;
pub mod steps;
pub mod workers;
pub mod writes;
