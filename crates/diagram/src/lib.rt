// Reduced decision diagrams over the fields of a header, and what is proved of them.
#![tactic(auto)]

pub mod edges;
pub mod laws;
