// Chains: the rows of a diagram's tables, and look-ups in them.
#![tactic(auto)]

pub mod laws;
pub mod probe;
