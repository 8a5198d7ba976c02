// Match stores: rows of a key and a result, found by key.
#![tactic(auto)]

pub mod flat;
pub mod row;
#[cfg(test)]
mod tests;
pub mod traits;
