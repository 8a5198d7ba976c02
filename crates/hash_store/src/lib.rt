// A match store that finds rows by hashing their keys.
#![tactic(auto)]

pub mod hash;
mod homes;
mod probe;
mod shift;
#[cfg(test)]
mod tests;
