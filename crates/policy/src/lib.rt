// Rules, headers and decisions.
#![tactic(auto)]

pub mod fields;
pub mod kinds;
pub mod plain;
pub mod reasons;
pub mod refusals;
pub mod rules;
pub mod shapes;
#[cfg(test)]
mod tests;
pub mod verdict;
pub mod words;
pub mod worked;
