// The card: rule chains in a match store, and look-ups that walk them.
#![tactic(auto)]

pub mod boxes;
pub mod cards;
pub mod events;
pub mod refusals;
pub mod runs;
pub mod states;
#[cfg(test)]
mod tests;
pub mod tickets;
