// Service classes, a kind of decision: which queue a packet joins, and how readily it is dropped there.
#![tactic(auto)]

pub mod classes;
pub mod kind;
#[cfg(test)]
mod tests;
