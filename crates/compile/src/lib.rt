// From a rule list to its reduced diagram and the rows of its chain.
#![tactic(auto)]

pub mod blocks;
pub mod build;
pub mod caches;
pub mod calls;
pub mod chains;
pub mod gaps;
pub mod levels;
pub mod lives;
pub mod places;
pub mod refusals;
pub mod rows;
pub mod sets;
pub mod tables;
pub mod vectors;
