//! Merges of files by single paths.
#![tactic(auto)]

pub mod law;
mod limits;
pub mod merging;
mod naming;
mod sides;

pub use law::merge_exists;
pub use merging::{ByPath, merge};

#[cfg(test)]
mod tests;
