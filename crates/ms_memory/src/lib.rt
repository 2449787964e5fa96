//! Services in memory behind locks, and the links to them.
#![tactic(auto)]

mod link;
mod lists;
mod service;
mod shelf;
mod state;
mod store;

pub use link::{MemoryLink, never_fails};
pub use service::MemoryService;
pub use state::ServiceState;

#[cfg(test)]
mod tests;
