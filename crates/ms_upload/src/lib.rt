//! Placing objects: each is put on as many services as its plan has replicas, in the order of the mapping.
#![tactic(auto)]

mod law;
mod placing;
mod store;
mod tally;
mod visit;

pub use law::placings;
pub use store::{Placed, place};
pub use visit::Met;
