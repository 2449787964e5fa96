//! Fetching objects: services are asked in an order, and bytes are handed out under their own name alone.
#![tactic(auto)]

mod ask;
mod asked;
mod object;

pub use ask::Lack;
pub use object::fetch_object;
