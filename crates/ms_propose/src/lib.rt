//! Bids at a desk: proposing an entry, and settling what others left.
#![tactic(auto)]

mod acts;
mod bids;
mod catching;
mod proposal;

pub use catching::catch_up;
pub use proposal::{Decided, propose};
