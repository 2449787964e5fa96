//! What a client keeps of the chain: its members, and what it has read of the vote lists.
#![tactic(auto)]

mod chain;
mod heard;
mod learning;
mod line;
mod refs;
mod split;

pub use chain::Chain;
pub use refs::{read_ref, write_ref};
