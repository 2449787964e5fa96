//! One bid as a machine of acts and answers: the caller acts, the machine says what is to be done next.
#![tactic(auto)]

pub mod act;
pub mod bid;
pub mod flags;
mod judging;
pub mod law;
mod offer;
pub mod proposer;
pub mod sight;

pub use act::{Act, Answer, Outcome, WrongAnswer};
pub use bid::Bid;
pub use flags::Flags;
pub use proposer::Proposer;
pub use sight::Sights;

#[cfg(test)]
mod tests;
