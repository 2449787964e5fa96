//! The board of passes: one list for each owner, of which each pass knows a beginning. The lists
//! exist in proofs alone (`docs/PROTOCOL.md`).
#![tactic(auto)]

mod board;
mod board_rule;
mod closed;
mod kinds;
mod law;
mod naming;
mod pass;
mod steps;
mod view;

pub use board::Board;
pub use closed::Closed;
pub use law::rule;
pub use naming::Naming;
pub use pass::Pass;

#[cfg(test)]
mod tests;
