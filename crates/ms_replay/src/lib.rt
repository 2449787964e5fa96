//! What the vote lists of services say: promises, votes, chosen entries, dumps and their chains.
#![tactic(auto)]

pub mod audit;
pub mod dump;
pub mod law;
pub mod looking;
mod place;
mod places;
mod standing;
mod tally;
mod undo;
mod voted;

pub use audit::{Audit, audit_dump};
pub use dump::{Dump, Lists, read_dump};
pub use law::{lines_are_spelled, one_audit, one_standing};
pub use looking::sight;
pub use standing::Standing;
pub use tally::Tally;

#[cfg(test)]
mod audit_tests;
#[cfg(test)]
mod dump_tests;
#[cfg(test)]
mod looking_tests;
#[cfg(test)]
mod tally_tests;
#[cfg(test)]
mod test_texts;
