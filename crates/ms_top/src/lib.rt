//! The calls of the program, each over any inputs and any sink: `docs/FORMATS.md`, commands and reports.
#![tactic(auto)]

mod audits;
mod drills;
mod hashes;
pub mod house;
mod input;
pub mod law;
mod tell;
pub mod top;

pub use house::FolderHouse;
pub use law::one_answer;
pub use top::{audit, drill, hash_listing, run};

#[cfg(test)]
mod drill_tests;
#[cfg(test)]
mod tests;
