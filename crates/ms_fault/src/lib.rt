//! Links that lose, delay, repeat, alter and forget by a script.
#![tactic(auto)]

mod altering;
mod calls;
mod change;
mod fault;
mod late;
mod link;

pub use fault::Fault;
pub use link::FaultLink;

#[cfg(test)]
mod tests;
