//! The way from a client to a service.
#![tactic(auto)]

pub mod client;
mod fault;
pub mod law;
mod link;

pub use fault::LinkError;
pub use link::{Link, Texts};

#[cfg(test)]
mod tests;
