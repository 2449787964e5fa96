//! The protocol as a pure machine: a world of services and clients, its events, and what holds in every run.
#![tactic(auto)]

mod behind;
mod bids;
mod chain;
mod chosen;
pub mod client;
pub mod event;
mod front;
mod happen;
pub mod law;
mod offers;
mod placing;
mod puts;
mod reached;
pub mod reaching;
pub mod rule;
mod service;
pub mod shown;
mod state;
pub mod world;

pub use client::{Bidding, Request};
pub use event::{Event, Push};
pub use rule::Ruling;
pub use world::World;

#[cfg(test)]
mod world_tests;
