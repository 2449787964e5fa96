//! The configuration that all clients share, and in which order the services of a plan are to hold an object.
#![tactic(auto)]

pub mod config;
mod config_line;
mod draft;
pub mod table;

pub use config::{Config, config_laws, read_config};
pub use table::{Table, orders_are_sorted, stability};

#[cfg(test)]
mod config_tests;
#[cfg(test)]
mod table_tests;
