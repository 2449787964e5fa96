//! The text of a drill: a head, and an event a line.
#![tactic(auto)]

pub mod drill;
mod event;
mod head;
pub mod law;

pub use drill::{Drill, Events, read_drill};
pub use head::Head;
