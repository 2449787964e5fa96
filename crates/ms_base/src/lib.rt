//! The outside of the program: where bytes come from and where they go, with small values for all crates.
#![tactic(auto)]

pub mod bytes;
pub mod fields;
pub mod gate;
pub mod items;
pub mod limits;
pub mod memory;
pub mod names;
pub mod outside;
pub mod script;
pub mod standard;
pub mod streams;
pub mod text;

pub use bytes::{Bytes, NoMemory};
pub use gate::{FreeGate, Gate, Point};
pub use items::Items;
pub use memory::{InputText, MemoryInputs, VecSink, VecSource};
pub use names::{ClientId, Name, Quantity, ServiceId};
pub use outside::{Failed, Inputs, MOST_INPUT, OutsideError, ReadError, Sink, Source};
pub use script::Script;
pub use standard::{StdSink, StdSource};
pub use streams::{read_all, write_all};
pub use text::Text;

#[cfg(test)]
mod tests;
