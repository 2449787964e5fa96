//! What happens to a service: the events of its log.

use ms_base::{Bytes, Name};

/// The number of an append-only list of a service: 0 has the votes, 1 + c the refs of client c.
#[derive(Clone, Copy, Debug, PartialEq, Eq)]
pub struct ListId(pub u32);

/// One event of a service's log.
#[derive(Drop)]
pub enum LogEvent {
    /// A text is appended to a list.
    Rec {
        list: ListId,
        text: Bytes,
    },
    /// An object is kept under its name in a generation.
    Put {
        generation: u32,
        name: Name,
        text: Bytes,
    },
    /// All generations below the floor are dropped.
    Drop {
        floor: u32,
    },
}
