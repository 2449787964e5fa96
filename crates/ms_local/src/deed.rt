//! The outside calls of a command, each with its answer.

use ms_base::{Bytes, Items, Name, ServiceId};
use ms_record::{ListId, Record, Sight};

/// What is appended to a list.
#[derive(Drop)]
pub enum Message {
    Vote { message: Record },
    Ref { text: Bytes },
}

/// One outside call of a command with its answer, or the beginning of a line of a script, counted from 1.
///
/// `ok` is false exactly where the call answered `Failed` or `Stale`, and `floor` is that of a `Stale` answer. There `present` is
/// false, `found` is None, `count` is 0, and the sight shows nothing. A call that answers `NoMemory` leaves no deed.
#[derive(Drop)]
pub enum Deed {
    Begun {
        line: u32,
    },
    /// A call on the keeper that has no deed of its own failed.
    KeepFailed,
    /// The round of a bid was kept.
    Kept {
        round: u32,
        ok: bool,
    },
    StateKept {
        ok: bool,
    },
    Appended {
        service: ServiceId,
        list: ListId,
        message: Message,
        ok: bool,
    },
    /// An offer was told on the board.
    Declared {
        offer: Record,
    },
    /// A vote list was read for a bid.
    Looked {
        service: ServiceId,
        sight: Sight,
        ok: bool,
    },
    /// So many texts of a list came, from a place on.
    Listed {
        service: ServiceId,
        list: ListId,
        from: u64,
        count: u64,
        ok: bool,
    },
    Asked {
        service: ServiceId,
        generation: u32,
        name: Name,
        present: bool,
        ok: bool,
        floor: Option<u32>,
    },
    Put {
        service: ServiceId,
        generation: u32,
        name: Name,
        ok: bool,
        floor: Option<u32>,
    },
    /// `found` is the SHA-256 of the bytes that came.
    Got {
        service: ServiceId,
        generation: u32,
        name: Name,
        found: Option<Name>,
        ok: bool,
        floor: Option<u32>,
    },
    Dropped {
        service: ServiceId,
        generation: u32,
        ok: bool,
    },
    Scanned {
        ok: bool,
    },
    Wrote {
        path: Bytes,
        ok: bool,
    },
    Removed {
        path: Bytes,
        ok: bool,
    },
}

/// What was done, in order.
pub type Deeds = Items<Deed>;
