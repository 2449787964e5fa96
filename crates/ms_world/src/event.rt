//! The events of a world.

use ms_base::{Bytes, ClientId, Name, ServiceId};
use ms_record::Plan;

/// What a client wants to push: its own count, and the version of the folder.
#[derive(Clone, Copy, Debug, PartialEq, Eq)]
pub struct Push {
    pub number: u32,
    pub version: Name,
}

/// One event of a world: `docs/FORMATS.md`, drill.
#[derive(Drop)]
pub enum Event {
    /// The client goes on with what it kept.
    Start {
        client: ClientId,
    },
    /// The client stops; what it kept stays.
    Stop {
        client: ClientId,
    },
    /// The client bids for the position behind its chain, with a push of its own or to settle it.
    Bid {
        client: ClientId,
        round: u32,
        want: Option<Push>,
    },
    /// The client bids for the position behind its chain with a plan.
    Turn {
        client: ClientId,
        round: u32,
        number: u32,
        plan: Plan,
    },
    /// The client bids for the position behind its chain with the plan in force in format 2, and a version in that format.
    Migrate {
        client: ClientId,
        round: u32,
        number: u32,
        version: Name,
    },
    /// A request reaches its service: once, again, or late.
    Deliver {
        request: u64,
    },
    /// The client reads a log up to so many events.
    Read {
        client: ClientId,
        service: ServiceId,
        upto: u64,
    },
    /// The client offers what the promises that it read allow.
    Offer {
        client: ClientId,
    },
    /// The client's chain gains the entry that it read to be chosen.
    Learn {
        client: ClientId,
    },
    /// A service keeps an object.
    Place {
        service: ServiceId,
        generation: u32,
        text: Bytes,
    },
    /// A service drops the generations below the floor.
    DropBelow {
        service: ServiceId,
        floor: u32,
    },
}
