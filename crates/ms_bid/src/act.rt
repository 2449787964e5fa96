//! What a bidder does, and what comes of it.

use crate::flags::Flags;
use ms_base::ServiceId;
use ms_record::{Ballot, Entry, Record, Sight};

/// How a bid ends: `docs/PROTOCOL.md`, bids.
#[derive(Clone, Copy, Debug)]
pub enum Outcome {
    /// A majority of the voters has taken the offer of this entry.
    Decided { entry: Entry },
    /// A settling bid has nothing to settle.
    Nothing,
    /// This is the least voter that showed a greater ballot.
    Outbid { service: ServiceId, top: Ballot },
    /// The calls to half of the voters failed, or to more.
    NoMajority { failed: Flags },
    /// This is the least voter that was sent the message and does not show it.
    Unlisted { service: ServiceId },
    /// The round was not kept.
    KeepFault,
}

/// What a bidder does next.
#[derive(Clone, Copy, Debug)]
pub enum Act {
    /// Keeps this round, so that no later bid is of it or below it.
    Keep { round: u32 },
    /// Appends the message to the vote list of the service.
    Send { service: ServiceId, message: Record },
    /// Reads the vote list of the service.
    Look { service: ServiceId },
    /// Puts the offer into the client's own list.
    Declare { offer: Record },
    /// Nothing is left to do.
    End { outcome: Outcome },
}

/// What came of it.
#[derive(Clone, Copy, Debug)]
pub enum Answer {
    Kept,
    Sent,
    Seen { sight: Sight },
    Declared,
    /// The call failed. Of an append it is not known whether it was done.
    Failed,
}

/// The answer is none to the pending act.
#[derive(Clone, Copy, Debug, PartialEq, Eq)]
pub struct WrongAnswer;
