//! Why a call gave no answer.

ghost use Rattle.std.specs.Prelude.{◌≡◌};
ghost use Rattle.ms_record.specs.declared.refusal.Refusal.TheVariants as refusals;

use crate::ballot::Ballot;
use crate::key::Key;
use crate::services::ServiceSet;
use ms_base::{Items, Name, NoMemory, Quantity, ServiceId};
use std::alloc::{AllocError, AllocFailed};

/// Where a fault or a wrong line is.
#[derive(Clone, Copy, Debug, PartialEq, Eq)]
pub enum Place {
    Config,
    Input,
    Desk,
    Work,
    Keep,
}

/// The condition of an event that fails: `docs/FORMATS.md`, drill.
#[derive(Clone, Copy, Debug, PartialEq, Eq)]
pub enum Why {
    Client,
    On,
    Off,
    Position,
    Round,
    Placed,
    Plan,
    Request,
    Service,
    Prefix,
    Bid,
    Promises,
    Nothing,
    Chosen,
    Generation,
    Turned,
}

/// A greater ballot than a bid's, and the service that showed it.
#[derive(Clone, Copy)]
pub struct Rival {
    pub service: ServiceId,
    pub top: Ballot,
}

/// What outbid the bids of one call, in their order.
pub type Rivals = Items<Rival>;

/// Why a service did not give the bytes of an object.
#[derive(Clone, Copy)]
pub enum Reason {
    /// Its call failed.
    Failed,
    /// It said that it has no such object.
    Absent,
    /// It gave bytes whose SHA-256 is this one, which is not the object's name.
    Altered { found: Name },
}

/// A service, and why it did not give an object's bytes.
#[derive(Clone, Copy)]
pub struct ReasonRow {
    pub service: ServiceId,
    pub reason: Reason,
}

/// Why each service did not give an object's bytes, in the order in which they were asked.
pub type Reasons = Items<ReasonRow>;

/// Why a call gave no answer. `docs/FORMATS.md` has the statuses and the texts.
#[derive(Drop)]
pub enum Refusal {
    /// The words are outside the grammar of commands.
    Usage,
    /// The first wrong line of a text, counted from 1.
    BadInput {
        place: Place,
        line: u32,
    },
    /// The outside failed there: a count of faults rose.
    OutsideFault {
        place: Place,
    },
    /// Of the voters of a position half or more are among these services, whose calls failed.
    NoMajority {
        failed: ServiceSet,
    },
    /// Each of the bids of a call was outbid.
    Contended {
        rivals: Rivals,
    },
    /// No service gave the bytes of the object of this name.
    LostObject {
        name: Name,
        reasons: Reasons,
    },
    /// Memory ran out.
    NoMemory,
    /// What is kept under the key is absent, or is not what it has to be.
    LocalDamaged {
        key: Key,
    },
    /// Two entries of these names are chosen at the position.
    Split {
        position: u32,
        first: Name,
        second: Name,
    },
    /// A quantity has this value, which passes its limit.
    Limit {
        what: Quantity,
        value: u64,
    },
    /// A service has dropped all objects of generations below this floor.
    Collected {
        floor: u32,
    },
    /// Fewer services than the plan's replicas accepted the object of this name; the calls to these failed.
    TooFew {
        name: Name,
        failed: ServiceSet,
    },
    /// That condition of the event with this number, from 1, fails.
    NotEnabled {
        event: u64,
        why: Why,
    },
    /// A service took a message of this ballot, and its list does not show it.
    Unlisted {
        service: ServiceId,
        ballot: Ballot,
    },
    /// The bytes of this name are no object of the kind that names them.
    Broken {
        name: Name,
    },
}

impl From<NoMemory> for Refusal {
    ghost from_gives = { λ _ e. e ≡ refusals.NoMemory };

    fn from(_error: NoMemory) -> Refusal {
        Refusal::NoMemory
    }
}

impl From<AllocError> for Refusal {
    ghost from_gives = { λ _ e. e ≡ refusals.NoMemory };

    fn from(_error: AllocError) -> Refusal {
        Refusal::NoMemory
    }
}

impl<T: Drop> From<AllocFailed<T>> for Refusal {
    ghost from_gives = { λ _ e. e ≡ refusals.NoMemory };

    fn from(_error: AllocFailed<T>) -> Refusal {
        Refusal::NoMemory
    }
}

/// The refusal of a text at its first wrong line, counted from 1.
pub fn wrong_line(place: Place, line: u32) -> Refusal
    ensures { result ≡ refusals.BadInput place line }
{
    Refusal::BadInput { place, line }
}
