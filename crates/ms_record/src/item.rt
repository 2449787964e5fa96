//! What the owners of a board tell.

use crate::log::LogEvent;
use crate::record::Record;
use crate::setting::Setting;

/// One item of an owner's list on a board (`docs/PROTOCOL.md`, the board of passes).
#[derive(Drop)]
pub enum Item {
    /// A service: one event more of its log.
    Log { event: LogEvent },
    /// A client: an offer that it declared, which is an `Accept`.
    Offer { offer: Record },
    /// The configuration: what all clients agree on from the start.
    Told { setting: Setting },
    /// The configuration: nothing is claimed of what the others tell.
    Untold,
}
