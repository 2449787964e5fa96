//! The numbers of tries.

ghost use Rattle.std.specs.Prelude.{◌≡◌, ◌↔◌, IsTrue};
ghost use Rattle.ms_record.specs.Ballots.{IsBelow};

use crate::entry::Entry;
use ms_base::ClientId;

/// The number of one try: a round, from 1 to 4,294,967,294, and the client that tries.
#[derive(Clone, Copy, Debug, PartialEq, Eq)]
pub struct Ballot {
    pub round: u32,
    pub client: ClientId,
}

impl Ballot {
    /// Whether this ballot is below the other: by round, then by client.
    pub fn is_below(self, other: Ballot) -> bool
        ensures { IsTrue result ↔ IsBelow self other }
    {
        self.round < other.round || (self.round == other.round && self.client.0 < other.client.0)
    }
}

/// An Accept that was taken: its ballot and its entry.
#[derive(Clone, Copy, Debug, PartialEq, Eq)]
pub struct Vote {
    pub ballot: Ballot,
    pub entry: Entry,
}
