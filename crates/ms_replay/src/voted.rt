//! Votes that were taken.

ghost use Rattle.std.specs.Prelude.{◌≡◌, Some, IsTrue, ◌↔◌};
ghost use Rattle.ms_record.specs.declared.record.Record.TheVariants as records;
ghost use Rattle.ms_record.specs.Reading.{record_at};
ghost use Rattle.ms_replay.specs.Tallies.{IsVote, vote_cmp};

use ms_base::Bytes;
use ms_record::{Ballot, Entry, Record, Vote, parse_record};
use std::cmp::Ordering;

/// An Accept that a service has taken.
#[derive(Drop)]
pub struct Voted {
    pub position: u32,
    pub ballot: Ballot,
    /// The bytes of the record.
    pub text: Bytes,
    pub service: u32,
}

impl Voted {
    /// By position, then ballot, then the bytes of the record.
    pub fn order(&self, other: &Voted) -> Ordering
        ensures { result ≡ vote_cmp self.now other.now }
    {
        self.position
            .cmp(&other.position)
            .then_with(|| self.ballot.round.cmp(&other.ballot.round))
            .then_with(|| self.ballot.client.0.cmp(&other.ballot.client.0))
            .then_with(|| self.text.as_slice().cmp(other.text.as_slice()))
    }

    /// Whether the two are votes for one record.
    pub fn has_text_of(&self, other: &Voted) -> bool
        ensures { IsTrue result ↔ (self.now.text ≡ other.now.text) }
    {
        self.text.as_slice() == other.text.as_slice()
    }

    /// The entry that was voted for.
    pub fn entry(&self) -> Entry
        requires { IsVote self.now }
        ensures { record_at self.now.text ≡ Some (records.Accept self.now.position self.now.ballot result) }
    {
        match parse_record(self.text.as_slice()) {
            Some(Record::Accept { entry, .. }) => entry,
            _ => unreachable!(),
        }
    }

    pub fn vote(&self) -> Vote
        requires { IsVote self.now }
        ensures ballot { result.ballot ≡ self.now.ballot }
        ensures entry { record_at self.now.text ≡ Some (records.Accept self.now.position self.now.ballot result.entry) }
    {
        Vote {
            ballot: self.ballot,
            entry: self.entry(),
        }
    }
}
