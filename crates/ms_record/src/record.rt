//! The records of vote lists.

ghost use Rattle.std.specs.Prelude.{◌≡◌, ℕ, List, Some, IfSome};
ghost use Rattle.ms_record.specs.declared.record.Record.{Record};
ghost use Rattle.ms_base.specs.Fields.{IsBytes};
ghost use Rattle.ms_record.specs.Records.{IsRecord, record_text};
ghost use Rattle.ms_record.specs.Reading.{record_at};
ghost use Rattle.ms_record.specs.Votes.{position_of, ballot_of};

use crate::ballot::Ballot;
use crate::entry::Entry;
use crate::reading::read_record;
use ms_base::fields::{fields_are_spelled, spelled_fields_are_read};

/// One record of a vote list: what a bidder asks a service, as an acceptor, to promise or to accept.
///
/// Positions are 1 to 4,294,967,294.
#[derive(Clone, Copy, Debug, PartialEq, Eq)]
pub enum Record {
    Prepare {
        position: u32,
        ballot: Ballot,
    },
    Accept {
        position: u32,
        ballot: Ballot,
        entry: Entry,
    },
}

impl Record {
    pub fn position(&self) -> u32
        ensures { result ≡ position_of self.now }
    {
        match self {
            Record::Prepare { position, .. } => *position,
            Record::Accept { position, .. } => *position,
        }
    }

    pub fn ballot(&self) -> Ballot
        ensures { result ≡ ballot_of self.now }
    {
        match self {
            Record::Prepare { ballot, .. } => *ballot,
            Record::Accept { ballot, .. } => *ballot,
        }
    }
}

/// The record that the text is: `docs/FORMATS.md`, records.
pub fn parse_record(text: &[u8]) -> Option<Record>
    // What is read is spelled so.
    ensures found { IfSome result (λ r. IsRecord r × (text.now ≡ record_text r)) }
    // What is spelled so is read.
    ensures only { (r : Record) → IsRecord r → text.now ≡ record_text r → result ≡ Some r }
    ensures exact { result ≡ record_at text.now }
{
    fields_are_spelled();
    spelled_fields_are_read();
    read_record(text)
}

/// A record has one spelling, and that is read.
pub fn one_spelling()
    ensures read { (text : List ℕ) (r : Record) → IsBytes text → record_at text ≡ Some r → IsRecord r × (text ≡ record_text r) }
    ensures again { (r : Record) → IsRecord r → record_at (record_text r) ≡ Some r }
{
    fields_are_spelled();
    spelled_fields_are_read();
}
