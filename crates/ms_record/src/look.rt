//! A look at a vote list, record by record: what it shows of a bid.

ghost use Rattle.std.specs.Prelude.{◌≡◌, ◌↔◌, ℕ, List, ◌++◌, ◌∷◌, [], IfSome, IsTrue};
ghost use Rattle.ms_record.specs.declared.ballot.Ballot.{Ballot};
ghost use Rattle.ms_record.specs.declared.record.Record.{Record};
ghost use Rattle.ms_record.specs.Reading.{record_at, with_record};
ghost use Rattle.ms_record.specs.Records.{IsRecord};
ghost use Rattle.ms_record.specs.Sights.{IsSight};
ghost use Rattle.ms_record.specs.Looks.{HasShown, IsOfBid, after_verdict, with_promise};

use crate::acceptor::{Acceptor, Verdict};
use crate::ballot::{Ballot, Vote};
use crate::record::{Record, parse_record};
use crate::sight::Sight;

/// What the records that were read so far show of the bid of a ballot.
#[derive(Clone, Copy)]
pub struct Look {
    pub ballot: Ballot,
    pub acceptor: Acceptor,
    pub promised: bool,
    /// The Best before the first promised Prepare of the ballot.
    pub best: Option<Vote>,
    pub taken: bool,
}

impl Look {
    /// Nothing was read.
    pub fn at(position: u32, ballot: Ballot) -> Look
        ensures bid { IsOfBid position ballot result }
        ensures start { HasShown [] result }
    {
        Look {
            ballot,
            acceptor: Acceptor::at(position),
            promised: false,
            best: None,
            taken: false,
        }
    }

    /// Goes on by one record.
    pub fn feed(&mut self, message: &Record)
        ensures bid { (position : ℕ) (ballot : Ballot) → IsOfBid position ballot self.old → IsOfBid position ballot self.new }
        ensures goes_on { (records : List Record) → HasShown records self.old → HasShown (records ++ message.now ∷ []) self.new }
    {
        let verdict = self.acceptor.feed(message);
        if is_one(message.ballot(), self.ballot) {
            self.note(verdict);
        }
    }

    /// Notes what a record of the ballot counts as.
    fn note(&mut self, verdict: Verdict)
        ensures { self.new ≡ after_verdict self.old verdict }
    {
        match verdict {
            Verdict::Promised { best } => self.note_promise(best),
            Verdict::Taken => self.taken = true,
            Verdict::Outbid { .. } => {}
            Verdict::Elsewhere => {}
        }
    }

    /// Notes a promised Prepare of the ballot, the first of which tells the Best.
    fn note_promise(&mut self, best: Option<Vote>)
        ensures { self.new ≡ with_promise self.old best }
    {
        if !self.promised {
            self.best = best;
        }
        self.promised = true;
    }

    /// Goes on by a text; one that is no record is skipped.
    pub fn feed_text(&mut self, text: &[u8])
        ensures bid { (position : ℕ) (ballot : Ballot) → IsOfBid position ballot self.old → IsOfBid position ballot self.new }
        ensures goes_on { (records : List Record) → HasShown records self.old → HasShown (records ++ with_record (record_at text.now) []) self.new }
        ensures ranges { IfSome (record_at text.now) IsRecord }
    {
        if let Some(message) = parse_record(text) {
            self.feed(&message);
        }
    }

    /// What was shown.
    pub fn sight(&self) -> Sight
        ensures { (records : List Record) → HasShown records self.now → IsSight records self.now.acceptor.position self.now.ballot result }
    {
        Sight {
            promised: self.promised,
            best: self.best,
            taken: self.taken,
            top: self.acceptor.top,
        }
    }
}

/// Whether the two are one ballot.
fn is_one(one: Ballot, other: Ballot) -> bool
    ensures { IsTrue result ↔ (one ≡ other) }
{
    one == other
}
