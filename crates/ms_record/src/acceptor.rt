//! The acceptor rule of one position.

ghost use Rattle.std.specs.Prelude.{◌≡◌, ℕ, List, [], ◌∷◌, ◌++◌, Some, IfSome, IfNone, true, false};
ghost use Rattle.ms_record.specs.declared.ballot.Ballot.{Ballot};
ghost use Rattle.ms_record.specs.declared.record.Record.{Record};
ghost use Rattle.ms_record.specs.Ballots.{IsBelow, IsAtMost};
ghost use Rattle.ms_record.specs.Acceptors.{IsAcceptorOf, IsVerdict};

use crate::ballot::{Ballot, Vote};
use crate::record::Record;

/// What a record counts as for the acceptor of one position.
#[derive(Clone, Copy, Debug, PartialEq, Eq)]
pub enum Verdict {
    /// A Prepare that is promised; `best` is the taken Accept of greatest ballot before it, the last of several.
    Promised { best: Option<Vote> },
    /// An Accept that is taken.
    Taken,
    /// A greater ballot stands before it; `top` is the greatest.
    Outbid { top: Ballot },
    /// It is of another position.
    Elsewhere,
}

/// The acceptor of one position, and what it keeps of the records that it was fed.
#[derive(Clone, Copy, Debug, PartialEq, Eq)]
pub struct Acceptor {
    pub position: u32,
    /// The greatest ballot at the position.
    pub top: Option<Ballot>,
    /// The taken Accept of greatest ballot, the last of several.
    pub best: Option<Vote>,
}

impl Acceptor {
    /// The acceptor of a position, which was fed nothing.
    pub fn at(position: u32) -> Acceptor
        ensures position { result.position ≡ position }
        ensures start { IsAcceptorOf [] result }
    {
        Acceptor {
            position,
            top: None,
            best: None,
        }
    }

    /// Goes on by one record.
    pub fn feed(&mut self, message: &Record) -> Verdict
        ensures position { self.new.position ≡ self.old.position }
        // What has read these records has then read those and one more.
        ensures goes_on { (records : List Record) → IsAcceptorOf records self.old
            → IsAcceptorOf (records ++ message.now ∷ []) self.new }
        ensures verdict { (records : List Record) → IsAcceptorOf records self.old
            → IsVerdict records message.now self.old.position result }
    {
        if message.position() != self.position {
            return Verdict::Elsewhere;
        }
        let ballot = message.ballot();
        if let Some(top) = obstacle(ballot, self.top) {
            return Verdict::Outbid { top };
        }
        self.top = Some(ballot);
        match message {
            Record::Prepare { .. } => Verdict::Promised { best: self.best },
            Record::Accept { entry, .. } => {
                self.best = Some(Vote {
                    ballot,
                    entry: *entry,
                });
                Verdict::Taken
            }
        }
    }
}

/// Whether the ballot is below the greatest one so far.
pub fn is_outbid(ballot: Ballot, top: Option<Ballot>) -> bool
    ensures yes { result ≡ true → (t : Ballot) × (top ≡ Some t) × IsBelow ballot t }
    ensures no { result ≡ false → (t : Ballot) → top ≡ Some t → IsAtMost t ballot }
{
    match top {
        Some(top) => ballot.is_below(top),
        None => false,
    }
}

/// The greatest ballot so far, where this one is below it.
fn obstacle(ballot: Ballot, top: Option<Ballot>) -> Option<Ballot>
    ensures some { IfSome result (λ t. (top ≡ Some t) × IsBelow ballot t) }
    ensures none { IfNone result ((t : Ballot) → top ≡ Some t → IsAtMost t ballot) }
{
    if is_outbid(ballot, top) { top } else { None }
}
