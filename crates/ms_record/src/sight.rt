//! What a reading of one vote list shows of a bid.

ghost use Rattle.std.specs.Prelude.{◌≡◌, ℕ, List};
ghost use Rattle.ms_record.specs.declared.ballot.Ballot.{Ballot};
ghost use Rattle.ms_record.specs.declared.record.Record.{Record};
ghost use Rattle.ms_record.specs.declared.sight.Sight.{Sight};
ghost use Rattle.ms_record.specs.Sights.{IsSight};

use crate::ballot::{Ballot, Vote};

/// What a reading of one vote list shows of the bid of a ballot at a position.
#[derive(Clone, Copy, Debug, PartialEq, Eq)]
pub struct Sight {
    /// Whether a Prepare of the ballot is promised.
    pub promised: bool,
    /// The Best before the first such Prepare; none where no Prepare of the ballot is promised.
    pub best: Option<Vote>,
    /// Whether an Accept of the ballot is taken.
    pub taken: bool,
    /// The greatest ballot at the position; none where the list has no record of the position.
    pub top: Option<Ballot>,
}

/// A law: a list shows one sight of the bid of a ballot at a position.
pub fn one_sight()
    ensures { (records : List Record) (position : ℕ) (ballot : Ballot) (one other : Sight)
        → IsSight records position ballot one → IsSight records position ballot other → one ≡ other }
{}
