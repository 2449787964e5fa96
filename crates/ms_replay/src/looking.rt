//! What a vote list shows of a bid.

ghost use Rattle.ms_record.specs.Reading.{votes_of};
ghost use Rattle.ms_record.specs.Sights.{IsSight};
ghost use Rattle.ms_replay.specs.Looks.{IsInRange};

use ms_base::Bytes;
use ms_record::{Ballot, Look, Sight};

/// What a vote list shows of the bid of a ballot at a position: whether a Prepare of the ballot is promised and the
/// Best before the first such place, whether an Accept of the ballot is taken, and the greatest ballot at the position.
/// Texts that are no records are skipped. `docs/PROTOCOL.md`, bids.
pub fn sight(list: &[Bytes], position: u32, ballot: Ballot) -> Sight
    ensures is { IsSight (votes_of list.now) position ballot result }
    ensures ranges { IsInRange result }
{
    let mut look = Look::at(position, ballot);
    for text in list {
        look.feed_text(text.as_slice());
    }
    look.sight()
}
