//! What a log shows to a bidder.

ghost use Rattle.std.specs.Prelude.{◌++◌, ◌∷◌, [], ℕ, List};
ghost use Rattle.ms_record.specs.declared.ballot.Ballot.{Ballot};
ghost use Rattle.ms_record.specs.declared.log.LogEvent.{LogEvent};
ghost use Rattle.ms_record.specs.Logs.{votes_in};
ghost use Rattle.ms_record.specs.Looks.{HasShown, IsOfBid};
ghost use Rattle.ms_record.specs.Sights.{IsSight};

use crate::service::record_in;
use ms_record::{Ballot, LogEvent, Look, Sight};

/// Goes on by one event, as by the record that it adds.
fn feed_event(look: &mut Look, event: &LogEvent)
    ensures bid { (position : ℕ) (ballot : Ballot) → IsOfBid position ballot look.old → IsOfBid position ballot look.new }
    ensures goes_on { (log : List LogEvent) → HasShown (votes_in log) look.old → HasShown (votes_in (log ++ event.now ∷ [])) look.new }
{
    if let Some(message) = record_in(event) {
        look.feed(&message);
    }
}

/// What the log shows of the bid of a ballot at a position: `docs/PROTOCOL.md`, bids.
pub fn shown(log: &[LogEvent], position: u32, ballot: Ballot) -> Sight
    ensures { IsSight (votes_in log.now) position ballot result }
{
    let mut look = Look::at(position, ballot);
    for event in log {
        feed_event(&mut look, event);
    }
    look.sight()
}
