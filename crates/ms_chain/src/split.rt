//! What stands at a position, by what was read of the vote lists.

ghost use Rattle.std.specs.Prelude.{◌≡◌, ◌+◌, ◌<◌, ◌≤◌, ℕ, List, IfNone, IfSome, length};
ghost use Rattle.ms_chain.specs.Heard.{heard_more};
ghost use Rattle.ms_chain.specs.Splits.{IsNextOf, IsSplitOf, SplitIs, SplitsAt, chain_of};
ghost use Rattle.ms_record.specs.Entries.{name_of};
ghost use Rattle.ms_record.specs.Reading.{record_at};
ghost use Rattle.ms_replay.specs.Audits.{lists_of};
ghost use Rattle.ms_replay.specs.Tallies.{IsVotedAt};

use crate::heard::Heard;
use crate::line::Line;
use ms_base::Name;
use ms_base::limits::LAST_NUMBER;
use ms_record::{Entry, entry_name};
use ms_replay::Standing;

/// Two entries of these names are chosen at the position.
#[derive(Clone, Copy)]
pub struct Split {
    pub position: u32,
    pub first: Name,
    pub second: Name,
}

/// What stands behind the end of a chain.
#[derive(Clone, Copy)]
pub enum Next {
    /// The one entry that is chosen there links on.
    Member { entry: Entry },
    /// Two entries are chosen there.
    Two { split: Split },
    /// Neither.
    End,
}

/// A split, by the names of its entries.
fn split_of(position: u32, first: &Entry, second: &Entry) -> Split
    ensures position { result.position ≡ position }
    ensures names { (result.first.0 ≡ name_of first.now) × (result.second.0 ≡ name_of second.now) }
{
    Split {
        position,
        first: entry_name(first),
        second: entry_name(second),
    }
}

/// The split at a position up to the one behind the end, where two entries are chosen there.
pub fn split_at(line: &Line, heard: &Heard, position: u32) -> Option<Split>
    requires many { length heard.now ≡ line.now.setting.services }
    requires first { 1 ≤ position }
    requires within { position ≤ length line.now.members + 1 }
    ensures some { IfSome result (IsSplitOf (chain_of line.now heard.now)) }
    ensures at { IfSome result (λ s. s.position ≡ position) }
    ensures none { IfNone result (SplitsAt (chain_of line.now heard.now) position → ⊥) }
{
    let voters = line.voters_behind(position - 1);
    match heard.standing(position, &voters) {
        Standing::Split { first, second } => Some(split_of(position, &first, &second)),
        _ => None,
    }
}

/// What stands behind the end.
pub fn next_of(line: &Line, heard: &Heard) -> Next
    requires { length heard.now ≡ line.now.setting.services }
    ensures { IsNextOf (chain_of line.now heard.now) result }
{
    let end = line.end();
    if end == LAST_NUMBER {
        heard.shows_positions();
        return Next::End;
    }
    match heard.standing(end + 1, &line.voters_behind(end)) {
        Standing::Chosen { entry } => {
            if line.links(&entry) {
                Next::Member { entry }
            } else {
                Next::End
            }
        }
        Standing::Split { first, second } => Next::Two {
            split: split_of(end + 1, &first, &second),
        },
        _ => Next::End,
    }
}

/// The split that is known once a text was read: the one that was known before; else one at the position that was voted at, up to
/// the end. No other position can have come to be split.
pub fn judged(known: Option<Split>, line: &Line, heard: &Heard, voted: Option<u32>) -> Option<Split>
    requires { length heard.now ≡ line.now.setting.services }
    ensures { (before : List (List (List ℕ))) (service : ℕ) (text : List ℕ) → service < length before → heard.now ≡ heard_more before service text
        → IsVotedAt (lists_of before service) (record_at text) voted → SplitIs (chain_of line.now before) known → SplitIs (chain_of line.now heard.now) result }
{
    if let Some(split) = known {
        return Some(split);
    }
    let Some(position) = voted else {
        return None;
    };
    if position == 0 || position > line.end() {
        return None;
    }
    split_at(line, heard, position)
}
