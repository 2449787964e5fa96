//! What the vote lists of some services show at a position.

ghost use Rattle.std.specs.Prelude.{◌≡◌, ◌≢◌, ◌⊎◌, ℕ, ◌+◌, ◌*◌, ◌<◌, ◌≤◌, ◌↔◌, Some, IfSome, IfNone, IsTrue, true, false, length, count_by, slice_get};
ghost use Rattle.ms_record.specs.declared.ballot.Ballot.{Ballot};
ghost use Rattle.ms_record.specs.declared.entry.Entry.{Entry};
ghost use Rattle.ms_replay.specs.declared.voted.Voted.{Voted};
ghost use Rattle.ms_replay.specs.Standings.{Differs, IsGiven};
ghost use Rattle.ms_replay.specs.Winners.{AreHere, IsGroup, IsWinner, IsFirstWinner, IsGreatestHere, has_voted};

use crate::voted::Voted;
use ms_record::{Ballot, Entry, ServiceSet, Vote};

/// What the lists show at a position.
#[derive(Clone, Copy, Debug, PartialEq, Eq)]
pub enum Standing {
    /// No Accept is taken.
    Unseen,
    /// Nothing is chosen; the taken Accept of greatest ballot, of several the one of least entry bytes.
    Seen { vote: Vote },
    /// One entry is chosen.
    Chosen { entry: Entry },
    /// More are chosen: the one of least ballot, then least bytes, and the next that differs.
    Split { first: Entry, second: Entry },
}

/// Where the votes of this text end.
fn group_end(part: &[Voted], from: usize) -> usize
    requires { from < length part.now }
    ensures { IsGroup part.now from result }
{
    let mut to = from + 1;
    while to < part.len() && part[to].has_text_of(&part[from]) {
        to += 1;
    }
    to
}

/// Whether more than half of the voters are among these votes.
fn is_majority(group: &[Voted], voters: &ServiceSet) -> bool
    ensures { IsTrue result ↔ (length voters.now < 2 * count_by (has_voted group.now) voters.now) }
{
    voters.len() < 2 * count_voters(group, voters)
}

/// How many voters are among these votes.
fn count_voters(group: &[Voted], voters: &ServiceSet) -> usize
    ensures is { result ≡ count_by (has_voted group.now) voters.now }
    ensures few { result ≤ 16 }
{
    let mut count = 0;
    for voter in voters.as_slice() {
        if is_among(group, voter.0) {
            count += 1;
        }
    }
    count
}

/// Whether one of these votes is of this service.
fn is_among(group: &[Voted], service: u32) -> bool
    ensures { result ≡ has_voted group.now service }
{
    group.iter().any(|v| v.service == service)
}

/// Whether this is another entry than the one given.
fn is_another(but: &Option<Entry>, entry: &Entry) -> bool
    ensures yes { result ≡ true → Differs but.now entry.now }
    ensures no { result ≡ false → IsGiven but.now entry.now }
{
    match but {
        Some(given) => !entry.is_same(given),
        None => true,
    }
}

/// Of the entries for which a majority of the voters voted under one ballot, the first, passing over the one given.
pub fn first_chosen(
    part: &[Voted],
    voters: &ServiceSet,
    position: u32,
    but: &Option<Entry>,
) -> Option<Entry>
    requires { AreHere position part.now }
    ensures some { IfSome result (IsFirstWinner part.now voters.now position but.now) }
    ensures none { IfNone result ((b : Ballot) (e : Entry) → IsWinner part.now voters.now position b e → IsGiven but.now e) }
{
    let mut from = 0;
    while from < part.len() {
        let to = group_end(part, from);
        let voted = &part[from];
        if is_majority(&part[from..to], voters) {
            let entry = voted.entry();
            if is_another(but, &entry) {
                return Some(entry);
            }
        }
        from = to;
    }
    None
}

/// The vote of greatest ballot, of several the one of least bytes.
pub fn greatest_vote(part: &[Voted], position: u32) -> Option<Vote>
    requires { AreHere position part.now }
    ensures some { IfSome result (IsGreatestHere part.now position) }
    ensures none { IfNone result (length part.now ≡ 0) }
{
    let last = part.last()?;
    let place = first_of_ballot(part, last.ballot);
    Some(part[place].vote())
}

/// The first place with a vote of this ballot, or the last place.
fn first_of_ballot(part: &[Voted], ballot: Ballot) -> usize
    requires { 0 < length part.now }
    ensures within { result < length part.now }
    ensures before { (i : ℕ) (v : Voted) → i < result → slice_get part.now i ≡ Some v → v.ballot ≢ ballot }
    ensures here { (v : Voted) → slice_get part.now result ≡ Some v → (v.ballot ≡ ballot) ⊎ (result + 1 ≡ length part.now) }
{
    let mut place = 0;
    while place + 1 < part.len() && part[place].ballot != ballot {
        place += 1;
    }
    place
}
