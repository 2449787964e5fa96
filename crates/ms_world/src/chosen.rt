//! Which entry logs have chosen.

ghost use Rattle.std.specs.Prelude.{◌≡◌, ◌↔◌, ◌++◌, ◌∷◌, [], ◌<◌, ◌≤◌, ℕ, All, List, Some, Contains, IsTrue, OnOk, IfOk, IfSome, IfNone, None, length, slice_get};
ghost use Rattle.ms_world.specs.Passes.{AreRising, AreTaken, HaveMost, IsReadOf};
ghost use Rattle.ms_world.specs.Rulings.{votes_at};
ghost use Rattle.ms_record.specs.declared.ballot.Ballot.{Ballot};
ghost use Rattle.ms_record.specs.declared.ballot.Vote.{Vote};
ghost use Rattle.ms_record.specs.declared.entry.Entry.{Entry};
ghost use Rattle.ms_record.specs.declared.log.LogEvent.{LogEvent};
ghost use Rattle.ms_record.specs.declared.record.Record.{Record};
ghost use Rattle.ms_record.specs.declared.record.Record.TheVariants as records;
ghost use Rattle.ms_record.specs.Ballots.{IsAtMost, IsBelow};
ghost use Rattle.ms_record.specs.Logs.{votes_in};
ghost use Rattle.ms_record.specs.Votes.{ChosenBy, services_below};

use crate::front::Front;
use crate::service::record_in;
use ms_base::{Items, NoMemory};
use ms_record::{Acceptor, Ballot, Entry, LogEvent, Record, Verdict, Vote};
use std::alloc::Global;

/// Puts a vote at the end.
fn push_vote(votes: &mut Items<Vote>, ballot: Ballot, entry: &Entry) -> Result<(), NoMemory>
    ensures { OnOk result (votes.new ≡ votes.old ++ record { ballot = ballot; entry = entry.now } ∷ []) }
{
    // An entry that goes into a list has its plan named: no proof is made otherwise.
    let plan = entry.plan;
    votes.push(Vote {
        ballot,
        entry: Entry { plan, ..*entry },
    })
}

/// Puts the vote of an Accept at the end.
fn push_accept(votes: &mut Items<Vote>, message: &Record) -> Result<(), NoMemory>
    ensures { (position : ℕ) (ballot : Ballot) (entry : Entry) → message.now ≡ records.Accept position ballot entry
        → OnOk result (votes.new ≡ votes.old ++ record { ballot = ballot; entry = entry } ∷ []) }
{
    match message {
        Record::Prepare { .. } => Ok(()),
        Record::Accept { ballot, entry, .. } => push_vote(votes, *ballot, entry),
    }
}

/// Goes on by one record: an Accept that is taken is put at the end.
fn read_record(
    acceptor: &mut Acceptor,
    votes: &mut Items<Vote>,
    message: &Record,
) -> Result<(), NoMemory>
    ensures position { acceptor.new.position ≡ acceptor.old.position }
    ensures read { (records : List Record) → IsReadOf records acceptor.old votes.old
        → OnOk result (IsReadOf (records ++ message.now ∷ []) acceptor.new votes.new) }
{
    match acceptor.feed(message) {
        Verdict::Taken => push_accept(votes, message),
        _ => Ok(()),
    }
}

/// Goes on by one event.
fn read_event(
    acceptor: &mut Acceptor,
    votes: &mut Items<Vote>,
    event: &LogEvent,
) -> Result<(), NoMemory>
    ensures position { acceptor.new.position ≡ acceptor.old.position }
    ensures read { (log : List LogEvent) → IsReadOf (votes_in log) acceptor.old votes.old
        → OnOk result (IsReadOf (votes_in (log ++ event.now ∷ [])) acceptor.new votes.new) }
{
    match record_in(event) {
        Some(message) => read_record(acceptor, votes, &message),
        None => Ok(()),
    }
}

/// The Accepts that a log has taken at a position.
fn taken_in(alloc: Global, log: &[LogEvent], position: u32) -> Result<Items<Vote>, NoMemory>
    ensures { IfOk result (AreTaken (votes_in log.now) position) }
{
    let mut acceptor = Acceptor::at(position);
    let mut votes = Items::new(alloc);
    for event in log {
        read_event(&mut acceptor, &mut votes, event)?;
    }
    Ok(votes)
}

/// Whether the two are one vote.
fn is_same(one: &Vote, other: &Vote) -> bool
    ensures { IsTrue result ↔ (one.now ≡ other.now) }
{
    one.ballot == other.ballot && one.entry.is_same(&other.entry)
}

/// Where the votes begin whose ballots are not below this one.
fn first_from(list: &[Vote], ballot: Ballot) -> usize
    requires { AreRising list.now }
    ensures within { result ≤ length list.now }
    ensures before { (i : ℕ) (v : Vote) → i < result → slice_get list.now i ≡ Some v → IsBelow v.ballot ballot }
    ensures behind { (i : ℕ) (v : Vote) → result ≤ i → slice_get list.now i ≡ Some v → IsAtMost ballot v.ballot }
{
    list.partition_point(|v| v.ballot.is_below(ballot))
}

/// Whether the list has the vote.
fn has_vote(list: &[Vote], vote: &Vote) -> bool
    requires { AreRising list.now }
    ensures { IsTrue result ↔ Contains list.now vote.now }
{
    let rest = &list[first_from(list, vote.ballot)..];
    for other in rest {
        if vote.ballot.is_below(other.ballot) {
            return false;
        }
        if is_same(other, vote) {
            return true;
        }
    }
    false
}

/// Whether more than half of the lists have the vote.
fn have_most(lists: &[Items<Vote>], vote: &Vote) -> bool
    requires { All AreRising lists.now }
    ensures { IsTrue result ↔ HaveMost lists.now vote.now }
{
    let mut count = 0;
    for list in lists {
        if has_vote(list.as_slice(), vote) {
            count += 1;
        }
    }
    count > lists.len() - count
}

/// An entry of a list for whose vote more than half of the lists are.
fn most_in(lists: &[Items<Vote>], list: &[Vote]) -> Option<Entry>
    requires { All AreRising lists.now }
    ensures some { IfSome result (λ e. (vote : Vote) × (vote.entry ≡ e) × HaveMost lists.now vote) }
    ensures none { IfNone result ((vote : Vote) → Contains list.now vote → HaveMost lists.now vote → ⊥) }
{
    for vote in list {
        if have_most(lists, vote) {
            return Some(vote.entry);
        }
    }
    None
}

/// An entry for whose vote more than half of the lists are.
fn most(lists: &[Items<Vote>]) -> Option<Entry>
    requires { All AreRising lists.now }
    ensures some { IfSome result (λ e. (vote : Vote) × (vote.entry ≡ e) × HaveMost lists.now vote) }
    ensures none { IfNone result ((vote : Vote) → HaveMost lists.now vote → ⊥) }
{
    for list in lists {
        let found = most_in(lists, list.as_slice());
        if found.is_some() {
            return found;
        }
    }
    None
}

/// The entry that the logs have chosen at the position: more than half of them have taken it under one ballot.
pub(crate) fn chosen_at(
    alloc: Global,
    logs: &[Front<'_>],
    position: u32,
) -> Result<Option<Entry>, NoMemory>
    ensures some { IfOk result (λ o. IfSome o (ChosenBy (votes_at logs.now) (services_below (length logs.now)) position)) }
    ensures none { IfOk result (λ o. o ≡ None
        → (e : Entry) → ChosenBy (votes_at logs.now) (services_below (length logs.now)) position e → ⊥) }
{
    let mut lists = Vec::new(alloc);
    for log in logs {
        lists.push(taken_in(alloc, log.as_slice(), position)?)?;
    }
    Ok(most(lists.as_slice()))
}
