//! Clients that bid at desks of their own over services in memory; what they are asked, and what comes of it.

ghost use Rattle.std.specs.Prelude.{◌≡◌, ◌<◌, ◌≤◌, ℕ, Contains, IfSome, Some, length};
ghost use Rattle.ms_base.specs.declared.limits.TheConstants.{LAST_NUMBER, SERVICES};
ghost use Rattle.ms_ken.specs.Known.{ArePasses};
ghost use Rattle.ms_local.specs.Desks.{desk_view};
ghost use Rattle.ms_local.specs.Keeping.{HasRanges, state_in};
ghost use Rattle.ms_record.specs.declared.entry.Entry.{Entry as EntryData};
ghost use Rattle.ms_record.specs.Settings.{IsSetting};
ghost use Rattle.bid_tests.specs.Bidding.{IsSeat};

use crate::shelves::{Course, Fate, Shelf, ShelfLink, desk_of, text_of};
use ms_base::limits::LAST_NUMBER;
use ms_base::{ClientId, Name};
use ms_core::{Common, FoldClosed, Know};
use ms_ken::Naming;
use ms_link::{Link, Texts};
use ms_local::{Base, Desk, Keeper, Kept, MemoryKeeper, MemoryWork, Work, read_kept, write_kept};
use ms_record::record::parse_record;
use ms_record::{Ballot, Entry, ListId, Plan, Record, ServiceSet, Setting, entry_name};
use std::alloc::Global;

const ZEROS: Name = Name([0; 32]);

/// The version that each entry names: that of client 0 with the number 1, over the empty directory.
pub(crate) const VERSION: Name = Name([
    0x5d, 0xcd, 0x77, 0x9c, 0x99, 0x2c, 0xe8, 0xab, 0xd8, 0xd1, 0xd1, 0x59, 0x27, 0x3f, 0xbb, 0x73,
    0x8b, 0x71, 0x60, 0x51, 0xa0, 0x7d, 0x5b, 0x00, 0x5f, 0x2e, 0x67, 0x2f, 0x18, 0xa6, 0x74, 0x55,
]);

/// The list of the votes.
pub(crate) const VOTES: ListId = ListId(0);

/// ann is client 0, and bob is client 1.
pub(crate) const ANN: u32 = 0;

pub(crate) const BOB: u32 = 1;

/// A record of position 1 in a vote list: a Prepare of the ballot of a round and a client, or an Accept of it, with the first entry of a
/// client.
#[derive(Clone, Copy)]
pub(crate) enum Vote {
    P(u32, u32),
    A(u32, u32, u32),
}

/// What a service has before and what befalls it: its vote list, the numbers of its calls that fail, and what comes of its appends.
#[derive(Clone, Copy)]
pub(crate) struct Place<'a> {
    pub(crate) votes: &'a [Vote],
    pub(crate) fails: &'a [u64],
    pub(crate) courses: &'a [Course],
    pub(crate) rest: Course,
}

/// Who bids: the client, 0 or 1, its kept round, and which of its keeper's calls fail. Call 0 makes the keeper ready.
#[derive(Clone, Copy)]
pub(crate) struct Bidder<'a> {
    pub(crate) client: u32,
    pub(crate) round: u32,
    pub(crate) keep_fails: &'a [u64],
}

/// ann and bob, who kept no round.
pub(crate) const NEW_ANN: Bidder<'static> = Bidder {
    client: ANN,
    round: 0,
    keep_fails: &[],
};

pub(crate) const NEW_BOB: Bidder<'static> = Bidder {
    client: BOB,
    round: 0,
    keep_fails: &[],
};

/// A service without votes, to which nothing befalls.
pub(crate) const WELL_PLACE: Place<'static> = Place {
    votes: &[],
    fails: &[],
    courses: &[],
    rest: Course::Done,
};

/// A setting of so many services, which all vote at first, and two clients.
pub(crate) fn setting_of(services: u32) -> Setting
    requires some { 1 ≤ services }
    requires few { services ≤ SERVICES }
    ensures rules { IsSetting result }
    ensures services { result.services ≡ services }
    ensures clients { result.clients ≡ 2 }
{
    Setting::first(services, 2, ZEROS, ZEROS, Plan::even(services, 1))
}

/// The first services, up to this number.
pub(crate) fn voters_of(services: u32) -> ServiceSet
    requires some { 1 ≤ services }
    requires few { services ≤ SERVICES }
    ensures some { 1 ≤ length result }
    ensures below { (s : ℕ) → Contains result s → s < services }
{
    ServiceSet::all(services)
}

/// The first entry of a client, a push of the version behind the genesis of this name.
pub(crate) fn entry_of(client: u32, genesis: Name) -> Entry
    ensures { result.client.0 ≡ client }
{
    Entry {
        before: genesis,
        client: ClientId(client),
        number: 1,
        version: VERSION,
        plan: None,
    }
}

/// The record of a vote.
pub(crate) fn record_of(vote: Vote, genesis: Name) -> Record {
    let position = 1;
    match vote {
        Vote::P(round, client) => Record::Prepare {
            position,
            ballot: Ballot {
                round,
                client: ClientId(client),
            },
        },
        Vote::A(round, client, of) => Record::Accept {
            position,
            ballot: Ballot {
                round,
                client: ClientId(client),
            },
            entry: entry_of(of, genesis),
        },
    }
}

/// What the service has, and what befalls it from then on.
pub(crate) fn shelf_of(alloc: Global, place: &Place<'_>, genesis: Name) -> Option<Shelf> {
    let fate = Fate {
        fails: place.fails,
        step: 0,
        floor: 0,
        drops_at: 0,
    };
    let mut shelf = Shelf::new(alloc, fate).ok()?;
    for vote in place.votes {
        let text = text_of(alloc, &record_of(*vote, genesis)).ok()?;
        shelf.add(VOTES, text).ok()?;
    }
    shelf.bend(Vec::from_slice(alloc, place.courses).ok()?, place.rest);
    Some(shelf)
}

pub(crate) fn shelves_for(
    alloc: Global,
    places: &[Place<'_>],
    genesis: Name,
) -> Option<Vec<Shelf>> {
    let mut shelves = Vec::new(alloc);
    for place in places {
        shelves.push(shelf_of(alloc, place, genesis)?).ok()?;
    }
    Some(shelves)
}

/// The name of the genesis of so many services.
pub(crate) fn genesis_of(services: usize) -> Option<Name> {
    if services == 0 || services > 16 {
        return None;
    }
    Some(entry_name(&setting_of(services as u32).genesis))
}

/// Whether the texts are these votes.
fn are_votes(texts: &Texts, votes: &[Vote], genesis: Name) -> bool {
    let texts = texts.as_slice();
    if texts.len() != votes.len() {
        return false;
    }
    for place in 0..texts.len() {
        if parse_record(texts[place].as_slice()) != Some(record_of(votes[place], genesis)) {
            return false;
        }
    }
    true
}

/// Whether the vote lists are these, in the order of the services.
pub(crate) fn are_lists(
    alloc: Global,
    shelves: &[Shelf],
    lists: &[&[Vote]],
    genesis: Name,
) -> bool {
    if shelves.len() != lists.len() {
        return false;
    }
    for service in 0..shelves.len() {
        match shelves[service].texts(alloc, VOTES, 0) {
            Ok(texts) => {
                if !are_votes(&texts, lists[service], genesis) {
                    return false;
                }
            }
            Err(_) => return false,
        }
    }
    true
}

/// A state of this round.
pub(crate) fn state_of(round: u32) -> Kept
    requires { round ≤ LAST_NUMBER }
    ensures ranges { HasRanges result }
    ensures round { result.round ≡ round }
{
    Kept {
        round,
        number: 0,
        base: Base {
            position: 0,
            entry: ZEROS,
            version: ZEROS,
        },
        head: ZEROS,
        todo: None,
    }
}

/// A keeper that has the state, and of whose calls these fail.
fn keeper_of(alloc: Global, kept: &Kept, fails: &[u64]) -> Option<MemoryKeeper>
    requires { HasRanges kept.now }
    ensures { IfSome result (λ keep. state_in (⟦<MemoryKeeper as Keeper>⟧.sees keep).texts ≡ Some kept.now) }
{
    let mut keep = MemoryKeeper::new(alloc, Vec::from_slice(alloc, fails).ok()?);
    match write_kept(alloc, &mut keep, kept) {
        Ok(()) => Some(keep),
        Err(_) => None,
    }
}

/// The round that the keeper has.
pub(crate) fn round_in(alloc: Global, keep: &mut MemoryKeeper) -> Option<u32> {
    match read_kept(alloc, keep) {
        Ok(kept) => Some(kept.round),
        Err(_) => None,
    }
}

/// A desk at which the client may bid, over services of these shelves.
pub(crate) fn seat_of<J: Naming>(
    alloc: Global,
    board: Common,
    passes: Vec<Know>,
    shelves: Vec<Shelf>,
    setting: &Setting,
    bidder: Bidder<'_>,
    kept: &Kept,
) -> Option<Desk<MemoryWork, MemoryKeeper, ShelfLink<J>>>
    requires board { board ≡ J.board }
    requires passes { ArePasses board 33 passes.items }
    requires setting { IsSetting setting.now }
    requires clients { setting.now.clients ≡ 2 }
    requires services { setting.now.services ≡ length shelves.items }
    requires client { bidder.client < 2 }
    requires ranges { HasRanges kept.now }
    ensures seat { IfSome result (λ desk. IsSeat setting.now (desk_view ⟦<MemoryWork as Work>⟧.sees ⟦<MemoryKeeper as Keeper>⟧.sees ⟦<ShelfLink<J> as Link<FoldClosed>>⟧.sees desk) kept.now) }
    ensures client { IfSome result (λ desk. desk.client.0 ≡ bidder.entry.client) }
{
    let Some(keep) = keeper_of(alloc, kept, bidder.keep_fails) else {
        return None;
    };
    let Some(desk) = desk_of::<J>(alloc, board, passes, shelves, bidder.client, keep) else {
        return None;
    };
    Some(desk)
}
