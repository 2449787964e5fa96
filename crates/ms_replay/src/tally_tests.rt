//! Tallies of lists whose standings were known before.

use crate::test_texts::*;
use crate::{Standing, Tally};
use ms_base::{Bytes, ClientId, Items, ServiceId};
use ms_record::{Ballot, ServiceSet, Vote};
use std::alloc::Global;
use std::test::*;

/// The ballot of each Accept.
const BALLOT: Ballot = Ballot {
    round: 1,
    client: ClientId(0),
};

/// What each piece of a list has: a vote, one of a greater ballot, and one that is outbid.
const PIECES: [[&str; 2]; 3] = [[A_1_1_0, Y], [A_1_2_1, X], [A_1_1_0, X]];

/// The record of this start and this entry.
fn record_of(alloc: Global, digits: [&str; 2]) -> Option<Bytes> {
    let digits = text_of(alloc, &digits).ok()?;
    let text = ms_text::hex_bytes(alloc, &digits).ok()??;
    Some(Bytes::from_vec(text))
}

/// The records of these starts and entries.
fn records_of(alloc: Global, rows: &[[&str; 2]]) -> Option<Items<Bytes>> {
    let mut list = Items::new(alloc);
    for row in rows {
        list.push(record_of(alloc, *row)?).ok()?;
    }
    Some(list)
}

/// Accepts of these entries at position 1.
fn accepts_of(alloc: Global, entries: &[&str]) -> Option<Items<Bytes>> {
    let mut list = Items::new(alloc);
    for entry in entries {
        list.push(record_of(alloc, [A_1_1_0, *entry])?).ok()?;
    }
    Some(list)
}

/// A tally of three services after these texts of lists 0, 1 and 2.
fn tally_of(alloc: Global, lists: [&[&str]; 3]) -> Option<Tally> {
    let mut tally = Tally::new(alloc, 3).ok()?;
    for service in 0..3 {
        let list = accepts_of(alloc, lists[service])?;
        add_to(&mut tally, ServiceId(service as u32), &list)?;
    }
    Some(tally)
}

/// Lets a list of a tally go on, where there is such a list.
fn add_to(tally: &mut Tally, service: ServiceId, list: &Items<Bytes>) -> Option<()> {
    if service.0 >= tally.services() {
        return None;
    }
    tally.add_list(service, list.as_slice()).ok()
}

/// What three services show at position 1, where service 0 has these pieces in one list.
fn in_one_piece(alloc: Global) -> Option<Standing> {
    let mut tally = Tally::new(alloc, 3).ok()?;
    add_to(&mut tally, ServiceId(0), &records_of(alloc, &PIECES)?)?;
    chosen_of(&tally, 1, 3)
}

/// The same, piece by piece.
fn in_three_pieces(alloc: Global) -> Option<Standing> {
    let mut tally = Tally::new(alloc, 3).ok()?;
    for piece in &PIECES {
        add_to(&mut tally, ServiceId(0), &records_of(alloc, &[*piece])?)?;
    }
    chosen_of(&tally, 1, 3)
}

/// The same, text by text: a vote is taken at position 1, another there, and none.
fn text_by_text(alloc: Global) -> Option<Standing> {
    let mut tally = Tally::new(alloc, 3).ok()?;
    add_one(alloc, &mut tally, [A_1_1_0, Y], Some(1))?;
    add_one(alloc, &mut tally, [A_1_2_1, X], Some(1))?;
    add_one(alloc, &mut tally, [A_1_1_0, X], None)?;
    chosen_of(&tally, 1, 3)
}

/// Lets the list of service 0 go on by a record, where that answers this.
fn add_one(alloc: Global, tally: &mut Tally, digits: [&str; 2], wanted: Option<u32>) -> Option<()> {
    let text = record_of(alloc, digits)?;
    if tally.services() == 0 {
        return None;
    }
    let told = tally.add(ServiceId(0), text.as_slice()).ok()?;
    if told == wanted { Some(()) } else { None }
}

/// The vote of greatest ballot among the pieces.
fn second_piece(alloc: Global) -> Option<Standing> {
    let ballot = Ballot {
        round: 2,
        client: ClientId(1),
    };
    let entry = entry_of(alloc, X)?;
    Some(Standing::Seen {
        vote: Vote { ballot, entry },
    })
}

/// A list read in pieces, of which the last is outbid, shows what it shows as a whole.
#[test]
fn tally_in_pieces(rt: HostRuntime) {
    let wanted = second_piece(rt.alloc());
    assert!(rt; wanted.is_some());
    assert!(rt; in_one_piece(rt.alloc()) == wanted);
    assert!(rt; in_three_pieces(rt.alloc()) == wanted);
}

/// A text that is outbid answers no position.
#[test]
fn a_vote_is_told_by_its_position(rt: HostRuntime) {
    let wanted = second_piece(rt.alloc());
    assert!(rt; wanted.is_some() && text_by_text(rt.alloc()) == wanted);
}

/// What a tally shows at a position behind a list that may be refused; `grew` tells whether it was taken.
fn shown_behind(alloc: Global, position: u32, grew: &mut bool) -> Option<Standing> {
    let mut tally = tally_of(alloc, [&[Y], &[], &[]])?;
    let more = records_of(
        alloc,
        &[[A_1_2_1, X], [A_2_1_0, X], [A_2_2_0, Y], [A_1_2_1, Y]],
    )?;
    *grew = add_to(&mut tally, ServiceId(0), &more).is_some();
    chosen_of(&tally, position, 3)
}

/// Whether the tally shows a vote of round 2 at a position, or, where the list is refused, the round that it showed
/// before, 0 where it showed none. So too where there is no memory for that.
fn is_whole_or_unchanged(alloc: Global, position: u32, before: u32) -> bool {
    let mut grew = false;
    let shown = shown_behind(alloc, position, &mut grew);
    let wanted = if grew { 2 } else { before };
    match shown {
        Some(Standing::Seen { vote }) => vote.ballot.round == wanted,
        Some(Standing::Unseen) => wanted == 0,
        Some(_) => false,
        None => true,
    }
}

/// Whichever allocation fails, at a position that has a vote and at another.
#[test]
fn a_refused_list_changes_nothing(rt: HostRuntime) {
    assert!(rt; is_whole_or_unchanged(rt.alloc(), 1, 1));
    assert!(rt; is_whole_or_unchanged(rt.alloc(), 2, 0));
}

/// What these lists show at position 1, where the first so many services vote.
fn standing(alloc: Global, lists: [&[&str]; 3], voters: u32) -> Option<Standing> {
    chosen_of(&tally_of(alloc, lists)?, 1, voters)
}

/// What a tally shows at a position, where the first so many services vote.
fn chosen_of(tally: &Tally, position: u32, voters: u32) -> Option<Standing> {
    if voters < 1 || voters > tally.services() || voters > 16 {
        return None;
    }
    Some(tally.chosen(position, &ServiceSet::all(voters)))
}

/// Whether the lists show that this entry is the greatest vote, and that none is chosen.
fn is_seen(alloc: Global, lists: [&[&str]; 3], digits: &str) -> bool {
    match (standing(alloc, lists, 3), entry_of(alloc, digits)) {
        (Some(Standing::Seen { vote }), Some(entry)) => vote.ballot == BALLOT
            && vote.entry == entry,
        _ => false,
    }
}

/// Whether the lists show that this entry alone is chosen.
fn is_chosen(alloc: Global, lists: [&[&str]; 3], digits: &str) -> bool {
    match (standing(alloc, lists, 3), entry_of(alloc, digits)) {
        (Some(Standing::Chosen { entry }), Some(wanted)) => entry == wanted,
        _ => false,
    }
}

/// Whether the lists show nothing.
fn is_unseen(alloc: Global, lists: [&[&str]; 3]) -> bool {
    matches!(standing(alloc, lists, 3), Some(Standing::Unseen))
}

/// Of votes under one ballot the least bytes are seen.
#[test]
fn the_greatest_vote_is_seen(rt: HostRuntime) {
    assert!(rt; is_seen(rt.alloc(), [&[Y, X], &[], &[]], X));
}

#[test]
fn two_of_three_voters_choose(rt: HostRuntime) {
    assert!(rt; is_chosen(rt.alloc(), [&[X], &[], &[X]], X));
}

#[test]
fn nothing_is_seen_in_empty_lists(rt: HostRuntime) {
    assert!(rt; is_unseen(rt.alloc(), [&[], &[], &[]]));
}
