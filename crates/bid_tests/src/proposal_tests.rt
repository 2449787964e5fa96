//! Proposals over services in memory: what they answer, the rounds that are kept, and the vote lists.

use crate::bidding::{
    ANN, BOB, Bidder, NEW_ANN, NEW_BOB, Place, VOTES, Vote, WELL_PLACE, are_lists, entry_of,
    genesis_of, shelf_of, shelves_for,
};
use crate::proposing::{Proposed, propose_new};
use crate::shelves::{Course, Shelf};
use ms_base::{Bytes, Name, Quantity};
use ms_object::names::name_of;
use ms_propose::Decided;
use ms_record::{Refusal, Rival, ServiceSet};
use std::alloc::Global;
use std::test::*;

/// What a proposal answers.
#[derive(Clone, Copy)]
enum Said<'a> {
    /// The first entry of this client, and whether it was wanted.
    Decided(u32, bool),
    Nothing,
    /// These services failed.
    NoMajority(&'a [u32]),
    /// The service, and the round and the client of the ballot.
    Unlisted(u32, u32, u32),
    /// Of 16 bids, each of the next even round of bob, at service 0.
    Contended,
    Limit(Quantity, u64),
    KeepFault,
}

/// Services, a client who proposes at a position, with an entry of its own or without; and what comes of it: the answer, the kept
/// round, the round that the keeper has, and the vote lists.
#[derive(Clone, Copy)]
struct Case<'a> {
    places: &'a [Place<'a>],
    bidder: Bidder<'a>,
    position: u32,
    is_wanted: bool,
    said: Said<'a>,
    round: u32,
    kept: u32,
    lists: &'a [&'a [Vote]],
}

/// Whether these are the services of these numbers.
pub(crate) fn are(services: &ServiceSet, numbers: &[u32]) -> bool {
    let services = services.as_slice();
    services.len() == numbers.len() && services.iter().zip(numbers).all(|(s, n)| s.0 == *n)
}

/// Whether each is of the next even round of bob, at service 0, and there are sixteen.
fn are_rivals(rivals: &[Rival]) -> bool {
    let mut round = 0u32;
    for rival in rivals {
        round = round.saturating_add(2);
        if rival.service.0 != 0 || rival.top.round != round || rival.top.client.0 != BOB {
            return false;
        }
    }
    round == 32
}

fn is_refused(refusal: &Refusal, said: Said<'_>) -> bool {
    match (refusal, said) {
        (Refusal::NoMajority { failed }, Said::NoMajority(numbers)) => are(failed, numbers),
        (Refusal::Unlisted { service, ballot }, Said::Unlisted(number, round, client)) => {
            service.0 == number && ballot.round == round && ballot.client.0 == client
        }
        (Refusal::Contended { rivals }, Said::Contended) => are_rivals(rivals.as_slice()),
        (Refusal::Limit { what, value }, Said::Limit(quantity, number)) => {
            *what == quantity && *value == number
        }
        (
            Refusal::OutsideFault {
                place: ms_record::Place::Keep,
            },
            Said::KeepFault,
        ) => true,
        _ => false,
    }
}

fn is_said(answer: &Result<Option<Decided>, Refusal>, said: Said<'_>, genesis: Name) -> bool {
    match (answer, said) {
        (Ok(Some(decided)), Said::Decided(client, mine)) => {
            decided.mine == mine && decided.entry == entry_of(client, genesis)
        }
        (Ok(None), Said::Nothing) => true,
        (Err(refusal), said) => is_refused(refusal, said),
        _ => false,
    }
}

/// What the case comes to.
fn played(alloc: Global, case: &Case<'_>, genesis: Name) -> Option<Proposed> {
    let shelves = shelves_for(alloc, case.places, genesis)?;
    propose_new(alloc, shelves, case.bidder, case.position, case.is_wanted)
}

/// Whether this is the answer, the rounds and the lists of the case; no lists are not looked at.
fn is_end(alloc: Global, end: &Proposed, case: &Case<'_>, genesis: Name) -> bool {
    is_said(&end.answer, case.said, genesis)
        && end.round == case.round
        && end.kept == case.kept
        && (case.lists.len() == 0 || are_lists(alloc, end.shelves.as_slice(), case.lists, genesis))
}

/// Whether the case comes to what it says.
fn goes(alloc: Global, case: &Case<'_>) -> bool {
    let Some(genesis) = genesis_of(case.places.len()) else {
        return false;
    };
    match played(alloc, case, genesis) {
        Some(end) => is_end(alloc, &end, case, genesis),
        None => false,
    }
}

/// A vote list of ann's bid of round 1.
const OF_ANN: &[Vote] = &[Vote::P(1, ANN), Vote::A(1, ANN, ANN)];

const FIRST: Case<'static> = Case {
    places: &[WELL_PLACE, WELL_PLACE, WELL_PLACE],
    bidder: NEW_ANN,
    position: 1,
    is_wanted: true,
    said: Said::Decided(ANN, true),
    round: 1,
    kept: 1,
    lists: &[OF_ANN, OF_ANN, OF_ANN],
};

/// The version's text, whose root is the empty directory.
const VERSION_TEXT: &[u8] = &[
    0x56, 0x00, 0x00, 0x00, 0x00, 0x00, 0x00, 0x00, 0x01, 0x00, 0x09, 0x3f, 0x93, 0x17, 0x03, 0x15,
    0x5b, 0xc6, 0xbf, 0x1c, 0x13, 0x03, 0x9f, 0xfd, 0xb4, 0x98, 0x56, 0x41, 0x0b, 0x2b, 0x35, 0x9c,
    0x93, 0xca, 0xb8, 0xe5, 0x20, 0x59, 0x07, 0x3e, 0xce, 0xf9,
];

/// Three services, of which the first two hold the version and the directory.
fn first_shelves(alloc: Global, genesis: Name) -> Option<Vec<Shelf>> {
    let mut shelves = Vec::new(alloc);
    for service in 0..3 {
        let mut shelf = shelf_of(alloc, &WELL_PLACE, genesis)?;
        if service < 2 {
            hold(alloc, &mut shelf, b"D\0\0\0\0")?;
            hold(alloc, &mut shelf, VERSION_TEXT)?;
        }
        shelves.push(shelf).ok()?;
    }
    Some(shelves)
}

/// The object is held in generation 1.
fn hold(alloc: Global, shelf: &mut Shelf, text: &[u8]) -> Option<()> {
    let bytes = Bytes::of(alloc, text).ok()?;
    shelf.keep(1, name_of(text), bytes).ok()
}

/// What ann's first proposal comes to.
fn first_played(alloc: Global, genesis: Name) -> Option<Proposed> {
    let shelves = first_shelves(alloc, genesis)?;
    propose_new(alloc, shelves, FIRST.bidder, 1, true)
}

/// Whether ann's first proposal comes to its answer and its lists.
fn first_goes(alloc: Global) -> bool {
    let Some(genesis) = genesis_of(3) else {
        return false;
    };
    match first_played(alloc, genesis) {
        Some(end) => is_end(alloc, &end, &FIRST, genesis),
        None => false,
    }
}

#[test]
fn first_proposal(rt: HostRuntime) {
    assert!(rt; first_goes(rt.alloc()));
}

/// Her Prepare and her Accept, as `bench/bids_reference.py` spells them.
const FIRST_TEXTS: [&[u8]; 2] = [
    &[
        0x50, 0x00, 0x00, 0x00, 0x01, 0x00, 0x00, 0x00, 0x01, 0x00, 0x00, 0x00, 0x00,
    ],
    &[
        0x41, 0x00, 0x00, 0x00, 0x01, 0x00, 0x00, 0x00, 0x01, 0x00, 0x00, 0x00, 0x00, 0x55, 0xc8,
        0x0d, 0xc1, 0xec, 0x95, 0x6f, 0xb0, 0xc4, 0x98, 0xd9, 0xce, 0x74, 0x8a, 0x85, 0xe5, 0x26,
        0x95, 0x8f, 0x35, 0xbb, 0x59, 0x8d, 0xd5, 0x27, 0x9e, 0x7f, 0x1f, 0xa4, 0x22, 0x02, 0x35,
        0x97, 0x00, 0x00, 0x00, 0x00, 0x00, 0x00, 0x00, 0x01, 0x5d, 0xcd, 0x77, 0x9c, 0x99, 0x2c,
        0xe8, 0xab, 0xd8, 0xd1, 0xd1, 0x59, 0x27, 0x3f, 0xbb, 0x73, 0x8b, 0x71, 0x60, 0x51, 0xa0,
        0x7d, 0x5b, 0x00, 0x5f, 0x2e, 0x67, 0x2f, 0x18, 0xa6, 0x74, 0x55,
    ],
];

/// Whether each vote list has these bytes behind her first proposal.
fn are_first_texts(alloc: Global) -> bool {
    let Some(genesis) = genesis_of(3) else {
        return false;
    };
    match first_played(alloc, genesis) {
        Some(end) => end
            .shelves
            .iter()
            .all(|shelf: &Shelf| are_texts(alloc, shelf, &FIRST_TEXTS)),
        None => false,
    }
}

/// Whether the vote list is these texts.
fn are_texts(alloc: Global, shelf: &Shelf, expected: &[&[u8]]) -> bool {
    match shelf.texts(alloc, VOTES, 0) {
        Ok(texts) => {
            let texts = texts.as_slice();
            texts.len() == expected.len()
                && texts
                    .iter()
                    .zip(expected)
                    .all(|(text, bytes)| text.as_slice() == *bytes)
        }
        Err(_) => false,
    }
}

#[test]
fn bytes_of_the_first_proposal(rt: HostRuntime) {
    assert!(rt; are_first_texts(rt.alloc()));
}

/// A vote list of ann's bid and then bob's, who found ann's entry.
const OF_BOTH: &[Vote] = &[
    Vote::P(1, ANN),
    Vote::A(1, ANN, ANN),
    Vote::P(1, BOB),
    Vote::A(1, BOB, ANN),
];

const SECOND: Case<'static> = Case {
    places: &[
        Place {
            votes: OF_ANN,
            ..WELL_PLACE
        },
        Place {
            votes: OF_ANN,
            ..WELL_PLACE
        },
        Place {
            votes: OF_ANN,
            ..WELL_PLACE
        },
    ],
    bidder: NEW_BOB,
    position: 1,
    is_wanted: true,
    said: Said::Decided(ANN, false),
    round: 1,
    kept: 1,
    lists: &[OF_BOTH, OF_BOTH, OF_BOTH],
};

#[test]
fn second_proposal(rt: HostRuntime) {
    assert!(rt; goes(rt.alloc(), &SECOND));
}

/// The first service, which has ann's Accept, fails.
const SETTLING: Case<'static> = Case {
    places: &[
        Place {
            votes: OF_ANN,
            fails: &[0],
            courses: &[],
            rest: Course::Done,
        },
        Place {
            votes: &[Vote::P(1, ANN)],
            ..WELL_PLACE
        },
        Place {
            votes: &[Vote::P(1, ANN)],
            ..WELL_PLACE
        },
    ],
    bidder: NEW_BOB,
    position: 1,
    is_wanted: false,
    said: Said::Nothing,
    round: 1,
    kept: 1,
    lists: &[
        OF_ANN,
        &[Vote::P(1, ANN), Vote::P(1, BOB)],
        &[Vote::P(1, ANN), Vote::P(1, BOB)],
    ],
};

#[test]
fn settling_finds_nothing(rt: HostRuntime) {
    assert!(rt; goes(rt.alloc(), &SETTLING));
}

/// Before each of ann's Accepts a Prepare of bob's next round stands in the list.
const OUTBID: Place<'static> = Place {
    votes: &[],
    fails: &[],
    courses: &[],
    rest: Course::Outbid,
};

/// The last bid is of round 31, and shows round 32.
const CONTENDED: Case<'static> = Case {
    places: &[OUTBID, OUTBID, WELL_PLACE],
    bidder: NEW_ANN,
    position: 1,
    is_wanted: true,
    said: Said::Contended,
    round: 32,
    kept: 31,
    lists: &[],
};

#[test]
fn contended_after_16_bids(rt: HostRuntime) {
    assert!(rt; goes(rt.alloc(), &CONTENDED));
}

/// A client who kept the last round.
const LATE_ANN: Bidder<'static> = Bidder {
    client: ANN,
    round: 4_294_967_294,
    keep_fails: &[],
};

const AT_ROUND_LIMIT: Case<'static> = Case {
    places: &[WELL_PLACE, WELL_PLACE, WELL_PLACE],
    bidder: LATE_ANN,
    position: 1,
    is_wanted: true,
    said: Said::Limit(Quantity::Round, 4_294_967_295),
    round: 4_294_967_294,
    kept: 4_294_967_294,
    lists: &[&[], &[], &[]],
};

#[test]
fn round_limit(rt: HostRuntime) {
    assert!(rt; goes(rt.alloc(), &AT_ROUND_LIMIT));
}

/// The position is judged before the round.
const AT_POSITION_LIMIT: Case<'static> = Case {
    position: 4_294_967_295,
    said: Said::Limit(Quantity::Position, 4_294_967_295),
    ..AT_ROUND_LIMIT
};

#[test]
fn position_limit(rt: HostRuntime) {
    assert!(rt; goes(rt.alloc(), &AT_POSITION_LIMIT));
}

/// A service that takes no message, and says that it does.
const DEAF: Place<'static> = Place {
    votes: &[],
    fails: &[],
    courses: &[],
    rest: Course::Skipped,
};

const UNLISTED: Case<'static> = Case {
    places: &[WELL_PLACE, DEAF, DEAF],
    bidder: NEW_ANN,
    position: 1,
    is_wanted: true,
    said: Said::Unlisted(1, 1, ANN),
    round: 1,
    kept: 1,
    lists: &[&[Vote::P(1, ANN)], &[], &[]],
};

#[test]
fn a_message_that_is_not_listed(rt: HostRuntime) {
    assert!(rt; goes(rt.alloc(), &UNLISTED));
}

/// The keeper fails to keep the round of the first bid.
const KEEP_FAULT: Case<'static> = Case {
    places: &[WELL_PLACE, WELL_PLACE, WELL_PLACE],
    bidder: Bidder {
        client: ANN,
        round: 6,
        keep_fails: &[1],
    },
    position: 1,
    is_wanted: true,
    said: Said::KeepFault,
    round: 6,
    kept: 6,
    lists: &[&[], &[], &[]],
};

#[test]
fn a_keeper_that_fails(rt: HostRuntime) {
    assert!(rt; goes(rt.alloc(), &KEEP_FAULT));
}

/// A service that is never reached.
const GONE: Place<'static> = Place {
    votes: &[],
    fails: &[0, 1, 2, 3],
    courses: &[],
    rest: Course::Done,
};

const TWO_FAIL: Case<'static> = Case {
    places: &[WELL_PLACE, GONE, GONE],
    bidder: NEW_ANN,
    position: 1,
    is_wanted: true,
    said: Said::NoMajority(&[1, 2]),
    round: 1,
    kept: 1,
    lists: &[&[Vote::P(1, ANN)], &[], &[]],
};

#[test]
fn half_of_the_services_fail(rt: HostRuntime) {
    assert!(rt; goes(rt.alloc(), &TWO_FAIL));
}
