//! Catching up over services in memory: what is learnt and settled.

use crate::bidding::{
    ANN, BOB, Bidder, NEW_BOB, Place, Vote, WELL_PLACE, are_lists, entry_of, genesis_of,
    shelves_for,
};
use crate::proposal_tests::are;
use crate::proposing::{CaughtUp, caught_up};
use crate::shelves::Course;
use ms_base::Name;
use ms_chain::Chain;
use ms_record::Refusal;
use std::alloc::Global;
use std::test::*;

/// What catching up answers.
#[derive(Clone, Copy)]
enum Said<'a> {
    /// The end, where the one member behind the genesis is the first entry of this client.
    Member(u32),
    /// The genesis alone.
    Genesis,
    /// These services failed.
    NoMajority(&'a [u32]),
}

/// Services, a client who catches up; and what comes of it: the answer, the kept round, and the vote lists.
#[derive(Clone, Copy)]
struct Case<'a> {
    places: &'a [Place<'a>],
    bidder: Bidder<'a>,
    said: Said<'a>,
    round: u32,
    lists: &'a [&'a [Vote]],
}

/// Whether the chain ends with the first entry of the client at position 1.
fn ends_with(chain: &Chain, client: u32, genesis: Name) -> bool {
    match chain.entry_at(1) {
        Some(member) => chain.end() == 1 && *member == entry_of(client, genesis),
        None => false,
    }
}

fn is_said(end: &CaughtUp, said: Said<'_>, genesis: Name) -> bool {
    match (&end.answer, said) {
        (Ok(1), Said::Member(client)) => ends_with(&end.chain, client, genesis),
        (Ok(0), Said::Genesis) => end.chain.end() == 0,
        (Err(Refusal::NoMajority { failed }), Said::NoMajority(numbers)) => are(failed, numbers),
        _ => false,
    }
}

fn played(alloc: Global, case: &Case<'_>, genesis: Name) -> Option<CaughtUp> {
    let shelves = shelves_for(alloc, case.places, genesis)?;
    caught_up(alloc, shelves, case.bidder)
}

/// Whether the case comes to its answer, its round and its lists.
fn goes(alloc: Global, case: &Case<'_>) -> bool {
    let Some(genesis) = genesis_of(case.places.len()) else {
        return false;
    };
    match played(alloc, case, genesis) {
        Some(end) => {
            is_said(&end, case.said, genesis)
                && end.round == case.round
                && are_lists(alloc, end.shelves.as_slice(), case.lists, genesis)
        }
        None => false,
    }
}

/// Nothing is seen, and so no bid is made.
const EMPTY: Case<'static> = Case {
    places: &[WELL_PLACE, WELL_PLACE, WELL_PLACE],
    bidder: NEW_BOB,
    said: Said::Genesis,
    round: 0,
    lists: &[&[], &[], &[]],
};

#[test]
fn catch_up_on_empty_lists(rt: HostRuntime) {
    assert!(rt; goes(rt.alloc(), &EMPTY));
}

/// ann's Prepare, and her Accept with her entry.
const ACCEPTED: &[Vote] = &[Vote::P(1, ANN), Vote::A(1, ANN, ANN)];

const PREPARED: &[Vote] = &[Vote::P(1, ANN)];

const WITH_PREPARE: Place<'static> = Place {
    votes: PREPARED,
    fails: &[],
    courses: &[],
    rest: Course::Done,
};

const WITH_ACCEPT: Place<'static> = Place {
    votes: ACCEPTED,
    fails: &[],
    courses: &[],
    rest: Course::Done,
};

const ONE_VOTE: Case<'static> = Case {
    places: &[WITH_ACCEPT, WITH_PREPARE, WITH_PREPARE],
    bidder: NEW_BOB,
    said: Said::Member(ANN),
    round: 1,
    lists: &[
        &[
            Vote::P(1, ANN),
            Vote::A(1, ANN, ANN),
            Vote::P(1, BOB),
            Vote::A(1, BOB, ANN),
        ],
        &[Vote::P(1, ANN), Vote::P(1, BOB), Vote::A(1, BOB, ANN)],
        &[Vote::P(1, ANN), Vote::P(1, BOB), Vote::A(1, BOB, ANN)],
    ],
};

#[test]
fn catch_up_settles_one_vote(rt: HostRuntime) {
    assert!(rt; goes(rt.alloc(), &ONE_VOTE));
}

/// What is chosen is learnt, and not bid for.
const CHOSEN: Case<'static> = Case {
    places: &[WITH_ACCEPT, WITH_ACCEPT, WITH_PREPARE],
    bidder: NEW_BOB,
    said: Said::Member(ANN),
    round: 0,
    lists: &[ACCEPTED, ACCEPTED, PREPARED],
};

#[test]
fn what_is_chosen_is_learnt(rt: HostRuntime) {
    assert!(rt; goes(rt.alloc(), &CHOSEN));
}

/// The service with ann's Accept is read once, and then fails.
const LOST_ACCEPT: Place<'static> = Place {
    votes: ACCEPTED,
    fails: &[1],
    courses: &[],
    rest: Course::Done,
};

const NOTHING_LEFT: Case<'static> = Case {
    places: &[LOST_ACCEPT, WITH_PREPARE, WITH_PREPARE],
    bidder: NEW_BOB,
    said: Said::Genesis,
    round: 1,
    lists: &[
        ACCEPTED,
        &[Vote::P(1, ANN), Vote::P(1, BOB)],
        &[Vote::P(1, ANN), Vote::P(1, BOB)],
    ],
};

#[test]
fn catching_up_ends_where_settling_finds_nothing(rt: HostRuntime) {
    assert!(rt; goes(rt.alloc(), &NOTHING_LEFT));
}

/// It is read once, and then fails.
const LOST: Place<'static> = Place {
    votes: PREPARED,
    fails: &[1],
    courses: &[],
    rest: Course::Done,
};

const TWO_FAIL: Case<'static> = Case {
    places: &[WITH_ACCEPT, LOST, LOST],
    bidder: NEW_BOB,
    said: Said::NoMajority(&[1, 2]),
    round: 1,
    lists: &[
        &[Vote::P(1, ANN), Vote::A(1, ANN, ANN), Vote::P(1, BOB)],
        PREPARED,
        PREPARED,
    ],
};

#[test]
fn half_of_the_services_fail_while_settling(rt: HostRuntime) {
    assert!(rt; goes(rt.alloc(), &TWO_FAIL));
}
