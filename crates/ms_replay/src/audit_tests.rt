//! Dumps whose chains and splits were known before.

use crate::test_texts::*;
use crate::{Audit, audit_dump, read_dump};
use ms_record::Entry;
use std::alloc::Global;
use std::test::*;

/// What an audit of the dump of these pieces says; nothing for a bad line.
fn audit(alloc: Global, pieces: &[&str]) -> Option<Audit> {
    let text = text_of(alloc, pieces).ok()?;
    if text.len() > 1_000_000 {
        return None;
    }
    let dump = read_dump(alloc, &text).ok()?;
    audit_dump(alloc, &dump).ok()
}

/// Whether an audit of the dump of these pieces shows a chain of entries with these names.
fn shows(alloc: Global, pieces: &[&str], names: &[[u8; 32]]) -> bool {
    match audit(alloc, pieces) {
        Some(Audit::Linked { entries }) => are_names(entries.as_slice(), names),
        _ => false,
    }
}

/// Whether these are the names of the entries.
fn are_names(entries: &[Entry], names: &[[u8; 32]]) -> bool {
    if entries.len() != names.len() {
        return false;
    }
    for i in 0..entries.len() {
        if ms_record::entry_name(&entries[i]).0 != names[i] {
            return false;
        }
    }
    true
}

/// Whether an audit of the dump of these pieces shows that X and Y are chosen at the position.
fn splits(alloc: Global, pieces: &[&str], at: u32) -> bool {
    match audit(alloc, pieces) {
        Some(
            Audit::Split {
                position,
                first,
                second,
            },
        ) => position == at && first.0 == NAME_OF_X && second.0 == NAME_OF_Y,
        _ => false,
    }
}

#[test]
fn audit_of_the_head_alone(rt: HostRuntime) {
    assert!(rt; shows(rt.alloc(), &[HEAD_OF_3], &[]));
}

const TWO_OF_FOUR: [&str; 8] = [HEAD_OF_4, "0 ", A_1_1_0, X, "\n1 ", A_1_1_0, X, "\n"];

#[test]
fn two_of_four_is_no_majority(rt: HostRuntime) {
    assert!(rt; shows(rt.alloc(), &TWO_OF_FOUR, &[]));
}

const BELOW_A_PROMISE: [&str; 10] = [
    HEAD_OF_3, "0 ", P_1_2_1, "\n0 ", A_1_1_0, X, "\n1 ", A_1_1_0, X, "\n",
];

#[test]
fn accept_below_a_promise_is_not_taken(rt: HostRuntime) {
    assert!(rt; shows(rt.alloc(), &BELOW_A_PROMISE, &[]));
}

const APART: [&str; 8] = [HEAD_OF_3, "0 ", A_1_1_0, X, "\n1 ", A_1_2_1, X, "\n"];

#[test]
fn votes_count_under_one_ballot(rt: HostRuntime) {
    assert!(rt; shows(rt.alloc(), &APART, &[]));
}

const TOGETHER: [&str; 8] = [HEAD_OF_3, "0 ", A_1_2_1, X, "\n1 ", A_1_2_1, X, "\n"];

#[test]
fn votes_under_one_ballot_choose(rt: HostRuntime) {
    assert!(rt; shows(rt.alloc(), &TOGETHER, &[NAME_OF_X]));
}

const TWO_CHOSEN: [&str; 8] = [HEAD_OF_1, "0 ", A_1_1_0, X, "\n0 ", A_1_2_1, Y, "\n"];

#[test]
fn two_chosen_entries_are_a_split(rt: HostRuntime) {
    assert!(rt; splits(rt.alloc(), &TWO_CHOSEN, 1));
}

const TWO_OF_ONE_BALLOT: [&str; 8] = [HEAD_OF_1, "0 ", A_1_1_0, Y, "\n0 ", A_1_1_0, X, "\n"];

#[test]
fn two_of_one_ballot_are_split_by_their_bytes(rt: HostRuntime) {
    assert!(rt; splits(rt.alloc(), &TWO_OF_ONE_BALLOT, 1));
}

const NO_CHAIN_LEADS: [&str; 8] = [HEAD_OF_1, "0 ", A_2_1_0, X, "\n0 ", A_2_2_1, Y, "\n"];

#[test]
fn no_chain_leads_to_two_entries_at_position_2(rt: HostRuntime) {
    assert!(rt; shows(rt.alloc(), &NO_CHAIN_LEADS, &[]));
}

const NEXT_VOTERS: [&str; 11] = [
    HEAD_OF_3, "0 ", A_1_1_0, L, "\n1 ", A_1_1_0, L, "\n0 ", A_2_2_0, Q, "\n",
];

#[test]
fn voters_follow_the_plan(rt: HostRuntime) {
    assert!(rt; shows(rt.alloc(), &NEXT_VOTERS, &[NAME_OF_L, NAME_OF_Q]));
}

const FORMER_VOTERS: [&str; 14] = [
    HEAD_OF_3, "0 ", A_1_1_0, L, "\n1 ", A_1_1_0, L, "\n1 ", A_2_2_0, Q, "\n2 ", A_2_2_0, Q, "\n",
];

#[test]
fn votes_of_former_voters(rt: HostRuntime) {
    assert!(rt; shows(rt.alloc(), &FORMER_VOTERS, &[NAME_OF_L]));
}

const REPEATS: [&str; 22] = [
    HEAD_OF_3,
    "0 ",
    P_1_1_0,
    "\n0 ",
    A_1_1_0,
    X,
    "\n0 ",
    A_1_1_0,
    X,
    "\n0 ",
    P_1_1_0,
    "\n1 ",
    P_1_1_0,
    "\n1 -\n1 ff\n1 ",
    A_1_1_0,
    X,
    "\n1 ",
    A_1_1_0,
    X,
    "\n1 ",
    P_1_1_0,
    "\n",
];

#[test]
fn repeats_and_foreign_entries_change_nothing(rt: HostRuntime) {
    assert!(rt; shows(rt.alloc(), &REPEATS, &[NAME_OF_X]));
}

/// Three members, the second with a plan of services 0 and 2; a fourth whose plan falls back does not link on.
const THREE_MEMBERS: [&str; 25] = [
    HEAD_OF_3,
    "2 ",
    A_3_1_0,
    PUSH_BEHIND,
    "\n0 ",
    A_1_1_0,
    X,
    "\n1 ",
    A_1_1_0,
    X,
    "\n0 ",
    A_2_2_1,
    PLAN,
    "\n2 ",
    A_2_2_1,
    PLAN,
    "\n0 ",
    A_3_1_0,
    PUSH_BEHIND,
    "\n0 ",
    A_4_1_0,
    OLD_PLAN,
    "\n2 ",
    A_4_1_0,
    OLD_PLAN,
];

#[test]
fn a_chain_goes_on_while_entries_link_on(rt: HostRuntime) {
    assert!(rt;
        shows(
            rt.alloc(),
            &THREE_MEMBERS,
            &[NAME_OF_X, NAME_OF_PLAN, NAME_OF_PUSH_BEHIND]
        )
    );
}
