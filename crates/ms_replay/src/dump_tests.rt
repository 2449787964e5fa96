//! Texts that are dumps, and texts that are none; the laws.

use crate::{lines_are_spelled, one_audit, one_standing, read_dump};
use ms_record::Refusal;
use std::alloc::Global;
use std::test::*;

/// Whether this is the first wrong line of a dump's text.
fn is_wrong_at(alloc: Global, text: &str, wrong: u32) -> bool {
    if text.len() > 1_000_000 {
        return false;
    }
    match read_dump(alloc, text.as_bytes()) {
        Err(Refusal::BadInput { line, .. }) => line == wrong,
        _ => false,
    }
}

/// Texts that are no dumps, each with its first wrong line.
const NO_DUMPS: [(&str, u32); 15] = [
    ("", 1),
    (
        "metasync-dump 1 17 0000000000000000000000000000000000000000000000000000000000000000\n",
        1,
    ),
    (
        "metasync-dump 1 0 0000000000000000000000000000000000000000000000000000000000000000\n",
        1,
    ),
    (
        "metasync-dump 2 3 0000000000000000000000000000000000000000000000000000000000000000\n",
        1,
    ),
    (
        "metasync-dump 1 3 0000000000000000000000000000000000000000000000000000000000000000\r\n",
        1,
    ),
    (
        "metasync-dump 1 3 00000000000000000000000000000000000000000000000000000000000000000\n",
        1,
    ),
    (
        "\nmetasync-dump 1 3 0000000000000000000000000000000000000000000000000000000000000000\n",
        1,
    ),
    (
        "metasync-dump 1 3 0000000000000000000000000000000000000000000000000000000000000000\n3 00",
        2,
    ),
    (
        "metasync-dump 1 3 0000000000000000000000000000000000000000000000000000000000000000\n0 5",
        2,
    ),
    (
        "metasync-dump 1 3 0000000000000000000000000000000000000000000000000000000000000000\n0 00\r\n",
        2,
    ),
    (
        "metasync-dump 1 3 0000000000000000000000000000000000000000000000000000000000000000\n0 \0\n",
        2,
    ),
    (
        "metasync-dump 1 3 0000000000000000000000000000000000000000000000000000000000000000\n0 -\n00 00\n",
        3,
    ),
    (
        "metasync-dump 1 3 0000000000000000000000000000000000000000000000000000000000000000\n0 -\n\n",
        3,
    ),
    (
        "metasync-dump 1 3 0000000000000000000000000000000000000000000000000000000000000000\n0 -\n2 aF\n1  00\n",
        4,
    ),
    (
        "metasync-dump 1 3 0000000000000000000000000000000000000000000000000000000000000000\n0 -\n2 aF\n1 00\n3 -",
        5,
    ),
];

#[test]
fn bad_dump_lines(rt: HostRuntime) {
    for (text, line) in NO_DUMPS {
        assert!(rt; is_wrong_at(rt.alloc(), text, line));
    }
}

/// The head, and lines of two lists.
const TWO_LISTS: &str =
    "metasync-dump 1 3 0000000000000000000000000000000000000000000000000000000000000000\n0 -\n2 aF";

/// How many services the dump of the text has, and how many texts the last of its lists.
fn counts(alloc: Global, text: &str) -> Option<(u32, u64)> {
    if text.len() > 1_000_000 {
        return None;
    }
    let dump = read_dump(alloc, text.as_bytes()).ok()?;
    let last = dump.lists.as_slice().last()?;
    Some((dump.services, last.len()))
}

#[test]
fn a_dump_of_two_lists(rt: HostRuntime) {
    assert_eq!(rt; counts(rt.alloc(), TWO_LISTS), Some((3, 1)));
}

#[test]
fn laws_of_lines_standings_and_audits() {
    lines_are_spelled();
    one_standing();
    one_audit();
}
