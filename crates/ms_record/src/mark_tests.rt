//! Texts of marks that were known before.

use crate::test_values::*;
use crate::{RefMark, parse_mark, write_mark};
use std::alloc::Global;
use std::test::*;

/// The name of ones.
const NAME: &str = "1111111111111111111111111111111111111111111111111111111111111111";

/// The digits before the name, the number and the position.
const MARKS: [(&str, u32, u32); 3] = [
    ("520000000100000003", 1, 3),
    ("520000000000000000", 0, 0),
    ("52fffffffffffffffe", 4_294_967_295, 4_294_967_294),
];

/// Digits before the name, and behind it, of texts that are no marks.
const NO_MARKS: [(&str, &str); 6] = [
    // another tag
    ("500000000100000003", ""),
    ("720000000100000003", ""),
    // the position past the last one
    ("5200000001ffffffff", ""),
    // a byte missing, a byte left over
    ("5200000001000003", ""),
    ("520000000100000003", "00"),
    // nothing but the tag's place
    ("", ""),
];

fn mark(number: u32, position: u32) -> RefMark {
    RefMark {
        number,
        position,
        name: ONES,
    }
}

/// Whether the mark is read from these digits and the name.
fn is_read(alloc: Global, head: &str, number: u32, position: u32) -> bool {
    match bytes(alloc, &[head, NAME]) {
        Ok(text) => parse_mark(&text) == Some(mark(number, position)),
        Err(_) => false,
    }
}

/// Whether the mark is written as these digits and the name.
fn is_written(alloc: Global, head: &str, number: u32, position: u32) -> bool {
    let mut out = Vec::new(alloc);
    match bytes(alloc, &[head, NAME]) {
        Ok(text) => {
            write_mark(&mark(number, position), &mut out).is_ok()
                && out.as_slice() == text.as_slice()
        }
        Err(_) => false,
    }
}

/// Whether these digits, with the name between, are no mark.
fn is_refused(alloc: Global, head: &str, tail: &str) -> bool {
    match bytes(alloc, &[head, NAME, tail]) {
        Ok(text) => parse_mark(&text).is_none(),
        Err(_) => false,
    }
}

#[test]
fn marks_are_read(rt: HostRuntime) {
    for (head, number, position) in MARKS {
        assert!(rt; is_read(rt.alloc(), head, number, position));
    }
}

#[test]
fn marks_are_written(rt: HostRuntime) {
    for (head, number, position) in MARKS {
        assert!(rt; is_written(rt.alloc(), head, number, position));
    }
}

#[test]
fn texts_that_are_no_marks(rt: HostRuntime) {
    for (head, tail) in NO_MARKS {
        assert!(rt; is_refused(rt.alloc(), head, tail));
    }
}
