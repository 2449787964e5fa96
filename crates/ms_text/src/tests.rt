//! Lines, words and numbers whose values were known before.

use crate::{
    Label, bytes, first_wrong_lines, hex_bytes, is_client_label, name, next_line, number,
    push_name, push_number, push_text, split_at_space, words_are_joined,
};
use std::alloc::Global;
use std::test::*;

/// Texts, each with its first line and the text after it.
const CUTS: [(&[u8], &[u8], &[u8]); 5] = [
    (b"ab\n\nc", b"ab", b"\nc"),
    (b"\nc", b"", b"c"),
    (b"c", b"c", b""),
    (b"c\n", b"c", b""),
    (b"c\r\n", b"c\r", b""),
];

/// Whether the text has this first line, and this text after it.
fn is_cut(text: &[u8], line: &[u8], rest: &[u8]) -> bool {
    if text.is_empty() {
        return false;
    }
    let (first, after) = next_line(text);
    first == line && after == rest
}

#[test]
fn a_text_is_cut_at_each_line_feed(rt: HostRuntime) {
    for (text, line, rest) in CUTS {
        assert!(rt; is_cut(text, line, rest));
    }
}

#[test]
fn laws_of_lines_and_words() {
    first_wrong_lines::<u8, u8>();
    words_are_joined();
}

/// Words that are no number up to 9.
const NO_NUMBERS: [&[u8]; 8] = [
    b"",
    b"00",
    b"01",
    b"+1",
    b"-1",
    b"1 ",
    b"10",
    b"18446744073709551616",
];

#[test]
fn numbers_have_one_spelling(rt: HostRuntime) {
    for word in NO_NUMBERS {
        assert!(rt; number(word, 9).is_none());
    }
}

#[test]
fn the_greatest_number_is_read(rt: HostRuntime) {
    assert_eq!(rt; number(b"18446744073709551615", u64::MAX), Some(u64::MAX));
    assert_eq!(rt; number(b"0", 9), Some(0));
}

/// Whether the word spells these bytes.
fn spells(alloc: Global, word: &[u8], wanted: &[u8]) -> bool {
    match bytes(alloc, word) {
        Ok(Some(read)) => read.as_slice() == wanted,
        _ => false,
    }
}

#[test]
fn hexadecimal_has_two_cases(rt: HostRuntime) {
    assert!(rt; spells(rt.alloc(), b"0aFf", &[10, 255]));
    assert!(rt; spells(rt.alloc(), b"-", &[]));
    assert!(rt; matches!(hex_bytes(rt.alloc(), b"-"), Ok(None)));
}

/// Words that spell no bytes.
const NO_BYTES: [&[u8]; 5] = [b"", b"a", b"0g", b"--", b"abc"];

fn spells_nothing(alloc: Global, word: &[u8]) -> bool {
    matches!(bytes(alloc, word), Ok(None))
}

#[test]
fn words_that_are_no_bytes(rt: HostRuntime) {
    for word in NO_BYTES {
        assert!(rt; spells_nothing(rt.alloc(), word));
    }
}

#[test]
fn a_name_has_64_digits(rt: HostRuntime) {
    assert!(rt; name(&[b'1'; 64]) == Some([17; 32]));
    assert!(rt; name(&[b'1'; 63]).is_none());
}

/// Whether a text, a number and a name are put one after the other.
fn prints(alloc: Global) -> bool {
    let mut out = Vec::new(alloc);
    let pushed = push_text(&mut out, b"a ").is_ok()
        && push_number(&mut out, 10).is_ok()
        && push_name(&mut out, &[171; 32]).is_ok();
    pushed && out.starts_with(b"a 10abab") && out.len() == 68
}

#[test]
fn words_are_printed(rt: HostRuntime) {
    assert!(rt; prints(rt.alloc()));
}

#[test]
fn words_are_cut_at_the_first_space(rt: HostRuntime) {
    assert!(rt; split_at_space(b"a  b").is_some());
    assert!(rt; split_at_space(b"ab").is_none());
}

/// Labels of services and clients.
const LABELS: [&[u8]; 5] = [b"a", b"0", b"_", b"a-", b"abcdefghijklmnopqrstuvwx"];

#[test]
fn labels(rt: HostRuntime) {
    for label in LABELS {
        assert!(rt; is_client_label(label));
    }
}

/// Texts that are no label.
const NO_LABELS: [&[u8]; 7] = [
    b"",
    b"-",
    b"-a",
    b"A",
    b"a.b",
    b"a b",
    b"abcdefghijklmnopqrstuvwxy",
];

#[test]
fn texts_that_are_no_label(rt: HostRuntime) {
    for label in NO_LABELS {
        assert!(rt; !is_client_label(label));
    }
}

/// Whether the text is taken as a label.
fn is_taken(alloc: Global, text: &str) -> bool {
    match Label::of(alloc, text) {
        Ok(Some(label)) => label.as_str() == text,
        _ => false,
    }
}

#[test]
fn a_label_is_its_text(rt: HostRuntime) {
    assert!(rt; is_taken(rt.alloc(), "ann"));
}
