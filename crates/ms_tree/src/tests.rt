//! Files, paths and listings whose answers were known before.

use crate::{Files, FilesError, read_listing};
use ms_base::{Bytes, Quantity};
use ms_record::{Place, Refusal};
use std::alloc::Global;
use std::test::*;

/// Paths, and what is said where each is added to the file `b/c`.
const PATHS: [(&str, &str); 19] = [
    ("a", "added"),
    ("b/c", "added"),
    ("b-", "added"),
    ("b", "clash"),
    ("b/c/d", "clash"),
    ("", "no path"),
    ("/", "no path"),
    ("/a", "no path"),
    ("a/", "no path"),
    ("a//b", "no path"),
    (".", "no path"),
    ("..", "no path"),
    ("a/./b", "no path"),
    ("a/..", "no path"),
    ("a\0b", "no path"),
    ("...", "added"),
    (".a/b.", "added"),
    ("a b", "added"),
    ("\u{e4}", "added"),
];

/// Paths of so many parts of such a length, and what is said of them.
const LONG_PATHS: [(usize, usize, &str); 5] = [
    (64, 1, "added"),
    (65, 1, "levels"),
    (1, 201, "part"),
    (41, 24, "added"),
    (42, 24, "path"),
];

/// Listings, and the first line that is wrong; or 0.
const LISTINGS: [(&str, u32); 14] = [
    ("62 6F6b\n612F62 -", 0),
    ("", 0),
    ("612f2e2e -\n", 1),
    ("61 -\n61 -\n", 2),
    ("61 -\n612f62 -\n", 2),
    ("6100 -", 1),
    ("611 -", 1),
    ("- -", 1),
    ("ff -", 1),
    ("61", 1),
    ("61 ", 1),
    ("61  -", 1),
    ("61 - ", 1),
    ("\n", 1),
];

fn limit_said(what: Quantity) -> &'static str {
    match what {
        Quantity::Path => "path",
        Quantity::Part => "part",
        Quantity::Levels => "levels",
        _ => "another",
    }
}

/// What is said where an empty file is added at the path.
fn said(files: &mut Files, alloc: Global, path: &str) -> Option<&'static str> {
    match files.add(path, Bytes::of(alloc, b"").ok()?) {
        Ok(()) => Some("added"),
        Err(FilesError::BadPath) => Some("no path"),
        Err(FilesError::Clash) => Some("clash"),
        Err(FilesError::Limit { what, .. }) => Some(limit_said(what)),
        Err(FilesError::NoMemory) => None,
    }
}

fn is_said(alloc: Global, path: &str, wanted: &str) -> Option<bool> {
    let mut files = Files::new(alloc);
    files.add("b/c", Bytes::of(alloc, b"x").ok()?).ok()?;
    Some(said(&mut files, alloc, path)? == wanted)
}

#[test]
fn paths_and_what_is_said_of_them(rt: HostRuntime) {
    for (path, wanted) in PATHS {
        assert!(rt;
            is_said(rt.alloc(), path, wanted) == Some(true),
            "{path} {wanted}"
        );
    }
}

/// A path of parts of such a length.
fn path_of(alloc: Global, parts: usize, length: usize) -> Option<String> {
    let mut part = String::new(alloc);
    for _ in 0..length {
        part.push('a').ok()?;
    }
    let mut path = part.clone().ok()?;
    for _ in 1..parts {
        path.push('/').ok()?;
        path.push_str(part.as_str()).ok()?;
    }
    Some(path)
}

fn long_is_said(alloc: Global, parts: usize, length: usize, wanted: &str) -> Option<bool> {
    is_said(alloc, path_of(alloc, parts, length)?.as_str(), wanted)
}

#[test]
fn paths_above_their_limits(rt: HostRuntime) {
    for (parts, length, wanted) in LONG_PATHS {
        assert!(rt;
            long_is_said(rt.alloc(), parts, length, wanted) == Some(true),
            "{wanted}"
        );
    }
}

/// The first wrong line of a listing, or 0.
fn wrong_line(alloc: Global, text: &str) -> Option<u32> {
    match read_listing(alloc, text.as_bytes()) {
        Ok(_) => Some(0),
        Err(
            Refusal::BadInput {
                place: Place::Input,
                line,
            },
        ) => Some(line),
        Err(_) => None,
    }
}

#[test]
fn listings_and_their_first_wrong_lines(rt: HostRuntime) {
    for (text, line) in LISTINGS {
        assert!(rt; wrong_line(rt.alloc(), text) == Some(line), "{text}");
    }
}

/// Whether three files stand at their places, with their texts, and one can be taken away.
fn are_kept(alloc: Global) -> Option<bool> {
    let mut files = read_listing(alloc, b"622f63 74657874\n61 -\n622d 78").ok()?;
    let placed = files.path_at(0) == Some("a") && files.path_at(1) == Some("b-");
    let texts = files.get("b/c")? == b"text".as_slice() && files.get("b").is_none();
    let rows = files.rows().ok()?.len() == 3;
    let counted = files.count() == 3 && files.total() == 5;
    let taken = files.remove("b/c") && !files.remove("b/c");
    Some(placed && texts && rows && counted && taken && files.total() == 1)
}

#[test]
fn files_are_kept_by_their_paths(rt: HostRuntime) {
    assert!(rt; are_kept(rt.alloc()) == Some(true));
}

/// So many files without bytes, at the paths `0`, `1` and so on.
pub(crate) fn empty_files(alloc: Global, count: u32) -> Option<Files> {
    let mut files = Files::new(alloc);
    for number in 0..count {
        let path = number.to_string(alloc).ok()?;
        files.add(path.as_str(), Bytes::of(alloc, b"").ok()?).ok()?;
    }
    Some(files)
}
