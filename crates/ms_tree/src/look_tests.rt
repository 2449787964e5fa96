//! Files whose blobs are made by hand, and the first that is wrong.

use crate::{file_parts, wrong_blob};
use ms_base::{Bytes, Name};
use ms_object::{Format, Store};
use std::alloc::Global;
use std::test::*;

/// A format, the size of a file, the tags and the lengths of its two blobs, and which of them is wrong.
const FILES: [(Format, u64, [(u8, usize); 2], &str); 10] = [
    (Format::One, 65537, [(b'B', 65536), (b'B', 1)], "none"),
    (Format::One, 131072, [(b'B', 65536), (b'B', 65536)], "none"),
    // a blob of the other format
    (Format::One, 65537, [(b'C', 65536), (b'B', 1)], "first"),
    (Format::One, 65537, [(b'B', 65536), (b'C', 1)], "second"),
    // the first of two
    (Format::One, 65537, [(b'B', 65535), (b'B', 2)], "first"),
    // a byte too few, and one too many
    (Format::One, 65538, [(b'B', 65536), (b'B', 1)], "second"),
    (Format::One, 65537, [(b'B', 65536), (b'B', 2)], "second"),
    (Format::Two, 1048577, [(b'C', 1048576), (b'C', 1)], "none"),
    (Format::Two, 1048577, [(b'C', 1048575), (b'C', 1)], "first"),
    (Format::Two, 1048577, [(b'C', 1048576), (b'B', 1)], "second"),
];

/// Puts a text of a tag and so many zero bytes into a store.
fn put_blob(alloc: Global, store: &mut Store, tag: u8, length: usize) -> Option<Name> {
    let mut text = Vec::new(alloc);
    text.push(tag).ok()?;
    text.resize(length.checked_add(1)?, 0).ok()?;
    store.add(Bytes::from_vec(text)).ok()
}

/// Puts the object of a file of two blobs into a store.
fn put_file(alloc: Global, store: &mut Store, tag: u8, size: u64, blobs: &[Name]) -> Option<Name> {
    let mut text = Vec::new(alloc);
    text.push(tag).ok()?;
    text.extend_from_slice(&size.to_be_bytes()).ok()?;
    text.extend_from_slice(b"\0\0\0\x02").ok()?;
    for blob in blobs {
        text.extend_from_slice(&blob.0).ok()?;
    }
    store.add(Bytes::from_vec(text)).ok()
}

/// The first wrong blob of a file, where all are there.
fn first_wrong(alloc: Global, store: &Store, format: Format, file: &Name) -> Option<Option<Name>> {
    let file = file_parts(alloc, store, format, file).ok()?;
    if !file
        .blobs
        .as_slice()
        .iter()
        .all(|blob| store.get(blob).is_some())
    {
        return None;
    }
    Some(wrong_blob(store, format, &file))
}

fn is_wrong(
    alloc: Global,
    format: Format,
    size: u64,
    blobs: [(u8, usize); 2],
    wanted: &str,
) -> Option<bool> {
    let mut store = Store::new(alloc);
    let first = put_blob(alloc, &mut store, blobs[0].0, blobs[0].1)?;
    let second = put_blob(alloc, &mut store, blobs[1].0, blobs[1].1)?;
    let tag = match format {
        Format::One => b'F',
        Format::Two => b'G',
    };
    let file = put_file(alloc, &mut store, tag, size, &[first, second])?;
    let found = first_wrong(alloc, &store, format, &file)?;
    Some(match wanted {
        "first" => found == Some(first),
        "second" => found == Some(second),
        _ => found == None,
    })
}

#[test]
fn the_first_wrong_blob(rt: HostRuntime) {
    for (format, size, blobs, wanted) in FILES {
        assert!(rt;
            is_wrong(rt.alloc(), format, size, blobs, wanted) == Some(true),
            "{size} {wanted}"
        );
    }
}
