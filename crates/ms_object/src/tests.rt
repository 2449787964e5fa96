//! Texts, names and stores whose values were known before.

use crate::{
    Object, ObjectError, Store, children, is_label, name_of, parse, write_blob, write_blob2,
    write_dir, write_dir2, write_file, write_file2, write_version, write_version2,
};
use ms_base::{Bytes, Name};
use std::alloc::Global;
use std::test::*;

/// Texts of objects of both formats, as digits.
const OBJECTS: [&str; 18] = [
    // the empty blob
    "42",
    "42616263",
    // the empty file
    "46000000000000000000000000",
    "460000000000010000000000011111111111111111111111111111111111111111111111111111111111111111",
    // the file of 65,537 bytes
    "4600000000000100010000000200000000000000000000000000000000000000000000000000000000000000001111111111111111111111111111111111111111111111111111111111111111",
    "4400000000",
    // the file `a` and the directory `ab`
    "44000000026601610000000000000000000000000000000000000000000000000000000000000000640261621111111111111111111111111111111111111111111111111111111111111111",
    "560000000000000000001111111111111111111111111111111111111111111111111111111111111111",
    "560000000fffffffff02111111111111111111111111111111111111111111111111111111111111111122222222222222222222222222222222222222222222222222222222222222220000000000000000000000000000000000000000000000000000000000000000",
    "4361",
    "43616263",
    // the empty file of format 2
    "47000000000000000000000000",
    // the file of 65,537 bytes in format 2
    "470000000000010001000000010000000000000000000000000000000000000000000000000000000000000000",
    // the file of 1,048,577 bytes in format 2
    "4700000000001000010000000200000000000000000000000000000000000000000000000000000000000000001111111111111111111111111111111111111111111111111111111111111111",
    // the empty directory of format 2
    "4500000000",
    // the file `a` of 7 bytes and the directory `ab` of 2^32 bytes
    "4500000002660161000000000000000700000000000000000000000000000000000000000000000000000000000000006402616200000001000000001111111111111111111111111111111111111111111111111111111111111111",
    "570000000000000000001111111111111111111111111111111111111111111111111111111111111111",
    "570000000fffffffff02111111111111111111111111111111111111111111111111111111111111111122222222222222222222222222222222222222222222222222222222222222220000000000000000000000000000000000000000000000000000000000000000",
];

/// Texts that are no objects.
const NO_OBJECTS: [&str; 26] = [
    // nothing
    "",
    // a tag alone
    "44",
    // a record
    "50000000010000000300000000",
    // a directory with a row missing
    "4400000001",
    // a directory with a byte more
    "440000000000",
    // a directory of 100,001 rows
    "44000186a1",
    // an empty file with a byte more
    "4600000000000000000000000000",
    // an empty file with a blob, which is missing
    "46000000000000000000000001",
    // a file of one byte without a blob
    "46000000000000000100000000",
    // a file of one byte with two blobs
    "4600000000000000010000000200000000000000000000000000000000000000000000000000000000000000001111111111111111111111111111111111111111111111111111111111111111",
    // a file of 65,536 bytes with two blobs
    "4600000000000100000000000200000000000000000000000000000000000000000000000000000000000000001111111111111111111111111111111111111111111111111111111111111111",
    // a file of 67,108,865 bytes without blobs
    "46000000000400000100000000",
    // two equal labels
    "440000000266016100000000000000000000000000000000000000000000000000000000000000006401611111111111111111111111111111111111111111111111111111111111111111",
    // labels out of order
    "440000000266016200000000000000000000000000000000000000000000000000000000000000006401611111111111111111111111111111111111111111111111111111111111111111",
    // neither a file nor a directory
    "44000000016701610000000000000000000000000000000000000000000000000000000000000000",
    // an empty label
    "440000000166000000000000000000000000000000000000000000000000000000000000000000",
    // `.`
    "440000000166012e0000000000000000000000000000000000000000000000000000000000000000",
    // `..`
    "440000000166022e2e0000000000000000000000000000000000000000000000000000000000000000",
    // `/`
    "440000000166012f0000000000000000000000000000000000000000000000000000000000000000",
    // a NUL
    "44000000016601000000000000000000000000000000000000000000000000000000000000000000",
    // not UTF-8
    "44000000016601ff0000000000000000000000000000000000000000000000000000000000000000",
    // a row more than counted
    "44000000016601610000000000000000000000000000000000000000000000000000000000000000640261621111111111111111111111111111111111111111111111111111111111111111",
    // a row with a size
    "440000000166016100000000000000070000000000000000000000000000000000000000000000000000000000000000",
    // client 16
    "5600000010000000000100000000000000000000000000000000000000000000000000000000000000001111111111111111111111111111111111111111111111111111111111111111",
    // a parent more than counted
    "5600000000000000000000000000000000000000000000000000000000000000000000000000000000001111111111111111111111111111111111111111111111111111111111111111",
    // three parents
    "560000000000000000030000000000000000000000000000000000000000000000000000000000000000000000000000000000000000000000000000000000000000000000000000000000000000000000000000000000000000000000000000000000000000000000001111111111111111111111111111111111111111111111111111111111111111",
];

/// Texts that begin as objects of format 2, and are none.
const BAD_TEXTS_OF_FORMAT_2: [&str; 14] = [
    // an empty blob
    "43",
    // an empty file with a byte more
    "4700000000000000000000000000",
    // a file of one byte without a blob
    "47000000000000000100000000",
    // a file of 65,537 bytes with the two blobs of format 1
    "4700000000000100010000000200000000000000000000000000000000000000000000000000000000000000001111111111111111111111111111111111111111111111111111111111111111",
    // a file of 1,073,741,825 bytes without blobs
    "47000000004000000100000000",
    // a directory of 100,001 rows
    "45000186a1",
    // a row without a size
    "45000000016601610000000000000000000000000000000000000000000000000000000000000000",
    // two equal labels
    "45000000026601610000000000000000000000000000000000000000000000000000000000000000000000000000000064016100000000000000001111111111111111111111111111111111111111111111111111111111111111",
    // labels out of order
    "45000000026601620000000000000000000000000000000000000000000000000000000000000000000000000000000064016100000000000000001111111111111111111111111111111111111111111111111111111111111111",
    // `.`
    "450000000166012e00000000000000000000000000000000000000000000000000000000000000000000000000000000",
    // a byte more
    "450000000000",
    // client 16
    "5700000010000000000100000000000000000000000000000000000000000000000000000000000000001111111111111111111111111111111111111111111111111111111111111111",
    // a parent more than counted
    "5700000000000000000000000000000000000000000000000000000000000000000000000000000000001111111111111111111111111111111111111111111111111111111111111111",
    // three parents
    "570000000000000000030000000000000000000000000000000000000000000000000000000000000000000000000000000000000000000000000000000000000000000000000000000000000000000000000000000000000000000000000000000000000000000000001111111111111111111111111111111111111111111111111111111111111111",
];

/// Texts of objects, and the names in them one after another.
const CHILDREN: [(&str, &str); 9] = [
    ("42616263", ""),
    ("4361", ""),
    (
        "4600000000000100010000000200000000000000000000000000000000000000000000000000000000000000001111111111111111111111111111111111111111111111111111111111111111",
        "00000000000000000000000000000000000000000000000000000000000000001111111111111111111111111111111111111111111111111111111111111111",
    ),
    (
        "470000000000010001000000010000000000000000000000000000000000000000000000000000000000000000",
        "0000000000000000000000000000000000000000000000000000000000000000",
    ),
    (
        "44000000026601610000000000000000000000000000000000000000000000000000000000000000640261621111111111111111111111111111111111111111111111111111111111111111",
        "00000000000000000000000000000000000000000000000000000000000000001111111111111111111111111111111111111111111111111111111111111111",
    ),
    (
        "4500000002660161000000000000000700000000000000000000000000000000000000000000000000000000000000006402616200000001000000001111111111111111111111111111111111111111111111111111111111111111",
        "00000000000000000000000000000000000000000000000000000000000000001111111111111111111111111111111111111111111111111111111111111111",
    ),
    (
        "560000000fffffffff02111111111111111111111111111111111111111111111111111111111111111122222222222222222222222222222222222222222222222222222222222222220000000000000000000000000000000000000000000000000000000000000000",
        "0000000000000000000000000000000000000000000000000000000000000000",
    ),
    (
        "570000000fffffffff02111111111111111111111111111111111111111111111111111111111111111122222222222222222222222222222222222222222222222222222222222222220000000000000000000000000000000000000000000000000000000000000000",
        "0000000000000000000000000000000000000000000000000000000000000000",
    ),
    ("4500000000", ""),
];

/// The file of 65,537 bytes in format 2.
const FILE_OF_FORMAT_2: &str =
    "470000000000010001000000011111111111111111111111111111111111111111111111111111111111111111";

/// Blobs by their tags and their bytes, and whether they are read.
const BLOBS: [(u8, usize, bool); 5] = [
    (b'B', 0, true),
    (b'B', 65_536, true),
    (b'B', 65_537, false),
    (b'C', 1_048_576, true),
    (b'C', 1_048_577, false),
];

/// Texts and their names.
const NAMES: [(&str, &str); 4] = [
    (
        "",
        "e3b0c44298fc1c149afbf4c8996fb92427ae41e4649b934ca495991b7852b855",
    ),
    (
        "616263",
        "ba7816bf8f01cfea414140de5dae2223b00361a396177a9cb410ff61f20015ad",
    ),
    (
        "42",
        "df7e70e5021544f4834bbee64a9e3789febc4be81470df629cad6ddb03320a5c",
    ),
    (
        "4400000000",
        "093f931703155bc6bf1c13039ffdb49856410b2b359c93cab8e52059073ecef9",
    ),
];

/// Labels, as digits, and whether they may be parts of paths.
const LABELS: [(&str, bool); 8] = [
    ("61", true),
    ("2e2e2e", true),
    ("c3a4", true),
    ("0a", true),
    ("612f62", false),
    ("6100", false),
    ("c3", false),
    ("", false),
];

fn bytes(alloc: Global, digits: &str) -> Option<Vec<u8>> {
    hex::decode(alloc, digits.as_bytes()).ok()
}

/// The object that is read, written behind an `=`.
fn written(alloc: Global, text: &[u8]) -> Option<Vec<u8>> {
    let mut out = Vec::new(alloc);
    out.push(b'=').ok()?;
    let done = match parse(alloc, text).ok()? {
        Object::Blob { text } => write_blob(text.as_slice(), &mut out),
        Object::File { size, blobs } => write_file(size, blobs.as_slice(), &mut out),
        Object::Dir { rows } => write_dir(&rows, &mut out),
        Object::Version {
            client,
            number,
            parents,
            root,
        } => write_version(client, number, parents.as_slice(), &root, &mut out),
        Object::Blob2 { text } => write_blob2(text.as_slice(), &mut out),
        Object::File2 { size, blobs } => write_file2(size, blobs.as_slice(), &mut out),
        Object::Dir2 { rows } => write_dir2(&rows, &mut out),
        Object::Version2 {
            client,
            number,
            parents,
            root,
        } => write_version2(client, number, parents.as_slice(), &root, &mut out),
    };
    done.ok()?;
    Some(out)
}

fn is_written_again(alloc: Global, digits: &str) -> Option<bool> {
    let text = bytes(alloc, digits)?;
    let out = written(alloc, &text)?;
    Some(out.strip_prefix(b"=".as_slice())? == text.as_slice())
}

fn is_refused(alloc: Global, digits: &str) -> Option<bool> {
    let text = bytes(alloc, digits)?;
    let refused = matches!(parse(alloc, &text), Err(ObjectError::NotAnObject));
    Some(refused && matches!(children(alloc, &text), Err(ObjectError::NotAnObject)))
}

/// Whether a part of an object's text from its beginning is one: that of a blob, which has a byte in format 2.
fn is_begun(text: &[u8]) -> bool {
    match text {
        [b'B', ..] => true,
        [b'C', _, ..] => true,
        _ => false,
    }
}

/// Whether each part of the text from its beginning, but all of it, is read as the grammar says.
fn are_begun_as_said(alloc: Global, digits: &str) -> Option<bool> {
    let text = bytes(alloc, digits)?;
    for length in 0..text.len() {
        let begun = &text[..length];
        let is = is_begun(begun);
        if parse(alloc, begun).is_ok() != is || children(alloc, begun).is_ok() != is {
            return Some(false);
        }
    }
    Some(true)
}

fn blob_is_read(alloc: Global, tag: u8, size: usize) -> Option<bool> {
    let mut text = Vec::new(alloc);
    text.push(tag).ok()?;
    text.resize(size.checked_add(1)?, b'x').ok()?;
    Some(parse(alloc, &text).is_ok())
}

/// The names in the object, one after another.
fn names_in(alloc: Global, digits: &str) -> Option<Vec<u8>> {
    let names = children(alloc, &bytes(alloc, digits)?).ok()?;
    let mut out = Vec::new(alloc);
    for name in names.as_slice() {
        out.extend_from_slice(&name.0).ok()?;
    }
    Some(out)
}

fn has_children(alloc: Global, digits: &str, names: &str) -> Option<bool> {
    let wanted = bytes(alloc, names)?;
    Some(names_in(alloc, digits)?.as_slice() == wanted.as_slice())
}

fn has_name(alloc: Global, digits: &str, name: &str) -> Option<bool> {
    let text = bytes(alloc, digits)?;
    let wanted = <[u8; 32] as hex::FromHex>::from_hex(name.as_bytes()).ok()?;
    Some(name_of(&text) == Name(wanted))
}

#[test]
fn what_is_read_is_written_again(rt: HostRuntime) {
    for digits in OBJECTS {
        assert!(rt;
            is_written_again(rt.alloc(), digits) == Some(true),
            "{digits}"
        );
    }
}

#[test]
fn texts_that_are_no_objects(rt: HostRuntime) {
    for digits in NO_OBJECTS {
        assert!(rt; is_refused(rt.alloc(), digits) == Some(true), "{digits}");
    }
}

#[test]
fn bad_texts_of_format_2(rt: HostRuntime) {
    for digits in BAD_TEXTS_OF_FORMAT_2 {
        assert!(rt; is_refused(rt.alloc(), digits) == Some(true), "{digits}");
    }
}

#[test]
fn texts_that_are_cut(rt: HostRuntime) {
    for digits in OBJECTS {
        assert!(rt;
            are_begun_as_said(rt.alloc(), digits) == Some(true),
            "{digits}"
        );
    }
}

/// The file of 65,537 bytes in format 2 has 45 bytes.
#[test]
fn file_of_format_2(rt: HostRuntime) -> Result<(), Fail> {
    let alloc = rt.alloc();
    let mut out = Vec::new(alloc);
    write_file2(65_537, &[Name([0x11; 32])], &mut out)
        .ok()
        .ok_or("memory")?;
    let wanted = bytes(alloc, FILE_OF_FORMAT_2).ok_or("digits")?;
    assert_eq!(rt; out.len(), 45);
    assert!(rt; out.as_slice() == wanted.as_slice());
    Ok(())
}

#[test]
fn blobs_have_their_sizes(rt: HostRuntime) {
    for (tag, size, is) in BLOBS {
        assert!(rt; blob_is_read(rt.alloc(), tag, size) == Some(is), "{size}");
    }
}

#[test]
fn a_text_has_at_most_33_554_432_bytes(rt: HostRuntime) -> Result<(), Fail> {
    let text = vec![in rt.alloc(); 0u8; 33_554_433]?;
    let read = children(rt.alloc(), &text);
    assert!(rt; matches!(read, Err(ObjectError::TooLarge { bytes: 33_554_433 })));
    Ok(())
}

#[test]
fn children_of_each_kind(rt: HostRuntime) {
    for (digits, names) in CHILDREN {
        assert!(rt;
            has_children(rt.alloc(), digits, names) == Some(true),
            "{digits}"
        );
    }
}

#[test]
fn names_of_texts(rt: HostRuntime) {
    for (digits, name) in NAMES {
        assert!(rt; has_name(rt.alloc(), digits, name) == Some(true), "{name}");
    }
}

fn is_label_as_said(alloc: Global, digits: &str, is: bool) -> Option<bool> {
    let label = bytes(alloc, digits)?;
    Some(is_label(&label) == is)
}

#[test]
fn labels_are_parts_of_paths(rt: HostRuntime) {
    for (digits, is) in LABELS {
        assert!(rt;
            is_label_as_said(rt.alloc(), digits, is) == Some(true),
            "{digits}"
        );
    }
}

/// Whether the store has two texts once three were added, of which two are one.
fn keeps_each_once(alloc: Global) -> Option<bool> {
    let mut store = Store::new(alloc);
    let first = store.add(Bytes::of(alloc, b"abc").ok()?).ok()?;
    store.add(Bytes::of(alloc, b"B").ok()?).ok()?;
    let again = store.add(Bytes::of(alloc, b"abc").ok()?).ok()?;
    let names = store.names(alloc).ok()?;
    Some(first == again && store.len() == 2 && names.get(0).copied() == Some(first))
}

#[test]
fn a_store_has_each_text_once(rt: HostRuntime) {
    assert!(rt; keeps_each_once(rt.alloc()) == Some(true));
}
