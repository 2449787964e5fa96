//! States whose texts were known before, and keepers and folders in memory, some of whose calls fail.

use crate::{
    Base, Keeper, Kept, MemoryKeeper, MemoryWork, Todo, Work, keep_objects, kept_laws, kept_object,
    parse_kept, push_kept, read_kept, write_kept,
};
use ms_base::{Bytes, Name};
use ms_object::Store;
use ms_record::{Key, Refusal};
use ms_tree::Files;
use std::alloc::Global;
use std::test::*;

/// A state of round 3 and number 7 at position 2, whose names repeat the letters e, v and h.
const PLAIN: &[u8] =
    b"K\0\0\0\x03\0\0\0\x07\0\0\0\x02eeeeeeeeeeeeeeeeeeeeeeeeeeeeeeeevvvvvvvvvvvvvvvvvvvvvvvvvvvvvvvvhhhhhhhhhhhhhhhhhhhhhhhhhhhhhhhh\0";

/// The same state with a change to position 9, from the root of letters b to that of letters a.
const CHANGING: &[u8] =
    b"K\0\0\0\x03\0\0\0\x07\0\0\0\x02eeeeeeeeeeeeeeeeeeeeeeeeeeeeeeeevvvvvvvvvvvvvvvvvvvvvvvvvvvvvvvvhhhhhhhhhhhhhhhhhhhhhhhhhhhhhhhh\x01\0\0\0\x09ffffffffffffffffffffffffffffffffwwwwwwwwwwwwwwwwwwwwwwwwwwwwwwwwbbbbbbbbbbbbbbbbbbbbbbbbbbbbbbbbaaaaaaaaaaaaaaaaaaaaaaaaaaaaaaaa";

/// Texts that are no states.
const NO_STATES: [&[u8]; 7] = [
    // nothing
    b"",
    // a tag alone
    b"K",
    // another tag
    b"k\0\0\0\x03\0\0\0\x07\0\0\0\x02eeeeeeeeeeeeeeeeeeeeeeeeeeeeeeeevvvvvvvvvvvvvvvvvvvvvvvvvvvvvvvvhhhhhhhhhhhhhhhhhhhhhhhhhhhhhhhh\0",
    // a byte missing
    b"K\0\0\0\x03\0\0\0\x07\0\0\0\x02eeeeeeeeeeeeeeeeeeeeeeeeeeeeeeeevvvvvvvvvvvvvvvvvvvvvvvvvvvvvvvvhhhhhhhhhhhhhhhhhhhhhhhhhhhhhhhh",
    // a byte left over
    b"K\0\0\0\x03\0\0\0\x07\0\0\0\x02eeeeeeeeeeeeeeeeeeeeeeeeeeeeeeeevvvvvvvvvvvvvvvvvvvvvvvvvvvvvvvvhhhhhhhhhhhhhhhhhhhhhhhhhhhhhhhh\0\0",
    // flag 2
    b"K\0\0\0\x03\0\0\0\x07\0\0\0\x02eeeeeeeeeeeeeeeeeeeeeeeeeeeeeeeevvvvvvvvvvvvvvvvvvvvvvvvvvvvvvvvhhhhhhhhhhhhhhhhhhhhhhhhhhhhhhhh\x02",
    // round 4,294,967,295
    b"K\xff\xff\xff\xff\0\0\0\x07\0\0\0\x02eeeeeeeeeeeeeeeeeeeeeeeeeeeeeeeevvvvvvvvvvvvvvvvvvvvvvvvvvvvvvvvhhhhhhhhhhhhhhhhhhhhhhhhhhhhhhhh\0",
];

/// The state of the first text; with the todo it is that of the second.
const STATE: Kept = Kept {
    round: 3,
    number: 7,
    base: Base {
        position: 2,
        entry: Name([b'e'; 32]),
        version: Name([b'v'; 32]),
    },
    head: Name([b'h'; 32]),
    todo: None,
};

const TODO: Todo = Todo {
    target: Base {
        position: 9,
        entry: Name([b'f'; 32]),
        version: Name([b'w'; 32]),
    },
    before: Name([b'b'; 32]),
    after: Name([b'a'; 32]),
};

/// Whether the state is spelled so, and read so.
fn is_spelled(alloc: Global, kept: &Kept, text: &[u8]) -> bool {
    kept_laws();
    let mut out = Vec::new(alloc);
    if push_kept(&mut out, kept).is_err() {
        return false;
    }
    out.as_slice() == text && parse_kept(text).is_some()
}

#[test]
fn a_state_without_a_todo(rt: HostRuntime) {
    assert!(rt; is_spelled(rt.alloc(), &STATE, PLAIN));
}

#[test]
fn a_state_with_a_todo(rt: HostRuntime) {
    let kept = Kept {
        todo: Some(TODO),
        ..STATE
    };
    assert!(rt; is_spelled(rt.alloc(), &kept, CHANGING));
}

#[test]
fn texts_that_are_no_states(rt: HostRuntime) {
    for text in NO_STATES {
        assert!(rt; parse_kept(text).is_none());
    }
}

/// Whether a keeper whose calls of these numbers fail keeps the state and gives it again.
fn keeps(alloc: Global, fails: &[u64]) -> bool {
    let Ok(fails) = Vec::from_slice(alloc, fails) else {
        return false;
    };
    let mut keep = MemoryKeeper::new(alloc, fails);
    if write_kept(alloc, &mut keep, &STATE).is_err() {
        return false;
    }
    match read_kept(alloc, &mut keep) {
        Ok(kept) => kept == STATE,
        Err(_) => false,
    }
}

#[test]
fn a_state_is_kept(rt: HostRuntime) {
    assert!(rt; keeps(rt.alloc(), &[2]));
}

#[test]
fn a_state_that_is_not_written(rt: HostRuntime) {
    assert!(rt; !keeps(rt.alloc(), &[0]));
}

#[test]
fn a_state_that_is_not_read(rt: HostRuntime) {
    assert!(rt; !keeps(rt.alloc(), &[1]));
}

/// Whether a keeper of this text as its state says that it is damaged.
fn is_damaged(alloc: Global, text: &[u8]) -> bool {
    let mut keep = MemoryKeeper::new(alloc, Vec::new(alloc));
    if keep.write(alloc, &Key::State, text).is_err() {
        return false;
    }
    let error = read_kept(alloc, &mut keep);
    matches!(error, Err(Refusal::LocalDamaged { key: Key::State })) && keep.faults() == 0
}

#[test]
fn damaged_state(rt: HostRuntime) {
    for text in NO_STATES {
        assert!(rt; is_damaged(rt.alloc(), text));
    }
}

/// Whether a keeper without a state says that it is damaged.
fn is_absent_damaged(alloc: Global) -> bool {
    let mut keep = MemoryKeeper::new(alloc, Vec::new(alloc));
    matches!(
        read_kept(alloc, &mut keep),
        Err(Refusal::LocalDamaged { key: Key::State })
    )
}

#[test]
fn an_absent_state(rt: HostRuntime) {
    assert!(rt; is_absent_damaged(rt.alloc()));
}

/// The SHA-256 of "abc" and of nothing: FIPS 180-4, examples.
const ABC: Name = Name([
    0xba, 0x78, 0x16, 0xbf, 0x8f, 0x01, 0xcf, 0xea, 0x41, 0x41, 0x40, 0xde, 0x5d, 0xae, 0x22, 0x23,
    0xb0, 0x03, 0x61, 0xa3, 0x96, 0x17, 0x7a, 0x9c, 0xb4, 0x10, 0xff, 0x61, 0xf2, 0x00, 0x15, 0xad,
]);

const NOTHING: Name = Name([
    0xe3, 0xb0, 0xc4, 0x42, 0x98, 0xfc, 0x1c, 0x14, 0x9a, 0xfb, 0xf4, 0xc8, 0x99, 0x6f, 0xb9, 0x24,
    0x27, 0xae, 0x41, 0xe4, 0x64, 0x9b, 0x93, 0x4c, 0xa4, 0x95, 0x99, 0x1b, 0x78, 0x52, 0xb8, 0x55,
]);

/// A store of "abc" and of nothing.
fn two_objects(alloc: Global) -> Option<Store> {
    let mut objects = Store::new(alloc);
    objects.add(Bytes::of(alloc, b"abc").ok()?).ok()?;
    objects.add(Bytes::of(alloc, b"").ok()?).ok()?;
    Some(objects)
}

/// Whether the keeper says that both objects are kept.
fn keeps_two(alloc: Global, keep: &mut MemoryKeeper) -> bool {
    match two_objects(alloc) {
        Some(objects) => keep_objects(alloc, keep, &objects).is_ok(),
        None => false,
    }
}

/// Whether the keeper gives this text as the object of the name.
fn gives(alloc: Global, keep: &mut MemoryKeeper, name: &Name, text: &[u8]) -> bool {
    match kept_object(alloc, keep, name) {
        Ok(found) => found.as_slice() == text,
        Err(_) => false,
    }
}

/// Whether the keeper says that the object of the name is damaged.
fn is_object_damaged(alloc: Global, keep: &mut MemoryKeeper, name: &Name) -> bool {
    match kept_object(alloc, keep, name) {
        Err(
            Refusal::LocalDamaged {
                key: Key::Object { name: damaged },
            },
        ) => damaged == *name,
        _ => false,
    }
}

/// Whether two objects are kept and read again.
fn keeps_and_gives_two(alloc: Global) -> bool {
    let mut keep = MemoryKeeper::new(alloc, Vec::new(alloc));
    keeps_two(alloc, &mut keep)
        && gives(alloc, &mut keep, &ABC, b"abc")
        && gives(alloc, &mut keep, &NOTHING, b"")
}

#[test]
fn objects_are_kept(rt: HostRuntime) {
    assert!(rt; keeps_and_gives_two(rt.alloc()));
}

/// Whether the object whose name is less is kept where the second write fails, and the other not.
fn keeps_the_first(alloc: Global) -> bool {
    let Ok(fails) = Vec::from_slice(alloc, &[1]) else {
        return false;
    };
    let mut keep = MemoryKeeper::new(alloc, fails);
    !keeps_two(alloc, &mut keep)
        && gives(alloc, &mut keep, &ABC, b"abc")
        && is_object_damaged(alloc, &mut keep, &NOTHING)
}

#[test]
fn a_write_that_fails_half_way(rt: HostRuntime) {
    assert!(rt; keeps_the_first(rt.alloc()));
}

#[test]
fn a_lost_object(rt: HostRuntime) {
    let mut keep = MemoryKeeper::new(rt.alloc(), Vec::new(rt.alloc()));
    assert!(rt; is_object_damaged(rt.alloc(), &mut keep, &ABC));
}

/// Whether an object is damaged whose key has another text, and mended where it is kept again.
fn mends(alloc: Global) -> bool {
    let mut keep = MemoryKeeper::new(alloc, Vec::new(alloc));
    if keep
        .write(alloc, &Key::Object { name: ABC }, b"abd")
        .is_err()
    {
        return false;
    }
    is_object_damaged(alloc, &mut keep, &ABC)
        && keeps_two(alloc, &mut keep)
        && gives(alloc, &mut keep, &ABC, b"abc")
}

#[test]
fn an_altered_object(rt: HostRuntime) {
    assert!(rt; mends(rt.alloc()));
}

/// How many files an empty folder shows once a file was taken away that was not there, where it is scanned.
fn files_shown(alloc: Global, fails: &[u64]) -> Option<u32> {
    let fails = Vec::from_slice(alloc, fails).ok()?;
    let mut work = MemoryWork::new(Files::new(alloc), fails);
    let _ = work.remove(alloc, "b");
    match work.scan(alloc) {
        Ok(files) => Some(files.count()),
        Err(_) => None,
    }
}

#[test]
fn a_folder_is_scanned(rt: HostRuntime) {
    assert!(rt; files_shown(rt.alloc(), &[]) == Some(0));
}

#[test]
fn a_folder_that_fails(rt: HostRuntime) {
    assert!(rt; files_shown(rt.alloc(), &[1]).is_none());
}

/// Whether an empty folder shows a file that was placed there.
fn shows_a_file(alloc: Global) -> bool {
    let mut work = MemoryWork::new(Files::new(alloc), Vec::new(alloc));
    if work.write(alloc, "b", b"B").is_err() {
        return false;
    }
    match work.scan(alloc) {
        Ok(files) => match files.get("b") {
            Some(text) => text == b"B".as_slice(),
            None => false,
        },
        Err(_) => false,
    }
}

#[test]
fn a_file_is_placed(rt: HostRuntime) {
    assert!(rt; shows_a_file(rt.alloc()));
}
