//! Trees of objects made by hand, and the first fault of the walks that meet one.

use crate::tests::empty_files;
use crate::{gather, plant};
use ms_base::{Bytes, Name, Quantity};
use ms_object::{Format, GatherError, Store};
use std::alloc::Global;
use std::test::*;

/// The texts of a store, of which the last is the root, and what a walk through it finds: first of format 1, then of format 2.
const TREES: [(&str, &str); 22] = [
    // two files
    (
        "42616263 4600000000000000030000000149e8e7aaf55aa01faa5f6c7ee074e51fc01a7c0eb9f4dbe9fca98428169edc28 46000000000000000000000000 44000000016601638cbc0fa5980b7a190a422c0b0d3a6db183be6667a28196872c67b4cbfd541cba 44000000026601611ec4cc8d55a87149db21eeec3a3b051289760ee241eb312273990b29ddeda61b640162a60c7b9c6d2b0cfd8b055f2fe726a13ef9b5c403eb698c47bfadf537ae72d064",
        "2 files of 3 bytes",
    ),
    // no files
    ("4400000000", "0 files of 0 bytes"),
    // a directory without rows below another
    (
        "4400000000 4400000001640161093f931703155bc6bf1c13039ffdb49856410b2b359c93cab8e52059073ecef9",
        "wrong 093f931703155bc6bf1c13039ffdb49856410b2b359c93cab8e52059073ecef9",
    ),
    // a file as a root
    (
        "42616263 4600000000000000030000000149e8e7aaf55aa01faa5f6c7ee074e51fc01a7c0eb9f4dbe9fca98428169edc28",
        "wrong 1ec4cc8d55a87149db21eeec3a3b051289760ee241eb312273990b29ddeda61b",
    ),
    // a blob that is missing
    (
        "460000000000000003000000010707070707070707070707070707070707070707070707070707070707070707 44000000016601618fa8884a5cef25c8c146816e8126f26ae024f62f7e9f8250ab97898faffde93f",
        "missing 0707070707070707070707070707070707070707070707070707070707070707",
    ),
    // a blob of another length
    (
        "426162 46000000000000000300000001363e192fa6fe377b1c90a333c9852267c484dc530eac2d6a103c6e15511ec215 4400000001660161a3d4948524ef76a6e69c7311168f8ba6f04a32e94ae74dce93509c0a81e6bfa9",
        "wrong 363e192fa6fe377b1c90a333c9852267c484dc530eac2d6a103c6e15511ec215",
    ),
    // a directory named as a file
    (
        "42616263 4600000000000000030000000149e8e7aaf55aa01faa5f6c7ee074e51fc01a7c0eb9f4dbe9fca98428169edc28 44000000016601631ec4cc8d55a87149db21eeec3a3b051289760ee241eb312273990b29ddeda61b 44000000016601613e930ca7128851f8619e21770d8dc8b52b27dcfe363a3a53cd9de1a3ea4a84f3",
        "wrong 3e930ca7128851f8619e21770d8dc8b52b27dcfe363a3a53cd9de1a3ea4a84f3",
    ),
    // a file named as a directory
    (
        "42616263 4600000000000000030000000149e8e7aaf55aa01faa5f6c7ee074e51fc01a7c0eb9f4dbe9fca98428169edc28 44000000016401611ec4cc8d55a87149db21eeec3a3b051289760ee241eb312273990b29ddeda61b",
        "wrong 1ec4cc8d55a87149db21eeec3a3b051289760ee241eb312273990b29ddeda61b",
    ),
    // the first fault of two
    (
        "4400000000 460000000000000003000000010707070707070707070707070707070707070707070707070707070707070707 44000000026601618fa8884a5cef25c8c146816e8126f26ae024f62f7e9f8250ab97898faffde93f640162093f931703155bc6bf1c13039ffdb49856410b2b359c93cab8e52059073ecef9",
        "missing 0707070707070707070707070707070707070707070707070707070707070707",
    ),
    // the first fault of two, the other way round
    (
        "4400000000 460000000000000003000000010707070707070707070707070707070707070707070707070707070707070707 4400000002640161093f931703155bc6bf1c13039ffdb49856410b2b359c93cab8e52059073ecef96601628fa8884a5cef25c8c146816e8126f26ae024f62f7e9f8250ab97898faffde93f",
        "wrong 093f931703155bc6bf1c13039ffdb49856410b2b359c93cab8e52059073ecef9",
    ),
    // a text that is no object
    (
        "58 44000000016401614b68ab3847feda7d6c62c1fbcbeebfa35eab7351ed5e78f4ddadea5df64b8015",
        "wrong 4b68ab3847feda7d6c62c1fbcbeebfa35eab7351ed5e78f4ddadea5df64b8015",
    ),
    // two files
    (
        "43616263 47000000000000000300000001a553ae69865b1c3efeed181d40cdb793ab9505a8c4f76c8387485bbcbed2de74 47000000000000000000000000 4500000001660163000000000000000078b3738832ddcceb22b04e536b273e51d3361651e052179dc36842fe628ec88b 45000000026601610000000000000003633c2cd52c5bcf758ac13d9530dbdcf2fae709a9f82f0f2eb4302cd7ce37c5286401620000000000000000e78a9a5feb6ba31b5c143e289a46b8eedb82c779ac2427db0283070089909c76",
        "2 files of 3 bytes",
    ),
    // no files
    ("4500000000", "0 files of 0 bytes"),
    // a directory without rows below another
    (
        "4500000000 4500000001640161000000000000000090175564e84299ca421d8771ec884c261b6f216a2cf0b6cacbecff84a450751a",
        "wrong 90175564e84299ca421d8771ec884c261b6f216a2cf0b6cacbecff84a450751a",
    ),
    // a file as a root
    (
        "43616263 47000000000000000300000001a553ae69865b1c3efeed181d40cdb793ab9505a8c4f76c8387485bbcbed2de74",
        "wrong 633c2cd52c5bcf758ac13d9530dbdcf2fae709a9f82f0f2eb4302cd7ce37c528",
    ),
    // a blob that is missing
    (
        "470000000000000003000000010707070707070707070707070707070707070707070707070707070707070707 45000000016601610000000000000003ae99b8a5075f66be6b032b47aa12f372353b680615ece6d07a2df13ee9ff5640",
        "missing 0707070707070707070707070707070707070707070707070707070707070707",
    ),
    // a blob of another length
    (
        "436162 470000000000000003000000012435ed66317de358c87910027d7ffaa607aa9a6214f3eea8449e5fbec2d4b29e 450000000166016100000000000000033ea3952dfddd49a81a0edfe4ef70f6530c809bbbc03868d47b25d0c5e26cd5b3",
        "wrong 2435ed66317de358c87910027d7ffaa607aa9a6214f3eea8449e5fbec2d4b29e",
    ),
    // a directory named as a file
    (
        "43616263 47000000000000000300000001a553ae69865b1c3efeed181d40cdb793ab9505a8c4f76c8387485bbcbed2de74 45000000016601630000000000000003633c2cd52c5bcf758ac13d9530dbdcf2fae709a9f82f0f2eb4302cd7ce37c528 4500000001660161000000000000000305a8230c05946979808e4438b34999492f1a82936965b37e708664ba7eb0dec0",
        "wrong 05a8230c05946979808e4438b34999492f1a82936965b37e708664ba7eb0dec0",
    ),
    // a file named as a directory
    (
        "43616263 47000000000000000300000001a553ae69865b1c3efeed181d40cdb793ab9505a8c4f76c8387485bbcbed2de74 45000000016401610000000000000003633c2cd52c5bcf758ac13d9530dbdcf2fae709a9f82f0f2eb4302cd7ce37c528",
        "wrong 633c2cd52c5bcf758ac13d9530dbdcf2fae709a9f82f0f2eb4302cd7ce37c528",
    ),
    // the first fault of two
    (
        "4500000000 470000000000000003000000010707070707070707070707070707070707070707070707070707070707070707 45000000026601610000000000000003ae99b8a5075f66be6b032b47aa12f372353b680615ece6d07a2df13ee9ff5640640162000000000000000090175564e84299ca421d8771ec884c261b6f216a2cf0b6cacbecff84a450751a",
        "missing 0707070707070707070707070707070707070707070707070707070707070707",
    ),
    // the first fault of two, the other way round
    (
        "4500000000 470000000000000003000000010707070707070707070707070707070707070707070707070707070707070707 4500000002640161000000000000000090175564e84299ca421d8771ec884c261b6f216a2cf0b6cacbecff84a450751a6601620000000000000003ae99b8a5075f66be6b032b47aa12f372353b680615ece6d07a2df13ee9ff5640",
        "wrong 90175564e84299ca421d8771ec884c261b6f216a2cf0b6cacbecff84a450751a",
    ),
    // a text that is no object
    (
        "58 450000000164016100000000000000004b68ab3847feda7d6c62c1fbcbeebfa35eab7351ed5e78f4ddadea5df64b8015",
        "wrong 4b68ab3847feda7d6c62c1fbcbeebfa35eab7351ed5e78f4ddadea5df64b8015",
    ),
];

/// Trees whose sizes or formats are wrong.
const BAD_TREES_OF_FORMAT_2: [(&str, &str); 9] = [
    // size 7 for a file of 6 bytes
    (
        "4368656c6c6f0a 47000000000000000600000001a337df202a1d17f6ccd69b65f83e62427ae624c0def3f7fe9f02d7611c965c4d 45000000016601610000000000000007a524716b0f16fb26ce9e0c957aa229d1c6c54dd66b74b3e01d37fa285ace4b04",
        "wrong a524716b0f16fb26ce9e0c957aa229d1c6c54dd66b74b3e01d37fa285ace4b04",
    ),
    // size 5 for a directory of 6 bytes
    (
        "4368656c6c6f0a 47000000000000000600000001a337df202a1d17f6ccd69b65f83e62427ae624c0def3f7fe9f02d7611c965c4d 45000000016601610000000000000006a524716b0f16fb26ce9e0c957aa229d1c6c54dd66b74b3e01d37fa285ace4b04 4500000001640162000000000000000552de37df96e66531267f55a04640d4c4e5caabdb06814115f8c5ef6e2d2c2b51",
        "wrong 52de37df96e66531267f55a04640d4c4e5caabdb06814115f8c5ef6e2d2c2b51",
    ),
    // the size of the file object
    (
        "4368656c6c6f0a 47000000000000000600000001a337df202a1d17f6ccd69b65f83e62427ae624c0def3f7fe9f02d7611c965c4d 4500000001660161000000000000002da524716b0f16fb26ce9e0c957aa229d1c6c54dd66b74b3e01d37fa285ace4b04",
        "wrong a524716b0f16fb26ce9e0c957aa229d1c6c54dd66b74b3e01d37fa285ace4b04",
    ),
    // a blob of format 1
    (
        "42616263 4700000000000000030000000149e8e7aaf55aa01faa5f6c7ee074e51fc01a7c0eb9f4dbe9fca98428169edc28 45000000016601610000000000000003868e07d2b014992fa7bdbb7b6d6847e24315421bfcf6d07cc571b39f5645afc7",
        "wrong 49e8e7aaf55aa01faa5f6c7ee074e51fc01a7c0eb9f4dbe9fca98428169edc28",
    ),
    // a file of format 1
    (
        "42616263 4600000000000000030000000149e8e7aaf55aa01faa5f6c7ee074e51fc01a7c0eb9f4dbe9fca98428169edc28 450000000166016100000000000000031ec4cc8d55a87149db21eeec3a3b051289760ee241eb312273990b29ddeda61b",
        "wrong 1ec4cc8d55a87149db21eeec3a3b051289760ee241eb312273990b29ddeda61b",
    ),
    // a directory of format 1
    (
        "42616263 4600000000000000030000000149e8e7aaf55aa01faa5f6c7ee074e51fc01a7c0eb9f4dbe9fca98428169edc28 44000000016601611ec4cc8d55a87149db21eeec3a3b051289760ee241eb312273990b29ddeda61b 45000000016401610000000000000003be6c7cf644ed4d144411348943dd28585e2e3fea58e53c0af3d091481057c809",
        "wrong be6c7cf644ed4d144411348943dd28585e2e3fea58e53c0af3d091481057c809",
    ),
    // a file of format 2 in a directory of format 1
    (
        "43616263 47000000000000000300000001a553ae69865b1c3efeed181d40cdb793ab9505a8c4f76c8387485bbcbed2de74 4400000001660161633c2cd52c5bcf758ac13d9530dbdcf2fae709a9f82f0f2eb4302cd7ce37c528",
        "wrong 633c2cd52c5bcf758ac13d9530dbdcf2fae709a9f82f0f2eb4302cd7ce37c528",
    ),
    // a fault before the size
    (
        "470000000000000003000000010707070707070707070707070707070707070707070707070707070707070707 45000000016601610000000000000009ae99b8a5075f66be6b032b47aa12f372353b680615ece6d07a2df13ee9ff5640",
        "missing 0707070707070707070707070707070707070707070707070707070707070707",
    ),
    // a size before a later fault
    (
        "43616263 47000000000000000300000001a553ae69865b1c3efeed181d40cdb793ab9505a8c4f76c8387485bbcbed2de74 470000000000000003000000010707070707070707070707070707070707070707070707070707070707070707 45000000026601610000000000000009633c2cd52c5bcf758ac13d9530dbdcf2fae709a9f82f0f2eb4302cd7ce37c5286601620000000000000003ae99b8a5075f66be6b032b47aa12f372353b680615ece6d07a2df13ee9ff5640",
        "wrong 633c2cd52c5bcf758ac13d9530dbdcf2fae709a9f82f0f2eb4302cd7ce37c528",
    ),
];

/// Directories one in the other: how many, the length of their labels, and what is found below so many labels.
const NESTED: [(u32, usize, &str); 5] = [
    (63, 1, "1 files of 0 bytes"),
    (64, 1, "levels 65"),
    (65, 1, "levels 65"),
    (5, 200, "1 files of 0 bytes"),
    (6, 200, "path 1205"),
];

/// The name as digits behind a word.
fn named(alloc: Global, word: &str, name: &Name) -> Option<String> {
    let digits = hex::encode(alloc, &name.0).ok()?;
    format!(in alloc; "{word} {digits}").ok()
}

fn limited(alloc: Global, what: Quantity, value: u64) -> Option<String> {
    let word = match what {
        Quantity::Levels => "levels",
        Quantity::Path => "path",
        Quantity::Files => "files",
        _ => "another",
    };
    format!(in alloc; "{word} {value}").ok()
}

/// What is found below the root, in words.
fn told(alloc: Global, store: &Store, root: &Name) -> Option<String> {
    match gather(alloc, store, root) {
        Ok(files) => {
            let (count, total) = (files.count(), files.total());
            format!(in alloc; "{count} files of {total} bytes").ok()
        }
        Err(GatherError::Missing { name }) => named(alloc, "missing", &name),
        Err(GatherError::WrongKind { name }) => named(alloc, "wrong", &name),
        Err(GatherError::Limit { what, value }) => limited(alloc, what, value),
        Err(GatherError::NoMemory) => None,
    }
}

/// Puts a text into a store.
fn put(alloc: Global, store: &mut Store, text: &[u8]) -> Option<Name> {
    let text = Bytes::of(alloc, text).ok()?;
    store.add(text).ok()
}

/// What is found in the store of these texts.
fn told_of(alloc: Global, texts: &str) -> Option<String> {
    let mut store = Store::new(alloc);
    let mut root = Name([7; 32]);
    for digits in texts.split(' ') {
        let text = hex::decode(alloc, digits.as_bytes()).ok()?;
        root = put(alloc, &mut store, &text)?;
    }
    told(alloc, &store, &root)
}

fn is_told(alloc: Global, texts: &str, wanted: &str) -> Option<bool> {
    Some(told_of(alloc, texts)?.as_str() == wanted)
}

/// The directory of one row, whose label has so many bytes.
fn one_row(alloc: Global, store: &mut Store, kind: u8, length: usize, name: &Name) -> Option<Name> {
    let mut text = Vec::new(alloc);
    text.extend_from_slice(b"D\0\0\0\x01").ok()?;
    text.push(kind).ok()?;
    text.push(u8::try_from(length).ok()?).ok()?;
    text.resize(text.len().checked_add(length)?, b'x').ok()?;
    text.extend_from_slice(&name.0).ok()?;
    put(alloc, store, &text)
}

/// Whether this is found where so many directories stand above one with the empty file.
fn is_told_below(alloc: Global, levels: u32, length: usize, wanted: &str) -> Option<bool> {
    let mut store = Store::new(alloc);
    let empty = put(alloc, &mut store, b"F\0\0\0\0\0\0\0\0\0\0\0\0")?;
    let mut root = one_row(alloc, &mut store, b'f', 1, &empty)?;
    for _ in 0..levels {
        root = one_row(alloc, &mut store, b'd', length, &root)?;
    }
    Some(told(alloc, &store, &root)?.as_str() == wanted)
}

#[test]
fn trees_and_their_first_faults(rt: HostRuntime) {
    for (texts, wanted) in TREES {
        assert!(rt;
            is_told(rt.alloc(), texts, wanted) == Some(true),
            "{texts} {wanted}"
        );
    }
}

#[test]
fn bad_texts_of_format_2(rt: HostRuntime) {
    for (texts, wanted) in BAD_TREES_OF_FORMAT_2 {
        assert!(rt;
            is_told(rt.alloc(), texts, wanted) == Some(true),
            "{texts} {wanted}"
        );
    }
}

#[test]
fn paths_are_judged_before_their_objects(rt: HostRuntime) {
    for (levels, length, wanted) in NESTED {
        assert!(rt;
            is_told_below(rt.alloc(), levels, length, wanted) == Some(true),
            "{levels} {wanted}"
        );
    }
}

/// Whether the walk through a directory of 100,000 files and one more file passes the limit at the last.
fn is_one_too_many(alloc: Global) -> Option<bool> {
    let planted = plant(alloc, &empty_files(alloc, 100_000)?, Format::One).ok()?;
    let mut store = planted.objects;
    let empty = put(alloc, &mut store, b"F\0\0\0\0\0\0\0\0\0\0\0\0")?;
    let mut text = Vec::new(alloc);
    text.extend_from_slice(b"D\0\0\0\x02d\x01a").ok()?;
    text.extend_from_slice(&planted.root.0).ok()?;
    text.extend_from_slice(b"f\x01b").ok()?;
    text.extend_from_slice(&empty.0).ok()?;
    let root = put(alloc, &mut store, &text)?;
    Some(told(alloc, &store, &root)?.as_str() == "files 100001")
}

#[test]
fn a_walk_above_the_limit_of_files(rt: HostRuntime) {
    assert!(rt; is_one_too_many(rt.alloc()) == Some(true));
}

/// Whether a text of more bytes than an object may have is met as no tree.
fn is_too_large(alloc: Global) -> Option<bool> {
    let mut store = Store::new(alloc);
    let mut text = Vec::new(alloc);
    text.resize(33_554_433, b'D').ok()?;
    let root = store.add(Bytes::from_vec(text)).ok()?;
    let wanted = named(alloc, "wrong", &root)?;
    Some(told(alloc, &store, &root)? == wanted)
}

#[test]
fn a_text_above_the_limit(rt: HostRuntime) {
    assert!(rt; is_too_large(rt.alloc()) == Some(true));
}
