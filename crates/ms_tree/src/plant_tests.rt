//! Trees whose objects and roots were known before: `bench/tree_root.py` computes those of format 1.

use crate::{Files, PlantError, gather, plant, read_listing};
use ms_base::{Bytes, Name, Quantity};
use ms_object::Format;
use std::alloc::Global;
use std::test::*;

/// Files as a listing, a format, how many objects they have, and the name of their root.
const PLANTED: [(&str, Format, u64, &str); 6] = [
    // no files
    (
        "",
        Format::One,
        1,
        "093f931703155bc6bf1c13039ffdb49856410b2b359c93cab8e52059073ecef9",
    ),
    (
        "",
        Format::Two,
        1,
        "90175564e84299ca421d8771ec884c261b6f216a2cf0b6cacbecff84a450751a",
    ),
    // By their bytes `a!x` comes before `a/b`, but the row `a` before the row `a!x`.
    (
        "612178 31\n612f62 32\n612f632f64 32\n6130 31\n62 33",
        Format::One,
        9,
        "083232ceb84a4ebd00233721390491323aa643f6af61cb5f3c45b0441a910949",
    ),
    (
        "612178 31\n612f62 32\n612f632f64 32\n6130 31\n62 33",
        Format::Two,
        9,
        "6a3e2766de35fb84b8842666786c5e8139076be18d492cc08630a96aa6c276a2",
    ),
    (
        "612e747874 68656c6c6f0a\n646f63732f622e747874 -",
        Format::One,
        5,
        "5593407447a7ea83219a8afb7e09ae399b1c1dfa1add00b72463642eba112105",
    ),
    (
        "612e747874 68656c6c6f0a\n646f63732f622e747874 -",
        Format::Two,
        5,
        "675fb991e2a4a95186dc6327e9122dd27852915bb5b29d729961547e836f9704",
    ),
];

/// One file `a` of so many zero bytes.
const LONG: [(usize, Format, u64, &str); 8] = [
    (
        65536,
        Format::One,
        3,
        "8aeb839ad9ee66472c62c932802d9ed24e74c59838e21fdcbf1a4789ced6e4b3",
    ),
    (
        65536,
        Format::Two,
        3,
        "5f23d0e803338643270ba00a24fb5e24df8723dbd04916e2516392ad1e99ba62",
    ),
    (
        65537,
        Format::One,
        4,
        "ae329106cd0f08cb1fad27973b9b52f5f0e582993b1d8f2048e62dad05e5d5f4",
    ),
    (
        65537,
        Format::Two,
        3,
        "7809d243b29a201e92c83d0f96b27651ca49c3df586beb48e93c6835e368dd8c",
    ),
    (
        1048576,
        Format::One,
        3,
        "f1902301514074123f9d1746d34355d3c1f41c2fd9fcfa9ede91dd90db89d024",
    ),
    (
        1048576,
        Format::Two,
        3,
        "b5587077615690767d13b4e6025ea66c7556d6c8cdcacf497fb9107eb5bd8784",
    ),
    (
        1048577,
        Format::One,
        4,
        "8832450b5985fc17b12d69ce83c90d7640e756945e36151583e8b25594a55477",
    ),
    (
        1048577,
        Format::Two,
        4,
        "70d19cdf0be2ad8e54b29bc5ac5d5da732b5ebfe42b4500bb11127f1b46588ef",
    ),
];

/// Whether the files have so many objects and this root, which gives them back.
fn is_planted(
    alloc: Global,
    files: &Files,
    format: Format,
    objects: u64,
    root: &str,
) -> Option<bool> {
    let wanted = Name(<[u8; 32] as hex::FromHex>::from_hex(root.as_bytes()).ok()?);
    let planted = plant(alloc, files, format).ok()?;
    let back = gather(alloc, &planted.objects, &planted.root).ok()?;
    let same = back.count() == files.count() && back.total() == files.total();
    Some(planted.objects.len() == objects && planted.root == wanted && same)
}

fn listing_is_planted(
    alloc: Global,
    listing: &str,
    format: Format,
    objects: u64,
    root: &str,
) -> Option<bool> {
    if listing.len() > 1_000 {
        return None;
    }
    let files = read_listing(alloc, listing.as_bytes()).ok()?;
    is_planted(alloc, &files, format, objects, root)
}

/// The file `a` of so many zero bytes.
fn zeros(alloc: Global, bytes: usize) -> Option<Files> {
    let mut files = Files::new(alloc);
    let text = vec![in alloc; 0u8; bytes].ok()?;
    files.add("a", Bytes::from_vec(text)).ok()?;
    Some(files)
}

fn long_is_planted(
    alloc: Global,
    bytes: usize,
    format: Format,
    objects: u64,
    root: &str,
) -> Option<bool> {
    is_planted(alloc, &zeros(alloc, bytes)?, format, objects, root)
}

#[test]
fn files_have_their_objects(rt: HostRuntime) {
    for (listing, format, objects, root) in PLANTED {
        assert!(rt;
            listing_is_planted(rt.alloc(), listing, format, objects, root) == Some(true),
            "{root}"
        );
    }
}

#[test]
fn long_files_have_their_blobs(rt: HostRuntime) {
    for (bytes, format, objects, root) in LONG {
        assert!(rt;
            long_is_planted(rt.alloc(), bytes, format, objects, root) == Some(true),
            "{root}"
        );
    }
}

/// Whether a file of so many bytes is refused in format 1.
fn is_too_large(alloc: Global, bytes: usize) -> Option<bool> {
    let files = zeros(alloc, bytes)?;
    let value = bytes as u64;
    let limit = PlantError::Limit {
        what: Quantity::File,
        value,
    };
    let found = files.first_above(67_108_864) == Some(value);
    Some(found && plant(alloc, &files, Format::One).err() == Some(limit))
}

#[test]
fn a_file_too_large_for_format_1(rt: HostRuntime) {
    assert!(rt; is_too_large(rt.alloc(), 67_108_865) == Some(true));
}
