//! Merges whose answers were known before.

use crate::{ByPath, merge, merge_exists};
use ms_base::{Bytes, Quantity};
use ms_record::Refusal;
use ms_tree::{Files, Merger};
use std::alloc::Global;
use std::test::*;

/// The files of a line: `PATH=TEXT` with spaces between them.
fn files_of(alloc: Global, line: &str) -> Result<Files, Fail> {
    let mut files = Files::new(alloc);
    if line.is_empty() {
        return Ok(files);
    }
    for file in line.split(' ') {
        let (path, text) = file.split_once('=').ok_or("a file")?;
        files.add(path, Bytes::of(alloc, text.as_bytes())?)?;
    }
    Ok(files)
}

/// Whether the two hold the same files.
fn are_same(one: &Files, other: &Files) -> Result<bool, Fail> {
    let rows = one.rows()?;
    let others = other.rows()?;
    let same = rows.iter().zip(&others).all(|(row, other)| row.path == other.path
        && row.text == other.text);
    Ok(rows.len() == others.len() && same)
}

/// Whether the merge with the tag `ann` of the first three lines' files gives those of the fourth.
fn gives(alloc: Global, text: &str) -> Result<bool, Fail> {
    let mut lines = text.split('\n');
    let base = files_of(alloc, lines.next().ok_or("a line")?)?;
    let ours = files_of(alloc, lines.next().ok_or("a line")?)?;
    let theirs = files_of(alloc, lines.next().ok_or("a line")?)?;
    let wanted = files_of(alloc, lines.next().ok_or("a line")?)?;
    let merged = merge(alloc, &base, &ours, &theirs, "ann")
        .ok()
        .ok_or("merged")?;
    are_same(&merged, &wanted)
}

/// Base, ours, theirs, and what they give, a line each.
const SINGLE_PATHS: [&str; 4] = [
    "x=1\n\
    x=2\n\
    x=3\n\
    x=3 x.ann=2",
    "x=1\n\
    x=2\n\
    x=3 x.ann=9\n\
    x=3 x.ann=9 x.ann.2=2",
    "x=1\n\
    \n\
    x=3\n\
    x=3",
    "\n\
    a/b=1\n\
    a=2\n\
    a.ann=2 a/b=1",
];

#[test]
fn merge_by_single_paths(rt: HostRuntime) -> Result<(), Fail> {
    for text in SINGLE_PATHS {
        assert!(rt; gives(rt.alloc(), text)?);
    }
    Ok(())
}

const A_FILE_AND_A_DIRECTORY: &str = "\n\
    a=1\n\
    a/b=2 a.ann=3\n\
    a.ann=3 a.ann.2=1 a/b=2";

#[test]
fn file_against_directory(rt: HostRuntime) -> Result<(), Fail> {
    assert!(rt; gives(rt.alloc(), A_FILE_AND_A_DIRECTORY)?);
    Ok(())
}

const A_CHANGE_AND_A_DELETION: &str = "x=1\n\
    x=2\n\
    \n\
    x=2";

#[test]
fn change_against_deletion(rt: HostRuntime) -> Result<(), Fail> {
    assert!(rt; gives(rt.alloc(), A_CHANGE_AND_A_DELETION)?);
    Ok(())
}

/// Where ours is the base.
const EQUAL_MAPS: [&str; 2] = [
    "a=1 b/c=2\n\
    a=1 b/c=2\n\
    a=1 b/c=2\n\
    a=1 b/c=2",
    "a=1 b/c=2\n\
    a=1 b/c=2\n\
    a=3 d=\n\
    a=3 d=",
];

#[test]
fn merge_of_equal_maps(rt: HostRuntime) -> Result<(), Fail> {
    for text in EQUAL_MAPS {
        assert!(rt; gives(rt.alloc(), text)?);
    }
    Ok(())
}

/// What `bench/merge_reference.py` gives.
const RANDOM_MAPS: [&str; 8] = [
    "\n\
    a.ann=3 a.ann.ann/a-/a=2 a/a.ann=2 b.ann/a.ann.2=2 b/a.ann.ann=2\n\
    a.ann.ann/a.ann.2/a.ann.2=2 a.ann/a.ann.ann=3 b=1 b.ann=1\n\
    a.ann.ann.2=3 a.ann.ann/a-/a=2 a.ann.ann/a.ann.2/a.ann.2=2 a.ann/a.ann.ann=3 a/a.ann=2 b.ann.2=1 b.ann.ann=1 b.ann/a.ann.2=2 b/a.ann.ann=2",
    "\n\
    a=3 a.ann=2 b.ann=3\n\
    a.ann/a-=2 a.ann/b=1 a/a.ann.2=1 b.ann/b.ann=3 b/a.ann.2/a.ann.2=2\n\
    a.ann.2=3 a.ann.ann=2 a.ann/a-=2 a.ann/b=1 a/a.ann.2=1 b.ann.ann=3 b.ann/b.ann=3 b/a.ann.2/a.ann.2=2",
    "a=2 a.ann=3 a.ann.2=2\n\
    a-=1 a.ann.2/b.ann=2 b=2 b.ann/a.ann=3\n\
    a-=2 a.ann.ann=3 b=3 b.ann=3\n\
    a-=2 a-.ann=1 a.ann.2/b.ann=2 a.ann.ann=3 b=3 b.ann.2=2 b.ann.ann=3 b.ann/a.ann=3",
    "b.ann=1 b/a-=3 b/a.ann.ann/a.ann.ann=3\n\
    a=3 a.ann=2 a.ann.2=1 a.ann.ann=1\n\
    a.ann.2/a.ann.ann=2 a.ann.ann/b=3 a.ann/a/b=3 a/a-/a.ann=1\n\
    a.ann.2.ann=1 a.ann.2/a.ann.ann=2 a.ann.3=3 a.ann.ann.2=2 a.ann.ann.ann=1 a.ann.ann/b=3 a.ann/a/b=3 a/a-/a.ann=1",
    "a-/b=1 a.ann=1 a.ann.ann/b=2 b=3 b.ann/a.ann.ann=2\n\
    a=1 a.ann=2 a.ann.2=2 b.ann=3\n\
    a-/a-=2 a.ann.2=3 a.ann.ann=3 a.ann/a.ann/a.ann.2=3 a/a.ann.ann/a=2\n\
    a-/a-=2 a.ann.2=3 a.ann.2.ann=2 a.ann.3=1 a.ann.ann=3 a.ann.ann.2=2 a.ann/a.ann/a.ann.2=3 a/a.ann.ann/a=2 b.ann=3",
    "a-/a.ann.2=2 a.ann.2/a/a-=2 a.ann.ann/a/a.ann=1 a.ann/a=3\n\
    a=2 a-/a.ann/b.ann=2 a.ann.ann/a.ann.ann=3 a.ann/b.ann=2 b.ann/b=2\n\
    a=3 a-=3 a.ann=3 a.ann.ann/a.ann=3\n\
    a=3 a-.ann=3 a-/a.ann/b.ann=2 a.ann.3=2 a.ann.ann.2=3 a.ann.ann/a.ann=3 a.ann.ann/a.ann.ann=3 a.ann/b.ann=2 b.ann/b=2",
    "a=2 a-/a.ann.2=1 a.ann.2=2 b=1 b.ann/a.ann.ann=3\n\
    a-=3 a.ann.2=1 b.ann/b=3 b/a.ann=2\n\
    a-=2 a.ann.ann=3 b=2 b.ann=2\n\
    a-=2 a-.ann=3 a.ann.2=1 a.ann.ann=3 b.ann.2=2 b.ann.ann=2 b.ann/b=3 b/a.ann=2",
    "a=1 a.ann.2=2 b.ann=1 b/a-/a=1 b/a.ann.ann=2\n\
    a.ann/a.ann.ann/a.ann.2=1 a/a-/a.ann.ann=1 b=1 b.ann/a-/a.ann=3\n\
    a=2 a.ann=1 a.ann.ann/b=2 b.ann=2\n\
    a.ann.3=2 a.ann.ann.2=1 a.ann.ann/b=2 a.ann/a.ann.ann/a.ann.2=1 a/a-/a.ann.ann=1 b=1 b.ann.ann=2 b.ann/a-/a.ann=3",
];

#[test]
fn merges_of_random_maps(rt: HostRuntime) -> Result<(), Fail> {
    for text in RANDOM_MAPS {
        assert!(rt; gives(rt.alloc(), text)?);
    }
    Ok(())
}

const TAKEN_NAMES: &str = "\n\
    x=1\n\
    x=2 x.ann=3 x.ann.2/y=4 x.ann.4=5\n\
    x=2 x.ann=3 x.ann.2/y=4 x.ann.3=1 x.ann.4=5";

#[test]
fn a_merge_exists(rt: HostRuntime) -> Result<(), Fail> {
    merge_exists();
    assert!(rt; gives(rt.alloc(), TAKEN_NAMES)?);
    Ok(())
}

/// Files `FROM` to `FROM + COUNT - 1`, each with the text.
fn numbered(alloc: Global, from: u32, count: u32, text: &str) -> Result<Files, Fail> {
    let mut files = Files::new(alloc);
    for number in from..from.saturating_add(count) {
        let path = format!(in alloc; "{number:06}")?;
        files.add(path.as_str(), Bytes::of(alloc, text.as_bytes())?)?;
    }
    Ok(files)
}

/// What limit, and at which value, the merge of these with no base passes.
fn passes(alloc: Global, ours: &Files, theirs: &Files, limit: Quantity, at: u64) -> bool {
    match merge(alloc, &Files::new(alloc), ours, theirs, "ann") {
        Err(Refusal::Limit { what, value }) => what == limit && value == at,
        _ => false,
    }
}

/// Whether the merge of 60,000 and 40,001 other files is refused.
fn is_past_the_limit(alloc: Global) -> Result<bool, Fail> {
    let ours = numbered(alloc, 0, 60_000, "ours")?;
    let theirs = numbered(alloc, 60_000, 40_001, "theirs")?;
    Ok(passes(alloc, &ours, &theirs, Quantity::Files, 100_001))
}

#[test]
fn merge_past_the_limit(rt: HostRuntime) -> Result<(), Fail> {
    assert!(rt; is_past_the_limit(rt.alloc())?);
    Ok(())
}

/// Whether the merge of two texts at this path is refused.
fn is_refused_at(alloc: Global, path: &str, limit: Quantity, at: u64) -> Result<bool, Fail> {
    let ours = files_of(alloc, format!(in alloc; "{path}=1")?.as_str())?;
    let theirs = files_of(alloc, format!(in alloc; "{path}=2")?.as_str())?;
    Ok(passes(alloc, &ours, &theirs, limit, at))
}

#[test]
fn a_tagged_name_past_the_limit_of_parts(rt: HostRuntime) -> Result<(), Fail> {
    let alloc = rt.alloc();
    let part = format!(in alloc; "{:0197}", 0)?;
    assert!(rt; is_refused_at(alloc, part.as_str(), Quantity::Part, 201)?);
    Ok(())
}

#[test]
fn a_tagged_name_past_the_limit_of_paths(rt: HostRuntime) -> Result<(), Fail> {
    let alloc = rt.alloc();
    let part = format!(in alloc; "{:0197}", 0)?;
    let long = format!(in alloc; "a/{0}/{0}/{0}/{0}/{0}/{1:030}", part, 0)?;
    assert!(rt; is_refused_at(alloc, long.as_str(), Quantity::Path, 1026)?);
    Ok(())
}

/// Whether theirs is the answer at the last of 100,000 paths, which ours left alone.
fn takes_theirs(alloc: Global) -> Result<bool, Fail> {
    let base = numbered(alloc, 0, 100_000, "base")?;
    let ours = numbered(alloc, 0, 100_000, "base")?;
    let theirs = numbered(alloc, 0, 100_000, "theirs")?;
    let merged = ByPath
        .merge(alloc, &base, &ours, &theirs, "ann")
        .ok()
        .ok_or("merged")?;
    Ok(merged.get("099999").ok_or("there")? == b"theirs".as_slice())
}

#[test]
fn three_folders_of_100_000_files(rt: HostRuntime) -> Result<(), Fail> {
    assert!(rt; takes_theirs(rt.alloc())?);
    Ok(())
}
