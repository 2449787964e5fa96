//! Base, ours and theirs, path by path.

ghost use Rattle.std.specs.Prelude.{◌≡◌, ℕ, List, Some, map, bytes_eq, if◌then◌else◌, IfOk, OnOk};
ghost use Rattle.std.specs.Option.{option_or, option_copied};
ghost use Rattle.ms_tree.specs.Files.{text_at};
ghost use Rattle.ms_tree.specs.Merging.{is_same, standing, is_conflict, conflicts};
ghost use Rattle.ms_tree.specs.DraftFiles.{drafted};
ghost use Rattle.ms_merge.specs.Settling.{settled_at, Settles};

use ms_base::NoMemory;
use ms_tree::{Draft, DraftFile, FileRef, Files};
use std::alloc::Global;

/// The three that are merged.
#[derive(Clone, Copy)]
pub struct Sides<'a> {
    pub base: &'a Files,
    pub ours: &'a Files,
    pub theirs: &'a Files,
}

/// Whether the same stands on both sides.
fn is_same(one: Option<&[u8]>, other: Option<&[u8]>) -> bool
    ensures { result ≡ is_same (option_copied one.entry) (option_copied other.entry) }
{
    match (one, other) {
        (None, None) => true,
        (Some(one), Some(other)) => one == other,
        _ => false,
    }
}

/// What a path gives: a change against base, theirs of two of them unless it is a deletion.
fn standing<'a>(
    base: Option<&'a [u8]>,
    ours: Option<&'a [u8]>,
    theirs: Option<&'a [u8]>,
) -> Option<&'a [u8]>
    ensures { option_copied result ≡ standing (option_copied base.entry) (option_copied ours.entry) (option_copied theirs.entry) }
{
    if is_same(ours, theirs) {
        ours
    } else if is_same(ours, base) {
        theirs
    } else if is_same(theirs, base) || theirs.is_none() {
        ours
    } else {
        theirs
    }
}

/// Whether there are two different changes, neither of them a deletion.
fn is_conflict(base: Option<&[u8]>, ours: Option<&[u8]>, theirs: Option<&[u8]>) -> bool
    ensures { result ≡ is_conflict (option_copied base.entry) (option_copied ours.entry) (option_copied theirs.entry) }
{
    ours.is_some()
        && theirs.is_some()
        && !is_same(ours, theirs)
        && !is_same(ours, base)
        && !is_same(theirs, base)
}

/// Puts what the path gives, if anything.
fn settle_path<'a>(sides: &Sides<'a>, path: &str, draft: &mut Draft<'a>) -> Result<(), NoMemory>
    ensures { OnOk result ((q : List ℕ) → text_at draft.new q
        ≡ (if bytes_eq q path.now then option_or (settled_at sides.now.base.now sides.now.ours.now sides.now.theirs.now q) (text_at draft.old q) else text_at draft.old q)) }
{
    let base = sides.base.get(path);
    let ours = sides.ours.get(path);
    let theirs = sides.theirs.get(path);
    match standing(base, ours, theirs) {
        Some(text) => draft.put(path, text),
        None => Ok(()),
    }
}

/// Puts what the paths of these files give.
pub fn settle<'a>(
    sides: &Sides<'a>,
    rows: &[FileRef],
    draft: &mut Draft<'a>,
) -> Result<(), NoMemory>
    ensures { OnOk result (Settles sides.now.base.now sides.now.ours.now sides.now.theirs.now (map (λ r. (r.path.now, r.text.now)) rows.now) draft.old draft.new) }
{
    for row in rows {
        settle_path(sides, row.path, draft)?;
    }
    Ok(())
}

/// Ours' files at the paths of conflicts, in rising order.
pub fn conflicts<'a>(alloc: Global, sides: &Sides<'a>) -> Result<Vec<DraftFile<'a>>, NoMemory>
    ensures { IfOk result (λ v. map drafted v.items ≡ conflicts sides.now.base.now sides.now.ours.now sides.now.theirs.now) }
{
    let ours = sides.ours;
    let rows = ours.rows()?;
    let mut found = Vec::new(alloc);
    for row in &rows {
        if is_conflict(
            sides.base.get(row.path),
            Some(row.text),
            sides.theirs.get(row.path),
        ) {
            let path = String::from_str(alloc, row.path)?;
            let text = row.text;
            found.push(DraftFile { path, text })?;
        }
    }
    Ok(found)
}
