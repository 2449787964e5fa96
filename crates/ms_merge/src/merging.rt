//! Merging files by single paths.

ghost use Rattle.std.specs.Prelude.{◌≡◌, ℕ, List, map, IfOk};
ghost use Rattle.ms_tree.specs.Files.{text_at};
ghost use Rattle.ms_text.specs.Labels.{IsClientLabel};
ghost use Rattle.ms_tree.specs.Merging.{Merges, MayMerge, KeepsChanges};
ghost use Rattle.ms_tree.specs.DraftFiles.{drafted};
ghost use Rattle.ms_merge.specs.Settling.{settled_at, Removes, HasMerged};

use crate::limits::check;
use crate::naming::{Given, give_names};
use crate::sides::{Sides, conflicts, settle};
use ms_base::NoMemory;
use ms_record::Refusal;
use ms_tree::{Draft, DraftFile, Files, Merger, merge_laws};
use std::alloc::Global;

/// What base, ours and theirs give together: `docs/PROTOCOL.md`, merge. The tag is the label of a
/// client.
///
/// `Limit` comes where the merged files pass a limit, the first in this order: their number,
/// their bytes, the length of a tagged name, the length of a part of one.
pub fn merge(
    alloc: Global,
    base: &Files,
    ours: &Files,
    theirs: &Files,
    tag: &str,
) -> Result<Files, Refusal>
    requires { IsClientLabel tag.now }
    ensures merges { Merges base.now ours.now theirs.now tag.now result }
    ensures keeps_ours { IfOk result (λ files. KeepsChanges base.now ours.now tag.now files) }
    ensures keeps_theirs { IfOk result (λ files. KeepsChanges base.now theirs.now tag.now files) }
{
    base.shows();
    ours.shows();
    theirs.shows();
    merge_laws();
    let sides = Sides { base, ours, theirs };
    let Unchecked { draft, names } = merged(alloc, &sides, tag)?;
    let rows = draft.rows()?;
    match check(&rows, &names) {
        Ok(()) => Ok(Files::from_rows(alloc, &rows)?),
        Err(refusal) => Err(refusal),
    }
}

/// The merged files, whatever limits they pass, and the names that were given on the way.
#[derive(Drop)]
struct Unchecked<'a> {
    draft: Draft<'a>,
    names: Vec<DraftFile<'a>>,
}

/// Merges whatever limits are passed.
fn merged<'a>(alloc: Global, sides: &Sides<'a>, tag: &str) -> Result<Unchecked<'a>, NoMemory>
    requires { MayMerge sides.now.base.now sides.now.ours.now sides.now.theirs.now tag.now }
    ensures { IfOk result (λ m. HasMerged sides.now.base.now sides.now.ours.now sides.now.theirs.now tag.now m.draft (map drafted m.names.items)) }
{
    let mut draft = settled(alloc, sides)?;
    let mut given = Given {
        order: Vec::new(alloc),
        by_name: Draft::new(alloc),
    };
    let doubled = conflicts(alloc, sides)?;
    give_names(alloc, sides, tag, &doubled, &mut draft, &mut given)?;
    draft.shows();
    let moved = draft.directories()?;
    remove(&moved, &mut draft);
    give_names(alloc, sides, tag, &moved, &mut draft, &mut given)?;
    draft.shows();
    let Given { order, by_name: _ } = given;
    Ok(Unchecked {
        draft,
        names: order,
    })
}

/// What each path gives.
fn settled<'a>(alloc: Global, sides: &Sides<'a>) -> Result<Draft<'a>, NoMemory>
    ensures { IfOk result (λ draft. (path : List ℕ) → text_at draft path ≡ settled_at sides.now.base.now sides.now.ours.now sides.now.theirs.now path) }
{
    let mut draft = Draft::new(alloc);
    let ours = sides.ours;
    settle(sides, &ours.rows()?, &mut draft)?;
    let theirs = sides.theirs;
    settle(sides, &theirs.rows()?, &mut draft)?;
    Ok(draft)
}

/// Takes the files away.
fn remove(files: &[DraftFile], draft: &mut Draft)
    ensures { Removes (map drafted files.now) draft.old draft.new }
{
    for file in files {
        draft.remove(file.path.as_str());
    }
}

/// Merges by single paths.
#[derive(Clone, Copy, Debug)]
pub struct ByPath;

impl Merger for ByPath {
    fn merge(
        &self,
        alloc: Global,
        base: &Files,
        ours: &Files,
        theirs: &Files,
        tag: &str,
    ) -> Result<Files, Refusal> {
        merge(alloc, base, ours, theirs, tag)
    }
}
