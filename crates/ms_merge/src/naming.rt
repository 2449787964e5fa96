//! Tagged names: the first that is free.

ghost use Rattle.std.specs.Prelude.{◌≡◌, ◌≤◌, ◌+◌, ◌^◌, List, ℕ, length, map, string_bytes, IfOk, OnOk};
ghost use Rattle.std.specs.Map.{keys_of};
ghost use Rattle.ms_tree.specs.Merging.{tagged, is_taken, is_free, IsTagged, MayMerge};
ghost use Rattle.ms_tree.specs.DraftFiles.{drafted};
ghost use Rattle.ms_merge.specs.Naming.{IsGiven, IsNamed};

use crate::sides::Sides;
use ms_base::NoMemory;
use ms_tree::{Draft, DraftFile, Files, path_laws};
use std::alloc::Global;

/// The names that were given, with the texts that stand there.
#[derive(Drop)]
pub struct Given<'a> {
    /// In the order in which they were given.
    pub order: Vec<DraftFile<'a>>,
    /// By the names.
    pub by_name: Draft<'a>,
}

/// The tagged name of a path with this number: the first, numbered 0, has none.
fn tagged(alloc: Global, tag: &str, path: &str, number: u32) -> Result<String, NoMemory>
    ensures { IfOk result (λ name. string_bytes name ≡ tagged tag.now path.now number) }
{
    let mut name = String::from_str(alloc, path)?;
    name.push('.')?;
    name.push_str(tag)?;
    if number > 0 {
        name.push('.')?;
        let digits = (u64::from(number) + 1).to_string(alloc)?;
        name.push_str(digits.as_str())?;
    }
    Ok(name)
}

/// Whether the name is a path of the files, or a directory of one.
fn is_taken(files: &Files, name: &str) -> Result<bool, NoMemory>
    ensures { IfOk result (λ b. b ≡ is_taken files.now name.now) }
{
    if files.get(name).is_some() {
        return Ok(true);
    }
    files.is_directory(name)
}

/// Whether the name may be given.
fn is_free(sides: &Sides, given: &Given, name: &str) -> Result<bool, NoMemory>
    requires { IsGiven given.now.by_name (map drafted given.now.order.items) }
    ensures { IfOk result (λ b. b ≡ is_free sides.now.base.now sides.now.ours.now sides.now.theirs.now (keys_of (map drafted given.now.order.items)) name.now) }
{
    if is_taken(sides.base, name)? || is_taken(sides.ours, name)? || is_taken(sides.theirs, name)? {
        return Ok(false);
    }
    Ok(!given.by_name.has(name))
}

/// The first tagged name of the path that is free. Fewer names can be taken than are tried.
fn first_free(
    alloc: Global,
    sides: &Sides,
    tag: &str,
    given: &Given,
    path: &str,
) -> Result<String, NoMemory>
    requires may { MayMerge sides.now.base.now sides.now.ours.now sides.now.theirs.now tag.now }
    requires few { length given.now.order.items ≤ 2 ^ 31 }
    requires given { IsGiven given.now.by_name (map drafted given.now.order.items) }
    ensures { IfOk result (λ name. IsTagged sides.now.base.now sides.now.ours.now sides.now.theirs.now tag.now (keys_of (map drafted given.now.order.items)) path.now (string_bytes name)) }
{
    path_laws();
    for number in 0..u32::MAX {
        let name = tagged(alloc, tag, path, number)?;
        if is_free(sides, given, name.as_str())? {
            return Ok(name);
        }
    }
    unreachable!()
}

/// Puts the files at tagged names of their paths, one after the other.
pub fn give_names<'a>(
    alloc: Global,
    sides: &Sides,
    tag: &str,
    files: &[DraftFile<'a>],
    draft: &mut Draft<'a>,
    given: &mut Given<'a>,
) -> Result<(), NoMemory>
    requires may { MayMerge sides.now.base.now sides.now.ours.now sides.now.theirs.now tag.now }
    requires few { length given.old.order.items + length files.now ≤ 2 ^ 31 }
    requires given { IsGiven given.old.by_name (map drafted given.old.order.items) }
    ensures given { OnOk result (IsGiven given.new.by_name (map drafted given.new.order.items)) }
    ensures named { OnOk result (IsNamed sides.now.base.now sides.now.ours.now sides.now.theirs.now tag.now (map drafted files.now)
        (map drafted given.old.order.items) (map drafted given.new.order.items) draft.old draft.new) }
{
    for file in files {
        let path = first_free(alloc, sides, tag, given, file.path.as_str())?;
        let text = file.text;
        draft.put(path.as_str(), text)?;
        given.by_name.put(path.as_str(), text)?;
        given.order.push(DraftFile { path, text })?;
    }
    Ok(())
}
