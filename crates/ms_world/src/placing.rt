//! Whether a version is placed: all that it reaches was put on enough services of a plan.

ghost use Rattle.std.specs.Prelude.{◌≡◌, ◌↔◌, ◌∷◌, [], Some, IfOk, OnOk, IsTrue, MatchOption, All, map};
ghost use Rattle.ms_core.specs.declared.want.Wanted.TheVariants as wanted;
ghost use Rattle.ms_core.specs.Placing.{want_of, wanted_of};
ghost use Rattle.ms_world.specs.PutTexts.{ArePutsNamed, IsPlacedInLogs};
ghost use Rattle.ms_world.specs.Reaching.{IsText, Meets, MeetsObject, MeetsText, Reaches};
ghost use Rattle.ms_object.specs.declared.object.Object.{Object};
ghost use Rattle.ms_object.specs.declared.object.Row.{Row};
ghost use Rattle.ms_object.specs.declared.object.SizedRow.{SizedRow};
ghost use Rattle.ms_object.specs.Objects.{Spells, format_of};
ghost use Rattle.ms_record.specs.Plans.{IsPlan};

use crate::puts::{Puts, puts_in};
use crate::reaching::Met;
use crate::service::Log;
use ms_base::{Name, NoMemory};
use ms_core::{Want, Wanted};
use ms_object::object::one_spelling;
use ms_object::{Format, Kind, Object, ObjectError, Row, SizedRow, blob_in, parse};
use ms_record::Plan;
use std::alloc::Global;

/// Whether the text is a blob of this format.
fn is_blob(format: Format, text: &[u8]) -> bool
    ensures { IsTrue result ↔ IsText (Some format) wanted.Blob text.now }
{
    one_spelling();
    blob_in(format, text).is_some()
}

/// The format that the object is of.
fn format_in(object: &Object) -> Format
    ensures { result ≡ format_of object.now }
{
    match object {
        Object::Blob { .. } | Object::File { .. } => Format::One,
        Object::Dir { .. } | Object::Version { .. } => Format::One,
        Object::Blob2 { .. } | Object::File2 { .. } => Format::Two,
        Object::Dir2 { .. } | Object::Version2 { .. } => Format::Two,
    }
}

/// The object that the text is.
fn object_of(alloc: Global, text: &[u8]) -> Result<Option<Object>, NoMemory>
    ensures { IfOk result (λ found. MatchOption found ((object : Object) → Spells text.now object → ⊥) (λ object. Spells text.now object)) }
{
    one_spelling();
    match parse(alloc, text) {
        Ok(object) => Ok(Some(object)),
        Err(ObjectError::NotAnObject) => Ok(None),
        Err(ObjectError::TooLarge { .. }) => Ok(None),
        Err(ObjectError::NoMemory) => Err(NoMemory),
    }
}

fn wanted_as(kind: Kind) -> Wanted
    ensures { result ≡ wanted_of kind }
{
    match kind {
        Kind::File => Wanted::File,
        Kind::Dir => Wanted::Directory,
    }
}

/// Meets the blobs of a file.
fn meet_blobs(blobs: &[Name], met: &mut Met) -> Result<(), NoMemory>
    ensures { OnOk result (Meets (map (want_of wanted.Blob) blobs.now) met.old met.new) }
{
    for name in blobs {
        met.meet(Want {
            name: *name,
            wanted: Wanted::Blob,
        })?;
    }
    Ok(())
}

/// Meets what the rows of a directory name.
fn meet_rows(rows: &[Row], met: &mut Met) -> Result<(), NoMemory>
    ensures { OnOk result (Meets (map (λ (row : Row). want_of (wanted_of row.kind) row.name) rows.now) met.old met.new) }
{
    for row in rows {
        met.meet(Want {
            name: row.name,
            wanted: wanted_as(row.kind),
        })?;
    }
    Ok(())
}

/// Meets what the rows of a directory of format 2 name.
fn meet_sized_rows(rows: &[SizedRow], met: &mut Met) -> Result<(), NoMemory>
    ensures { OnOk result (Meets (map (λ (row : SizedRow). want_of (wanted_of row.kind) row.name) rows.now) met.old met.new) }
{
    for row in rows {
        met.meet(Want {
            name: row.name,
            wanted: wanted_as(row.kind),
        })?;
    }
    Ok(())
}

/// Meets the root of a version.
fn meet_root(root: &Name, met: &mut Met) -> Result<(), NoMemory>
    ensures { OnOk result (Meets (want_of wanted.Directory root.now ∷ []) met.old met.new) }
{
    met.meet(Want {
        name: *root,
        wanted: Wanted::Directory,
    })
}

/// Meets what the object names, if it is of this kind; whether it is.
fn meet_object(wanted: Wanted, object: &Object, met: &mut Met) -> Result<bool, NoMemory>
    ensures { IfOk result (MeetsObject wanted object.now met.old met.new) }
{
    match (wanted, object) {
        (Wanted::Blob, Object::Blob { .. }) => {}
        (Wanted::Blob, Object::Blob2 { .. }) => {}
        (Wanted::File, Object::File { blobs, .. }) => meet_blobs(blobs.as_slice(), met)?,
        (Wanted::File, Object::File2 { blobs, .. }) => meet_blobs(blobs.as_slice(), met)?,
        (Wanted::Directory, Object::Dir { rows }) => meet_rows(rows.as_slice(), met)?,
        (Wanted::Directory, Object::Dir2 { rows }) => meet_sized_rows(rows.as_slice(), met)?,
        (Wanted::Version, Object::Version { root, .. }) => meet_root(root, met)?,
        (Wanted::Version, Object::Version2 { root, .. }) => meet_root(root, met)?,
        _ => return Ok(false),
    }
    Ok(true)
}

/// Meets what the text names, if it is an object of this format and kind; whether it is.
fn meet_read(
    alloc: Global,
    format: Format,
    wanted: Wanted,
    text: &[u8],
    met: &mut Met,
) -> Result<bool, NoMemory>
    ensures { IfOk result (MeetsText (Some format) wanted text.now met.old met.new) }
{
    one_spelling();
    let Some(object) = object_of(alloc, text)? else {
        return Ok(false);
    };
    if format_in(&object) != format {
        return Ok(false);
    }
    meet_object(wanted, &object, met)
}

/// The same, where a blob is not copied.
fn meet_of(
    alloc: Global,
    format: Format,
    wanted: Wanted,
    text: &[u8],
    met: &mut Met,
) -> Result<bool, NoMemory>
    ensures { IfOk result (MeetsText (Some format) wanted text.now met.old met.new) }
{
    match wanted {
        Wanted::Blob => Ok(is_blob(format, text)),
        _ => meet_read(alloc, format, wanted, text, met),
    }
}

/// Meets what the text names, if it is an object of the format, where there is one, and of this kind; whether it is.
fn meet_text(
    alloc: Global,
    format: Option<Format>,
    wanted: Wanted,
    text: &[u8],
    met: &mut Met,
) -> Result<bool, NoMemory>
    ensures { IfOk result (MeetsText format wanted text.now met.old met.new) }
{
    match format {
        Some(format) => meet_of(alloc, format, wanted, text, met),
        None => Ok(false),
    }
}

/// Reaches what is wanted, if it is there, and meets what it names; whether it is.
fn reach(
    alloc: Global,
    puts: &Puts<'_>,
    plan: &Plan,
    want: Want,
    met: &mut Met,
) -> Result<bool, NoMemory>
    ensures reaches { IfOk result (Reaches puts.now.entries plan.now want met.old met.new) }
    ensures rules { IsPlan plan.now }
{
    let rows = plan.rows();
    let Some(found) = puts.get(&want.name) else {
        return Ok(false);
    };
    if found.copies(rows) < plan.replicas() as usize {
        return Ok(false);
    }
    let format = Format::numbered(plan.format());
    meet_text(alloc, format, want.wanted, found.text, met)
}

/// Whether the version is placed under the plan by the first text that was put under each name of the plan's generation.
pub(crate) fn is_placed(
    alloc: Global,
    logs: &[Log],
    plan: &Plan,
    version: &Name,
) -> Result<bool, NoMemory>
    requires named { All ArePutsNamed logs.now }
    ensures { IfOk result (λ is. IsTrue is ↔ IsPlacedInLogs logs.now plan.now version.now) }
{
    one_spelling();
    let puts = puts_in(alloc, logs, plan.generation())?;
    let mut met = Met::new(alloc);
    met.meet(Want {
        name: *version,
        wanted: Wanted::Version,
    })?;
    let mut place = 0;
    while place < met.len() {
        if !reach(alloc, &puts, plan, met.at(place), &mut met)? {
            return Ok(false);
        }
        place += 1;
    }
    Ok(true)
}

#[cfg(test)]
mod tests;
