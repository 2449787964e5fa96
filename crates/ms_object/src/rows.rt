//! Reading rows of directories: `docs/FORMATS.md`, objects.

ghost use Rattle.std.specs.Prelude.{◌≡◌, option_map};
ghost use Rattle.ms_object.specs.Reading.{Gives, kind_of, label_if, front_at, row_at, sized_row_at, rows_at};

use crate::fault::ObjectError;
use crate::label::is_label;
use crate::object::{Kind, Row, Rows, SizedRow, SizedRows};
use ms_base::fields::{Field, read_bytes, read_name, read_u8, read_u64};
use ms_base::{Bytes, Items, Name};
use std::alloc::Global;

fn read_kind(byte: u8) -> Option<Kind>
    ensures { result ≡ kind_of byte }
{
    match byte {
        b'f' => Some(Kind::File),
        b'd' => Some(Kind::Dir),
        _ => None,
    }
}

/// Whether this is a label that comes behind the one before it.
fn is_next(before: &[u8], label: &[u8]) -> bool
    ensures { result ≡ label_if before.now label.now }
{
    is_label(label) && before < label
}

/// The front of a row, whose label stands in the text.
#[derive(Clone, Copy)]
struct RowFront<'a> {
    kind: Kind,
    label: &'a [u8],
}

/// A row of format 1, whose label stands in the text.
#[derive(Clone, Copy)]
struct RowPart<'a> {
    kind: Kind,
    label: &'a [u8],
    name: Name,
}

/// A row of format 2, whose label stands in the text.
#[derive(Clone, Copy)]
struct SizedRowPart<'a> {
    kind: Kind,
    label: &'a [u8],
    size: u64,
    name: Name,
}

/// Kind and label of a row behind one of this label.
#[tactic(auto, unfolding(crate::specs::Reading::front_at))]
fn read_front<'a>(before: &[u8], text: &'a [u8]) -> Field<'a, RowFront<'a>>
    ensures { option_map (λ x. ((x.0.kind, x.0.label.now), x.1.now)) result ≡ front_at before.now text.now }
{
    let (byte, rest) = read_u8(text)?;
    let kind = read_kind(byte)?;
    let (count, rest) = read_u8(rest)?;
    let Some((label, rest)) = read_bytes(count, rest) else {
        return None;
    };
    if !is_next(before, label) {
        return None;
    }
    Some((RowFront { kind, label }, rest))
}

/// A row behind one of this label.
#[tactic(auto, unfolding(crate::specs::Reading::row_at))]
fn read_row<'a>(before: &[u8], text: &'a [u8]) -> Field<'a, RowPart<'a>>
    ensures { option_map (λ x. (record { kind = x.0.kind; label = x.0.label.now; name = x.0.name }, (x.0.label.now, x.1.now))) result ≡ row_at (before.now, text.now) }
{
    let (front, rest) = read_front(before, text)?;
    let (name, rest) = read_name(rest)?;
    let part = RowPart {
        kind: front.kind,
        label: front.label,
        name,
    };
    Some((part, rest))
}

/// A row with its size behind one of this label.
#[tactic(auto, unfolding(crate::specs::Reading::sized_row_at))]
fn read_sized_row<'a>(before: &[u8], text: &'a [u8]) -> Field<'a, SizedRowPart<'a>>
    ensures { option_map (λ x. (record { kind = x.0.kind; label = x.0.label.now; size = x.0.size; name = x.0.name }, (x.0.label.now, x.1.now))) result ≡ sized_row_at (before.now, text.now) }
{
    let (front, rest) = read_front(before, text)?;
    let (size, rest) = read_u64(rest)?;
    let (name, rest) = read_name(rest)?;
    let part = SizedRowPart {
        kind: front.kind,
        label: front.label,
        size,
        name,
    };
    Some((part, rest))
}

/// So many rows, whose labels rise, and no byte after them.
pub(crate) fn read_rows(alloc: Global, count: u32, text: &[u8]) -> Result<Rows, ObjectError>
    ensures { Gives (rows_at row_at count text.now) result }
{
    let mut rows = Items::new(alloc);
    let mut before: &[u8] = &[];
    let mut rest = text;
    for _ in 0..count {
        let Some((row, after)) = read_row(before, rest) else {
            return Err(ObjectError::NotAnObject);
        };
        rows.push(Row {
            kind: row.kind,
            label: Bytes::of(alloc, row.label)?,
            name: row.name,
        })?;
        before = row.label;
        rest = after;
    }
    match rest {
        [] => Ok(rows),
        _ => Err(ObjectError::NotAnObject),
    }
}

/// So many rows with their sizes, whose labels rise, and no byte after them.
pub(crate) fn read_sized_rows(
    alloc: Global,
    count: u32,
    text: &[u8],
) -> Result<SizedRows, ObjectError>
    ensures { Gives (rows_at sized_row_at count text.now) result }
{
    let mut rows = Items::new(alloc);
    let mut before: &[u8] = &[];
    let mut rest = text;
    for _ in 0..count {
        let Some((row, after)) = read_sized_row(before, rest) else {
            return Err(ObjectError::NotAnObject);
        };
        rows.push(SizedRow {
            kind: row.kind,
            label: Bytes::of(alloc, row.label)?,
            size: row.size,
            name: row.name,
        })?;
        before = row.label;
        rest = after;
    }
    match rest {
        [] => Ok(rows),
        _ => Err(ObjectError::NotAnObject),
    }
}
