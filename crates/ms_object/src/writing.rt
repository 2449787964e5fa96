//! Writing objects at the end of a text: `docs/FORMATS.md`, objects.

ghost use Rattle.std.specs.Prelude.{◌≡◌, ◌≤◌, ◌<◌, ◌^◌, ◌∷◌, [], ◌++◌, OnOk, OnErr, length, flat_map, take};
ghost use Rattle.ms_base.specs.Fields.{Grows};
ghost use Rattle.ms_object.specs.declared.format.Format.TheVariants as formats;
ghost use Rattle.ms_object.specs.declared.object.Object.TheVariants as objects;
ghost use Rattle.ms_object.specs.Objects.{AreNames, AreSizes, IsBlob, IsObject, IsDir, IsFile, IsSizedDir, IsVersion, blob_tag, blob_text, file_tag, file_text, front_text, names_of, names_text, object_text, row_text, sized_names_of, sized_row_text, version_tag, version_text};
ghost use Rattle.ms_base.specs.declared.limits.TheConstants.{PART_BYTES};

use crate::format::Format;
use crate::object::{Kind, Row, Rows, SizedRow, SizedRows};
use ms_base::fields::{push_bytes, push_name, push_u8, push_u32, push_u64};
use ms_base::{ClientId, Name, NoMemory};

/// Puts the object of these bytes, at most 65,536, at the end of `out`.
pub fn write_blob(text: &[u8], out: &mut Vec<u8>) -> Result<(), NoMemory>
    requires { IsBlob formats.One text.now }
    ensures ok { OnOk result (out.new.items ≡ out.old.items ++ object_text (objects.Blob text.now)) }
    ensures err { OnErr result (out.new.items ≡ out.old.items) }
{
    let start = out.len();
    let written = push_blob(Format::One, text, out);
    cut_unless(written, start, out)
}

/// Puts the object of format 2 of these bytes, 1 to 1,048,576, at the end of `out`.
pub fn write_blob2(text: &[u8], out: &mut Vec<u8>) -> Result<(), NoMemory>
    requires { IsBlob formats.Two text.now }
    ensures ok { OnOk result (out.new.items ≡ out.old.items ++ object_text (objects.Blob2 text.now)) }
    ensures err { OnErr result (out.new.items ≡ out.old.items) }
{
    let start = out.len();
    let written = push_blob(Format::Two, text, out);
    cut_unless(written, start, out)
}

/// Puts the object of a file of this size and these blobs at the end of `out`.
pub fn write_file(size: u64, blobs: &[Name], out: &mut Vec<u8>) -> Result<(), NoMemory>
    requires { IsFile formats.One size blobs.now }
    ensures object { OnOk result (IsObject (objects.File size blobs.now)) }
    ensures ok { OnOk result (out.new.items ≡ out.old.items ++ object_text (objects.File size blobs.now)) }
    ensures err { OnErr result (out.new.items ≡ out.old.items) }
{
    let start = out.len();
    let written = push_file(Format::One, size, blobs, out);
    cut_unless(written, start, out)
}

/// Puts the object of format 2 of a file of this size and these blobs at the end of `out`.
pub fn write_file2(size: u64, blobs: &[Name], out: &mut Vec<u8>) -> Result<(), NoMemory>
    requires { IsFile formats.Two size blobs.now }
    ensures object { OnOk result (IsObject (objects.File2 size blobs.now)) }
    ensures ok { OnOk result (out.new.items ≡ out.old.items ++ object_text (objects.File2 size blobs.now)) }
    ensures err { OnErr result (out.new.items ≡ out.old.items) }
{
    let start = out.len();
    let written = push_file(Format::Two, size, blobs, out);
    cut_unless(written, start, out)
}

/// Puts the object of a directory of these rows at the end of `out`.
pub fn write_dir(rows: &Rows, out: &mut Vec<u8>) -> Result<(), NoMemory>
    requires { IsDir rows.now }
    ensures object { OnOk result (IsObject (objects.Dir rows.now)) }
    ensures ok { OnOk result (out.new.items ≡ out.old.items ++ object_text (objects.Dir rows.now)) }
    ensures err { OnErr result (out.new.items ≡ out.old.items) }
{
    let start = out.len();
    let written = push_dir(rows.as_slice(), out);
    cut_unless(written, start, out)
}

/// Puts the object of format 2 of a directory of these rows at the end of `out`.
pub fn write_dir2(rows: &SizedRows, out: &mut Vec<u8>) -> Result<(), NoMemory>
    requires { IsSizedDir rows.now }
    ensures object { OnOk result (IsObject (objects.Dir2 rows.now)) }
    ensures ok { OnOk result (out.new.items ≡ out.old.items ++ object_text (objects.Dir2 rows.now)) }
    ensures err { OnErr result (out.new.items ≡ out.old.items) }
{
    let start = out.len();
    let written = push_dir2(rows.as_slice(), out);
    cut_unless(written, start, out)
}

/// Puts the object of a version at the end of `out`.
pub fn write_version(
    client: ClientId,
    number: u32,
    parents: &[Name],
    root: &Name,
    out: &mut Vec<u8>,
) -> Result<(), NoMemory>
    requires { IsVersion client number parents.now }
    ensures object { OnOk result (IsObject (objects.Version client number parents.now root.now)) }
    ensures ok { OnOk result (out.new.items ≡ out.old.items ++ object_text (objects.Version client number parents.now root.now)) }
    ensures err { OnErr result (out.new.items ≡ out.old.items) }
{
    let start = out.len();
    let written = push_version(Format::One, client, number, parents, root, out);
    cut_unless(written, start, out)
}

/// Puts the object of a version of format 2 at the end of `out`.
pub fn write_version2(
    client: ClientId,
    number: u32,
    parents: &[Name],
    root: &Name,
    out: &mut Vec<u8>,
) -> Result<(), NoMemory>
    requires { IsVersion client number parents.now }
    ensures object { OnOk result (IsObject (objects.Version2 client number parents.now root.now)) }
    ensures ok { OnOk result (out.new.items ≡ out.old.items ++ object_text (objects.Version2 client number parents.now root.now)) }
    ensures err { OnErr result (out.new.items ≡ out.old.items) }
{
    let start = out.len();
    let written = push_version(Format::Two, client, number, parents, root, out);
    cut_unless(written, start, out)
}

/// Cuts `out` back to its first `start` bytes, where writing behind them failed.
fn cut_unless(
    written: Result<(), NoMemory>,
    start: usize,
    out: &mut Vec<u8>,
) -> Result<(), NoMemory>
    ensures same { result ≡ written }
    ensures ok { OnOk result (out.new.items ≡ out.old.items) }
    ensures err { OnErr result (out.new.items ≡ take start out.old.items) }
{
    if written.is_err() {
        out.truncate(start);
    }
    written
}

fn push_blob_tag(format: Format, out: &mut Vec<u8>) -> Result<(), NoMemory>
    ensures ok { OnOk result (out.new.items ≡ out.old.items ++ blob_tag format ∷ []) }
    ensures grows { Grows out.old.items out.new.items }
{
    match format {
        Format::One => push_u8(out, b'B'),
        Format::Two => push_u8(out, b'C'),
    }
}

fn push_file_tag(format: Format, out: &mut Vec<u8>) -> Result<(), NoMemory>
    ensures ok { OnOk result (out.new.items ≡ out.old.items ++ file_tag format ∷ []) }
    ensures grows { Grows out.old.items out.new.items }
{
    match format {
        Format::One => push_u8(out, b'F'),
        Format::Two => push_u8(out, b'G'),
    }
}

fn push_version_tag(format: Format, out: &mut Vec<u8>) -> Result<(), NoMemory>
    ensures ok { OnOk result (out.new.items ≡ out.old.items ++ version_tag format ∷ []) }
    ensures grows { Grows out.old.items out.new.items }
{
    match format {
        Format::One => push_u8(out, b'V'),
        Format::Two => push_u8(out, b'W'),
    }
}

fn push_names(names: &[Name], out: &mut Vec<u8>) -> Result<(), NoMemory>
    ensures ok { OnOk result (out.new.items ≡ out.old.items ++ names_text names.now) }
    ensures grows { Grows out.old.items out.new.items }
    ensures names { OnOk result (AreNames names.now) }
{
    for name in names {
        push_name(out, name)?;
    }
    Ok(())
}

fn push_blob(format: Format, text: &[u8], out: &mut Vec<u8>) -> Result<(), NoMemory>
    ensures ok { OnOk result (out.new.items ≡ out.old.items ++ blob_text format text.now) }
    ensures grows { Grows out.old.items out.new.items }
{
    push_blob_tag(format, out)?;
    push_bytes(out, text)
}

fn push_file(format: Format, size: u64, blobs: &[Name], out: &mut Vec<u8>) -> Result<(), NoMemory>
    requires { IsFile format size blobs.now }
    ensures ok { OnOk result (out.new.items ≡ out.old.items ++ file_text format size blobs.now) }
    ensures grows { Grows out.old.items out.new.items }
    ensures names { OnOk result (AreNames blobs.now) }
{
    push_file_tag(format, out)?;
    push_u64(out, size)?;
    push_u32(out, blobs.len() as u32)?;
    push_names(blobs, out)
}

/// Kind, length of the label, label.
fn push_front(kind: Kind, label: &[u8], out: &mut Vec<u8>) -> Result<(), NoMemory>
    requires { length label.now ≤ PART_BYTES }
    ensures ok { OnOk result (out.new.items ≡ out.old.items ++ front_text kind label.now) }
    ensures grows { Grows out.old.items out.new.items }
{
    let kind = match kind {
        Kind::File => b'f',
        Kind::Dir => b'd',
    };
    push_bytes(out, &[kind, label.len() as u8])?;
    push_bytes(out, label)
}

fn push_row(row: &Row, out: &mut Vec<u8>) -> Result<(), NoMemory>
    requires { length row.now.label ≤ PART_BYTES }
    ensures ok { OnOk result (out.new.items ≡ out.old.items ++ row_text row.now) }
    ensures grows { Grows out.old.items out.new.items }
    ensures name { OnOk result (length row.now.name.0 ≡ 32) }
{
    push_front(row.kind, row.label.as_slice(), out)?;
    push_name(out, &row.name)
}

fn push_sized_row(row: &SizedRow, out: &mut Vec<u8>) -> Result<(), NoMemory>
    requires { length row.now.label ≤ PART_BYTES }
    ensures ok { OnOk result (out.new.items ≡ out.old.items ++ sized_row_text row.now) }
    ensures grows { Grows out.old.items out.new.items }
    ensures fits { OnOk result ((length row.now.name.0 ≡ 32) × (row.now.size < 2 ^ 64)) }
{
    let size = row.size;
    push_front(row.kind, row.label.as_slice(), out)?;
    push_u64(out, size)?;
    push_name(out, &row.name)
}

fn push_rows(rows: &[Row], out: &mut Vec<u8>) -> Result<(), NoMemory>
    requires { IsDir rows.now }
    ensures ok { OnOk result (out.new.items ≡ out.old.items ++ flat_map row_text rows.now) }
    ensures grows { Grows out.old.items out.new.items }
    ensures names { OnOk result (AreNames (names_of rows.now)) }
{
    for row in rows {
        push_row(row, out)?;
    }
    Ok(())
}

fn push_sized_rows(rows: &[SizedRow], out: &mut Vec<u8>) -> Result<(), NoMemory>
    requires { IsSizedDir rows.now }
    ensures ok { OnOk result (out.new.items ≡ out.old.items ++ flat_map sized_row_text rows.now) }
    ensures grows { Grows out.old.items out.new.items }
    ensures fits { OnOk result (AreNames (sized_names_of rows.now) × AreSizes rows.now) }
{
    for row in rows {
        push_sized_row(row, out)?;
    }
    Ok(())
}

fn push_dir(rows: &[Row], out: &mut Vec<u8>) -> Result<(), NoMemory>
    requires { IsDir rows.now }
    ensures ok { OnOk result (out.new.items ≡ out.old.items ++ object_text (objects.Dir rows.now)) }
    ensures grows { Grows out.old.items out.new.items }
    ensures object { OnOk result (IsObject (objects.Dir rows.now)) }
{
    push_u8(out, b'D')?;
    push_u32(out, rows.len() as u32)?;
    push_rows(rows, out)
}

fn push_dir2(rows: &[SizedRow], out: &mut Vec<u8>) -> Result<(), NoMemory>
    requires { IsSizedDir rows.now }
    ensures ok { OnOk result (out.new.items ≡ out.old.items ++ object_text (objects.Dir2 rows.now)) }
    ensures grows { Grows out.old.items out.new.items }
    ensures object { OnOk result (IsObject (objects.Dir2 rows.now)) }
{
    push_u8(out, b'E')?;
    push_u32(out, rows.len() as u32)?;
    push_sized_rows(rows, out)
}

fn push_version(
    format: Format,
    client: ClientId,
    number: u32,
    parents: &[Name],
    root: &Name,
    out: &mut Vec<u8>,
) -> Result<(), NoMemory>
    requires { IsVersion client number parents.now }
    ensures ok { OnOk result (out.new.items ≡ out.old.items ++ version_text format client number parents.now root.now) }
    ensures grows { Grows out.old.items out.new.items }
    ensures names { OnOk result (AreNames parents.now × (length root.now.0 ≡ 32)) }
{
    push_version_tag(format, out)?;
    push_u32(out, client.0)?;
    push_u32(out, number)?;
    push_u8(out, parents.len() as u8)?;
    push_names(parents, out)?;
    push_name(out, root)
}
