//! Reading objects from the front of a text: `docs/FORMATS.md`, objects.

ghost use Rattle.std.specs.Prelude.{◌≡◌, ◌&&◌, ◌∷◌, [], IfOk, nat_le, option_map};
ghost use Rattle.std.specs.Result.{result_map_both};
ghost use Rattle.ms_object.specs.Objects.{names_of, sized_names_of, least_blob, blob_size, blob_object as blob_as, file_object as file_as, version_object as version_as};
ghost use Rattle.ms_object.specs.Reading.{Gives, names_at, blob_at, file_head_at, file_at, row_count_at, dir_at, version_head_at, version_at, tagged_at, object_at};

use crate::fault::ObjectError;
use crate::format::Format;
use crate::object::{Names, Object, Row, SizedRow};
use crate::rows::{read_rows, read_sized_rows};
use ms_base::fields::{Field, read_client, read_name, read_u8, read_u32, read_u64};
use ms_base::limits::{FILES, PARENTS};
use ms_base::{Bytes, ClientId, Items, Name, NoMemory};
use std::alloc::Global;

/// Reads so many names; answers them and the bytes after them.
fn read_names(alloc: Global, count: u32, text: &[u8]) -> Result<(Names, &[u8]), ObjectError>
    ensures { Gives (names_at count text.now) (result_map_both (λ x. (x.0, x.1.now)) (λ e. e) result) }
{
    let mut names = Items::new(alloc);
    let mut rest = text;
    for _ in 0..count {
        let Some((name, after)) = read_name(rest) else {
            return Err(ObjectError::NotAnObject);
        };
        names.push(name)?;
        rest = after;
    }
    Ok((names, rest))
}

/// Whether a blob may have so many bytes.
pub(crate) fn is_blob_size(format: Format, bytes: usize) -> bool
    ensures { result ≡ (nat_le (least_blob format) bytes && nat_le bytes (blob_size format)) }
{
    let bytes = bytes as u64;
    format.least_blob() <= bytes && bytes <= format.blob_bytes()
}

fn blob_object(format: Format, text: Bytes) -> Object
    ensures { result ≡ blob_as format text }
{
    match format {
        Format::One => Object::Blob { text },
        Format::Two => Object::Blob2 { text },
    }
}

#[tactic(auto, unfolding(crate::specs::Reading::blob_at))]
fn read_blob(alloc: Global, format: Format, text: &[u8]) -> Result<Object, ObjectError>
    ensures { Gives (blob_at format text.now) result }
{
    if !is_blob_size(format, text.len()) {
        return Err(ObjectError::NotAnObject);
    }
    let text = Bytes::of(alloc, text)?;
    Ok(blob_object(format, text))
}

/// A size, and the count of blobs that belongs to it.
#[tactic(auto, unfolding(crate::specs::Reading::file_head_at))]
fn read_file_head(format: Format, text: &[u8]) -> Field<'_, (u64, u32)>
    ensures { option_map (λ x. (x.0, x.1.now)) result ≡ file_head_at format text.now }
{
    let (size, rest) = read_u64(text)?;
    let (count, rest) = read_u32(rest)?;
    if size > format.file_bytes() || u64::from(count) != format.blobs_in(size) {
        return None;
    }
    Some(((size, count), rest))
}

fn file_object(format: Format, size: u64, blobs: Names) -> Object
    ensures { result ≡ file_as format size blobs }
{
    match format {
        Format::One => Object::File { size, blobs },
        Format::Two => Object::File2 { size, blobs },
    }
}

#[tactic(auto, unfolding(crate::specs::Reading::file_at))]
fn read_file(alloc: Global, format: Format, text: &[u8]) -> Result<Object, ObjectError>
    ensures { Gives (file_at format text.now) result }
{
    let Some(((size, count), rest)) = read_file_head(format, text) else {
        return Err(ObjectError::NotAnObject);
    };
    match read_names(alloc, count, rest) {
        Ok((blobs, [])) => Ok(file_object(format, size, blobs)),
        Ok(_) => Err(ObjectError::NotAnObject),
        Err(error) => Err(error),
    }
}

/// The count of a directory's rows.
#[tactic(auto, unfolding(crate::specs::Reading::row_count_at))]
fn read_row_count(text: &[u8]) -> Field<'_, u32>
    ensures { option_map (λ x. (x.0, x.1.now)) result ≡ row_count_at text.now }
{
    let (count, rest) = read_u32(text)?;
    if u64::from(count) > FILES {
        return None;
    }
    Some((count, rest))
}

#[tactic(auto, unfolding(crate::specs::Reading::dir_with))]
fn read_dir(alloc: Global, format: Format, text: &[u8]) -> Result<Object, ObjectError>
    ensures { Gives (dir_at format text.now) result }
{
    let Some((count, rest)) = read_row_count(text) else {
        return Err(ObjectError::NotAnObject);
    };
    match format {
        Format::One => {
            let rows = read_rows(alloc, count, rest)?;
            Ok(Object::Dir { rows })
        }
        Format::Two => {
            let rows = read_sized_rows(alloc, count, rest)?;
            Ok(Object::Dir2 { rows })
        }
    }
}

/// Client, number, and count of parents.
#[tactic(auto, unfolding(crate::specs::Reading::version_head_at))]
fn read_version_head(text: &[u8]) -> Field<'_, (ClientId, u32, u8)>
    ensures { option_map (λ x. (x.0, x.1.now)) result ≡ version_head_at text.now }
{
    let (client, rest) = read_client(text)?;
    let (number, rest) = read_u32(rest)?;
    let (count, rest) = read_u8(rest)?;
    if u64::from(count) > PARENTS {
        return None;
    }
    Some(((client, number, count), rest))
}

fn version_object(
    format: Format,
    client: ClientId,
    number: u32,
    parents: Names,
    root: Name,
) -> Object
    ensures { result ≡ version_as format client number parents root }
{
    match format {
        Format::One => Object::Version {
            client,
            number,
            parents,
            root,
        },
        Format::Two => Object::Version2 {
            client,
            number,
            parents,
            root,
        },
    }
}

#[tactic(auto, unfolding(crate::specs::Reading::version_at))]
fn read_version(alloc: Global, format: Format, text: &[u8]) -> Result<Object, ObjectError>
    ensures { Gives (version_at format text.now) result }
{
    let Some(((client, number, count), rest)) = read_version_head(text) else {
        return Err(ObjectError::NotAnObject);
    };
    let (parents, rest) = match read_names(alloc, u32::from(count), rest) {
        Ok(read) => read,
        Err(error) => return Err(error),
    };
    match read_name(rest) {
        Some((root, [])) => Ok(version_object(format, client, number, parents, root)),
        _ => Err(ObjectError::NotAnObject),
    }
}

#[tactic(auto, unfolding(crate::specs::Reading::tagged_at, crate::specs::Reading::tagged_as))]
fn read_tagged(alloc: Global, tag: u8, text: &[u8]) -> Result<Object, ObjectError>
    ensures { Gives (tagged_at tag text.now) result }
{
    match tag {
        b'B' => read_blob(alloc, Format::One, text),
        b'F' => read_file(alloc, Format::One, text),
        b'D' => read_dir(alloc, Format::One, text),
        b'V' => read_version(alloc, Format::One, text),
        b'C' => read_blob(alloc, Format::Two, text),
        b'G' => read_file(alloc, Format::Two, text),
        b'E' => read_dir(alloc, Format::Two, text),
        b'W' => read_version(alloc, Format::Two, text),
        _ => Err(ObjectError::NotAnObject),
    }
}

/// All of the text as an object.
#[tactic(auto, unfolding(crate::specs::Reading::object_at))]
pub(crate) fn read_object(alloc: Global, text: &[u8]) -> Result<Object, ObjectError>
    ensures { Gives (object_at text.now) result }
{
    let Some((tag, rest)) = read_u8(text) else {
        return Err(ObjectError::NotAnObject);
    };
    read_tagged(alloc, tag, rest)
}

/// The names in rows.
pub(crate) fn names_of_rows(alloc: Global, rows: &[Row]) -> Result<Names, NoMemory>
    ensures { IfOk result (λ names. names ≡ names_of rows.now) }
{
    let mut names = Items::new(alloc);
    for row in rows {
        names.push(row.name)?;
    }
    Ok(names)
}

/// The names in rows of format 2.
pub(crate) fn names_of_sized_rows(alloc: Global, rows: &[SizedRow]) -> Result<Names, NoMemory>
    ensures { IfOk result (λ names. names ≡ sized_names_of rows.now) }
{
    let mut names = Items::new(alloc);
    for row in rows {
        names.push(row.name)?;
    }
    Ok(names)
}

/// A list of one name.
pub(crate) fn one_name(alloc: Global, name: Name) -> Result<Names, NoMemory>
    ensures { IfOk result (λ names. names ≡ name ∷ []) }
{
    let mut names = Items::new(alloc);
    names.push(name)?;
    Ok(names)
}
