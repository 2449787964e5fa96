//! Objects, and the texts that spell them.

ghost use Rattle.std.specs.Prelude.{◌≡◌, ◌≤◌, ◌⊎◌, ◌==◌, ◌&&◌, nat_le, ℕ, List, [], Some, None, Ok, Err, IfOk, length, option_map};
ghost use Rattle.std.specs.Bool.{OnTrue, OnFalse};
ghost use Rattle.ms_base.specs.Fields.{IsBytes};
ghost use Rattle.ms_object.specs.declared.fault.ObjectError.TheVariants as errors;
ghost use Rattle.ms_object.specs.declared.format.Format.{Format};
ghost use Rattle.ms_object.specs.declared.object.Object.{Object};
ghost use Rattle.ms_object.specs.Objects.{IsObject, Spells, blob_size, blob_tag, children_of, least_blob, object_text};
ghost use Rattle.ms_object.specs.Reading.{Answers, blob_bytes, object_at, most_text};

use crate::fault::ObjectError;
use crate::format::Format;
use crate::reading::{is_blob_size, names_of_rows, names_of_sized_rows, one_name, read_object};
use ms_base::fields::{fields_are_spelled, read_u8, spelled_fields_are_read};
use ms_base::limits::OBJECT_BYTES;
use ms_base::{Bytes, ClientId, Items, Name};
use std::alloc::Global;

/// What a row of a directory names.
#[derive(Clone, Copy, Debug, PartialEq, Eq)]
pub enum Kind {
    File,
    Dir,
}

/// A row of a directory: a part of a path, and the object there.
#[derive(Drop)]
pub struct Row {
    pub kind: Kind,
    pub label: Bytes,
    pub name: Name,
}

/// A row of a directory of format 2: its size is the number of bytes in the file, or in all files below the directory.
#[derive(Drop)]
pub struct SizedRow {
    pub kind: Kind,
    pub label: Bytes,
    pub size: u64,
    pub name: Name,
}

/// A list of names.
pub type Names = Items<Name>;

/// The rows of a directory.
pub type Rows = Items<Row>;

/// The rows of a directory of format 2.
pub type SizedRows = Items<SizedRow>;

/// What a text under its SHA-256 says: `docs/FORMATS.md`, objects. The first four are of format 1, the others of
/// format 2.
#[derive(Drop)]
pub enum Object {
    /// Some bytes of a file, at most 65,536.
    Blob {
        text: Bytes,
    },
    /// A file of so many bytes, and the blobs that have them.
    File {
        size: u64,
        blobs: Names,
    },
    Dir {
        rows: Rows,
    },
    /// A version of the folder: who made it, the client's own count, the versions that it follows, and its root directory.
    Version {
        client: ClientId,
        number: u32,
        parents: Names,
        root: Name,
    },
    /// Some bytes of a file, 1 to 1,048,576.
    Blob2 {
        text: Bytes,
    },
    File2 {
        size: u64,
        blobs: Names,
    },
    Dir2 {
        rows: SizedRows,
    },
    Version2 {
        client: ClientId,
        number: u32,
        parents: Names,
        root: Name,
    },
}

/// The object that the text is: `docs/FORMATS.md`, objects.
pub fn parse(alloc: Global, text: &[u8]) -> Result<Object, ObjectError>
    // What is read is spelled so.
    ensures found { IfOk result (λ o. Spells text.now o) }
    // What is spelled so is read, but for want of memory.
    ensures only { (o : Object) → Spells text.now o → length text.now ≤ most_text → (result ≡ Ok o) ⊎ (result ≡ Err errors.NoMemory) }
    ensures exact { Answers text.now (object_at text.now) result }
{
    fields_are_spelled();
    spelled_fields_are_read();
    if text.len() as u64 > OBJECT_BYTES {
        return Err(ObjectError::TooLarge {
            bytes: text.len() as u64,
        });
    }
    read_object(alloc, text)
}

/// The names in an object, but for a version's parents.
pub fn children(alloc: Global, text: &[u8]) -> Result<Names, ObjectError>
    ensures exact { Answers text.now (option_map children_of (object_at text.now)) result }
    // A blob's takes no memory.
    ensures blob { (format : Format) (bytes : List ℕ) → blob_bytes format (object_at text.now) ≡ Some bytes → result ≡ Ok [] }
{
    if is_blob(text) {
        return Ok(Items::new(alloc));
    }
    children_in(alloc, text)
}

/// Whether the text is a blob, of either format.
fn is_blob(text: &[u8]) -> bool
    ensures yes { OnTrue result ((length text.now ≤ most_text) × (option_map children_of (object_at text.now) ≡ Some [])) }
    ensures no { OnFalse result ((format : Format) → blob_bytes format (object_at text.now) ≡ None) }
{
    one_spelling();
    let first = blob_in(Format::One, text).is_some();
    let second = blob_in(Format::Two, text).is_some();
    first || second
}

/// The names in an object whose text is read.
fn children_in(alloc: Global, text: &[u8]) -> Result<Names, ObjectError>
    ensures { Answers text.now (option_map children_of (object_at text.now)) result }
{
    match parse(alloc, text)? {
        Object::Blob { .. } | Object::Blob2 { .. } => Ok(Items::new(alloc)),
        Object::File { blobs, .. } | Object::File2 { blobs, .. } => Ok(blobs),
        Object::Dir { rows } => Ok(names_of_rows(alloc, rows.as_slice())?),
        Object::Dir2 { rows } => Ok(names_of_sized_rows(alloc, rows.as_slice())?),
        Object::Version { root, .. } | Object::Version2 { root, .. } => Ok(one_name(alloc, root)?),
    }
}

fn blob_byte(format: Format) -> u8
    ensures { result ≡ blob_tag format }
{
    match format {
        Format::One => b'B',
        Format::Two => b'C',
    }
}

/// The bytes of the blob of that format that the text is, without a copy of them.
pub fn blob_in(format: Format, text: &[u8]) -> Option<&[u8]>
    ensures { option_map (λ bytes. bytes.now) result ≡ blob_bytes format (object_at text.now) }
{
    one_spelling();
    let Some((tag, bytes)) = read_u8(text) else {
        return None;
    };
    if is_tagged_blob(format, tag, bytes) {
        Some(bytes)
    } else {
        None
    }
}

/// Whether a blob of that format has this tag and bytes.
fn is_tagged_blob(format: Format, tag: u8, bytes: &[u8]) -> bool
    ensures { result ≡ ((tag == blob_tag format) && (nat_le (least_blob format) (length bytes.now) && nat_le (length bytes.now) (blob_size format))) }
{
    tag == blob_byte(format) && is_blob_size(format, bytes.len())
}

/// An object has one spelling, and that is read.
pub fn one_spelling()
    ensures read { (text : List ℕ) (o : Object) → IsBytes text → object_at text ≡ Some o → Spells text o }
    ensures again { (text : List ℕ) (o : Object) → Spells text o → object_at text ≡ Some o }
    // No text is read as two values, in one format or in both.
    ensures one_value { (text : List ℕ) (o p : Object) → Spells text o → Spells text p → o ≡ p }
    // No two values share a text, in one format or across them.
    ensures one_text { (o p : Object) → IsObject o → IsObject p → object_text o ≡ object_text p → o ≡ p }
    // No object is longer than what is read.
    ensures short { (text : List ℕ) (o : Object) → Spells text o → length text ≤ most_text }
{
    fields_are_spelled();
    spelled_fields_are_read();
}
