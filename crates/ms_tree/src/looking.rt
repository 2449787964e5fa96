//! Looking at single objects of a tree in a store.

ghost use Rattle.std.specs.Prelude.{◌≡◌, ◌≤◌, [], map, All, IsSome, None, Err, IfOk, IfErr, IfNone, IfSome, option_map};
ghost use Rattle.std.specs.Result.{result_map_both};
ghost use Rattle.ms_object.specs.declared.fault.GatherError.TheVariants as faults;
ghost use Rattle.ms_object.specs.Objects.{IsDir, IsFile, IsObject, IsSizedDir};
ghost use Rattle.ms_object.specs.Reading.{object_at};
ghost use Rattle.ms_object.specs.Stores.{text_of};
ghost use Rattle.ms_object.specs.Trees.{or_fault, object_named as object_in, object_or_fault, top_of, inner_rows_of, blob_of, blobs_joined, file_in, file_of, rows_in, unsized, walk, walk_rows};
ghost use Rattle.ms_tree.specs.Gathering.{Gives};
ghost use Rattle.ms_tree.specs.Looking.{HaveBytes, IsUnfound, root_rows_of};

use ms_base::limits::LEVELS;
use ms_base::{Items, Name, NoMemory};
use ms_object::object::one_spelling;
use ms_object::{
    Format, GatherError, Names, Object, ObjectError, Rows, SizedRow, SizedRows, Store, blob_in,
    parse,
};
use std::alloc::Global;

/// The rows of the directory of that format and name, which may have none: a root is one. `Missing` comes where the
/// store has nothing of the name, `WrongKind` where it has another object or none: `docs/FORMATS.md`, objects.
pub fn root_rows(
    alloc: Global,
    store: &Store,
    format: Format,
    name: &Name,
) -> Result<SizedRows, GatherError>
    ensures exact { Gives (or_fault (object_in (text_of store.now) name.now) (root_rows_of format name.now)) result }
    ensures fault { IfErr result (IsUnfound (text_of store.now) name.now) }
    // It is looked up before memory is taken.
    ensures missing { text_of store.now name.now.0 ≡ None → result ≡ Err (faults.Missing name.now) }
    ensures rows { IfOk result IsSizedDir }
    // The walk below it is that of its rows.
    ensures walk { IfOk result (λ rows. walk (text_of store.now) name.now ≡ walk_rows format LEVELS (text_of store.now) [] rows) }
{
    let object = object_named(alloc, store, name)?;
    match rows_of(alloc, format, object)? {
        Some(rows) => Ok(rows),
        None => Err(GatherError::WrongKind { name: *name }),
    }
}

/// The rows of the directory of that format and name, which stands below another and has some. The errors are those of
/// [`root_rows`]; no rows are the wrong kind.
pub fn inner_rows(
    alloc: Global,
    store: &Store,
    format: Format,
    name: &Name,
) -> Result<SizedRows, GatherError>
    ensures exact { Gives (or_fault (object_in (text_of store.now) name.now) (inner_rows_of format name.now)) result }
    ensures fault { IfErr result (IsUnfound (text_of store.now) name.now) }
    ensures missing { text_of store.now name.now.0 ≡ None → result ≡ Err (faults.Missing name.now) }
    ensures rows { IfOk result IsSizedDir }
{
    let object = object_named(alloc, store, name)?;
    let Some(rows) = rows_of(alloc, format, object)? else {
        return Err(GatherError::WrongKind { name: *name });
    };
    if rows.len() == 0 {
        return Err(GatherError::WrongKind { name: *name });
    }
    Ok(rows)
}

/// A file: its size in bytes, and the blobs that have its bytes.
#[derive(Drop)]
pub struct FileParts {
    pub size: u64,
    pub blobs: Names,
}

/// The size and the blobs of the file of that format and name. The errors are those of [`root_rows`].
pub fn file_parts(
    alloc: Global,
    store: &Store,
    format: Format,
    name: &Name,
) -> Result<FileParts, GatherError>
    ensures exact { Gives (or_fault (object_in (text_of store.now) name.now) (file_of format name.now)) (result_map_both (λ file. (file.size, file.blobs)) (λ e. e) result) }
    ensures fault { IfErr result (IsUnfound (text_of store.now) name.now) }
    ensures missing { text_of store.now name.now.0 ≡ None → result ≡ Err (faults.Missing name.now) }
    ensures fits { IfOk result (λ file. IsFile format file.size file.blobs) }
{
    let object = object_named(alloc, store, name)?;
    match parts_in(format, object) {
        Some(file) => Ok(file),
        None => Err(GatherError::WrongKind { name: *name }),
    }
}

/// The first blob of the file that is none of that format, or has other than so many bytes as the size of the file leaves
/// for it: each but the last is whole. No blob is copied.
pub fn wrong_blob(store: &Store, format: Format, file: &FileParts) -> Option<Name>
    requires count { IsFile format file.now.size file.now.blobs }
    requires there { All (λ blob. IsSome (text_of store.now blob.0)) file.now.blobs }
    ensures none { IfNone result (HaveBytes format (text_of store.now) file.now.size file.now.blobs) }
    ensures first { IfSome result (λ blob. blobs_joined format (text_of store.now) file.now.size file.now.blobs ≡ Err (faults.WrongKind blob)) }
{
    let mut left = file.size;
    let most = format.blob_bytes();
    for blob in file.blobs.as_slice() {
        let wanted = most.min(left);
        match blob_named(store, format, blob, wanted) {
            Ok(_bytes) => left -= wanted,
            Err(_error) => return Some(*blob),
        }
    }
    None
}

/// What the object of a file says, where it is one of that format.
fn parts_in(format: Format, object: Object) -> Option<FileParts>
    requires { IsObject object }
    ensures parts { option_map (λ f. (f.size, f.blobs)) result ≡ file_in format object }
    ensures fits { IfSome result (λ f. IsFile format f.size f.blobs) }
{
    match (format, object) {
        (Format::One, Object::File { size, blobs }) => Some(FileParts { size, blobs }),
        (Format::Two, Object::File2 { size, blobs }) => Some(FileParts { size, blobs }),
        _ => None,
    }
}

/// The bytes of the blob of that name, which has so many.
pub(crate) fn blob_named<'a>(
    store: &'a Store,
    format: Format,
    name: &Name,
    size: u64,
) -> Result<&'a [u8], GatherError>
    ensures { or_fault (object_in (text_of store.now) name.now) (blob_of format name.now size) ≡ result_map_both (λ x. x.now) (λ e. e) result }
{
    match store.get(name) {
        Some(text) => read_blob(format, name, text, size),
        None => Err(GatherError::Missing { name: *name }),
    }
}

/// The bytes of the blob that the text of that name is.
fn read_blob<'a>(
    format: Format,
    name: &Name,
    text: &'a [u8],
    size: u64,
) -> Result<&'a [u8], GatherError>
    ensures { or_fault (object_or_fault name.now (object_at text.now)) (blob_of format name.now size) ≡ result_map_both (λ x. x.now) (λ e. e) result }
{
    let Some(bytes) = blob_in(format, text) else {
        return Err(GatherError::WrongKind { name: *name });
    };
    if bytes.len() as u64 != size {
        return Err(GatherError::WrongKind { name: *name });
    }
    Ok(bytes)
}

/// The rows of a directory, where the object is one of that format.
fn rows_of(alloc: Global, format: Format, object: Object) -> Result<Option<SizedRows>, NoMemory>
    requires { IsObject object }
    ensures rows { IfOk result (λ rows. rows ≡ rows_in format object) }
    ensures dir { IfOk result (λ rows. IfSome rows IsSizedDir) }
{
    match (format, object) {
        (Format::One, Object::Dir { rows }) => Ok(Some(without_sizes(alloc, rows)?)),
        (Format::Two, Object::Dir2 { rows }) => Ok(Some(rows)),
        _ => Ok(None),
    }
}

/// The rows of a directory of format 1, which say no size.
fn without_sizes(alloc: Global, rows: Rows) -> Result<SizedRows, NoMemory>
    requires { IsDir rows }
    ensures rows { IfOk result (λ sized. sized ≡ map unsized rows) }
    ensures dir { IfOk result IsSizedDir }
{
    let sized = rows.into_vec().into_iter().map(|row| SizedRow {
        kind: row.kind,
        label: row.label,
        size: 0,
        name: row.name,
    });
    Ok(Items::from_vec(sized.collect(alloc)?))
}

/// The root of a tree: its format, and its rows.
#[derive(Drop)]
pub(crate) struct Top {
    pub(crate) format: Format,
    pub(crate) rows: SizedRows,
}

/// The directory of that name, of either format.
pub(crate) fn top_named(alloc: Global, store: &Store, name: &Name) -> Result<Top, GatherError>
    ensures exact { Gives (or_fault (object_in (text_of store.now) name.now) (top_of name.now)) (result_map_both (λ top. (top.format, top.rows)) (λ e. e) result) }
    ensures rows { IfOk result (λ top. IsSizedDir top.rows) }
    ensures missing { text_of store.now name.now.0 ≡ None → result ≡ Err (faults.Missing name.now) }
{
    match object_named(alloc, store, name)? {
        Object::Dir { rows } => Ok(Top {
            format: Format::One,
            rows: without_sizes(alloc, rows)?,
        }),
        Object::Dir2 { rows } => Ok(Top {
            format: Format::Two,
            rows,
        }),
        _ => Err(GatherError::WrongKind { name: *name }),
    }
}

/// The object of that name.
fn object_named(alloc: Global, store: &Store, name: &Name) -> Result<Object, GatherError>
    ensures exact { Gives (object_in (text_of store.now) name.now) result }
    ensures fault { IfErr result (IsUnfound (text_of store.now) name.now) }
    ensures ranges { IfOk result IsObject }
    ensures missing { text_of store.now name.now.0 ≡ None → result ≡ Err (faults.Missing name.now) }
{
    match store.get(name) {
        Some(text) => read_object(alloc, name, text),
        None => Err(GatherError::Missing { name: *name }),
    }
}

/// The object that the text of that name is.
fn read_object(alloc: Global, name: &Name, text: &[u8]) -> Result<Object, GatherError>
    ensures exact { Gives (object_or_fault name.now (object_at text.now)) result }
    ensures ranges { IfOk result IsObject }
{
    one_spelling();
    match parse(alloc, text) {
        Ok(object) => Ok(object),
        Err(ObjectError::NoMemory) => Err(GatherError::NoMemory),
        Err(ObjectError::NotAnObject) => Err(GatherError::WrongKind { name: *name }),
        Err(ObjectError::TooLarge { .. }) => Err(GatherError::WrongKind { name: *name }),
    }
}
