//! Gathering the files of a tree from a store.

ghost use Rattle.std.specs.Prelude.{◌≡◌, ◌⊎◌, ◌≤◌, ◌∷◌, [], ◌++◌, length, map, take, List, Some, None, Ok, Err, IfOk, IfErr, IfSome, OnOk, option_map};
ghost use Rattle.std.specs.Result.{result_map_both};
ghost use Rattle.std.specs.Map.{keys_of};
ghost use Rattle.std.specs.Ordering.{nat_cmp};
ghost use Rattle.std.specs.Cmp.Lexicographic.{slice_cmp};
ghost use Rattle.std.specs.List.Sorted.{IsStrictlySortedBy};
ghost use Rattle.ms_base.specs.declared.names.Name.{Name};
ghost use Rattle.ms_object.specs.declared.fault.GatherError.TheVariants as faults;
ghost use Rattle.ms_object.specs.declared.format.Format.{Format};
ghost use Rattle.ms_object.specs.Objects.{IsDir, IsObject, IsSizedDir, most_file};
ghost use Rattle.ms_object.specs.Labels.{IsLabel};
ghost use Rattle.ms_object.specs.Reading.{object_at};
ghost use Rattle.ms_object.specs.Stores.{text_of};
ghost use Rattle.ms_object.specs.Trees.{FileText, Texts, IsTree, or_fault, object_named as object_in, object_or_fault, top_of, inner_rows_of, blob_of, blobs_joined, file_in, file_named, met_file, rows_in, first_fault, unsized, walk, walk_rows};
ghost use Rattle.ms_tree.specs.Files.{IsFiles};
ghost use Rattle.ms_tree.specs.Stores.{AreNamed, HasAll, StoresCollide};
ghost use Rattle.ms_tree.specs.Planting.{Collide, IsPlanted, object_texts};
ghost use Rattle.ms_tree.specs.Gathering.{Gives, IsFront, IsFilePath, IsFree, AreFree, Gathers, SaysSize, StopsAt, row_below, row_met};

use crate::files::Files;
use crate::limits::FilesError;
use crate::looking::{blob_named, file_parts, inner_rows, top_named};
use ms_base::limits::{LEVELS, PATH_BYTES};
use ms_base::{Bytes, Name, Quantity};
use ms_object::{Format, GatherError, Kind, SizedRow, Store};
use std::alloc::Global;

/// The files of the tree below the root of that name, whose format all objects of the tree have. The first fault of a
/// walk refuses it: `docs/FORMATS.md`, objects.
pub fn gather(alloc: Global, store: &Store, root: &Name) -> Result<Files, GatherError>
    ensures ok { IfOk result (λ files. IsTree (text_of store.now) root.now files) }
    ensures fault { IfErr result (λ e. (e ≡ faults.NoMemory) ⊎ (first_fault 0 0 (walk (text_of store.now) root.now) ≡ Some e)) }
    // The root is looked up before memory is taken.
    ensures missing { text_of store.now root.now.0 ≡ None → result ≡ Err (faults.Missing root.now) }
    // What was planted of files gives them back.
    ensures back { (format : Format) (files : List FileText) → IsFiles files → IsPlanted format files (text_of store.now) root.now
        → Collide (object_texts format LEVELS files) ⊎ (result ≡ Ok files) ⊎ (result ≡ Err faults.NoMemory) }
{
    let top = top_named(alloc, store, root)?;
    let mut path = Vec::new(alloc);
    let mut files = Files::new(alloc);
    gather_rows(
        alloc,
        store,
        top.format,
        LEVELS,
        top.rows.as_slice(),
        &mut path,
        &mut files,
    )?;
    files.shows();
    Ok(files)
}

/// Gathers what stands at the rows of a directory. Their paths begin with `path`, which is empty or
/// ends in a slash, and have `left` parts more at most.
#[cycle(gather_rows)]
fn gather_rows(
    alloc: Global,
    store: &Store,
    format: Format,
    left: u64,
    rows: &[SizedRow],
    path: &mut Vec<u8>,
    files: &mut Files,
) -> Result<(), GatherError>
    requires front { IsFront left path.old.items }
    requires rows { IsSizedDir rows.now }
    requires free { AreFree files.old path.old.items rows.now }
    ensures ok { OnOk result (Gathers files.old files.new (walk_rows format left (text_of store.now) path.old.items rows.now)) }
    ensures err { IfErr result (StopsAt files.old (walk_rows format left (text_of store.now) path.old.items rows.now)) }
    ensures path { OnOk result (path.new.items ≡ path.old.items) }
{
    let before = path.len();
    for row in rows {
        gather_judged(alloc, store, format, left, row, path, files)?;
        path.truncate(before);
    }
    Ok(())
}

/// Gathers what stands at a row, and judges then the size that the row says. Lets `path` go on.
#[cycle(gather_rows)]
fn gather_judged(
    alloc: Global,
    store: &Store,
    format: Format,
    left: u64,
    row: &SizedRow,
    path: &mut Vec<u8>,
    files: &mut Files,
) -> Result<(), GatherError>
    requires front { IsFront left path.old.items }
    requires label { IsLabel row.now.label }
    requires free { IsFree files.old (path.old.items ++ row.now.label) }
    ensures ok { OnOk result (Gathers files.old files.new (row_met format left (text_of store.now) path.old.items row.now)) }
    ensures err { IfErr result (StopsAt files.old (row_met format left (text_of store.now) path.old.items row.now)) }
    ensures path { OnOk result (take (length path.old.items) path.new.items ≡ path.old.items) }
{
    let before = files.total();
    gather_row(alloc, store, format, left, row, path, files)?;
    check_size(format, row, files.total() - before)
}

/// Gathers what stands at a row, whatever size it says, and lets `path` go on with that.
#[cycle(gather_rows)]
fn gather_row(
    alloc: Global,
    store: &Store,
    format: Format,
    left: u64,
    row: &SizedRow,
    path: &mut Vec<u8>,
    files: &mut Files,
) -> Result<(), GatherError>
    requires front { IsFront left path.old.items }
    requires label { IsLabel row.now.label }
    requires free { IsFree files.old (path.old.items ++ row.now.label) }
    ensures ok { OnOk result (Gathers files.old files.new (row_below format left (text_of store.now) path.old.items row.now)) }
    ensures err { IfErr result (StopsAt files.old (row_below format left (text_of store.now) path.old.items row.now)) }
    ensures path { OnOk result (take (length path.old.items) path.new.items ≡ path.old.items) }
{
    path.extend_from_slice(row.label.as_slice())?;
    let length = path.len() as u64;
    if length > PATH_BYTES {
        return Err(GatherError::Limit {
            what: Quantity::Path,
            value: length,
        });
    }
    if left == 0 {
        return Err(GatherError::Limit {
            what: Quantity::Levels,
            value: LEVELS + 1,
        });
    }
    match row.kind {
        Kind::File => add_file(alloc, store, format, &row.name, path.as_slice(), files),
        Kind::Dir => {
            let rows = inner_rows(alloc, store, format, &row.name)?;
            path.push(b'/')?;
            let rows = rows.as_slice();
            gather_rows(alloc, store, format, left - 1, rows, path, files)
        }
    }
}

/// Refuses a row of format 2 that says another size than the bytes below it.
fn check_size(format: Format, row: &SizedRow, bytes: u64) -> Result<(), GatherError>
    ensures { SaysSize format row.now bytes result }
{
    match format {
        Format::One => Ok(()),
        Format::Two => {
            if row.size != bytes {
                return Err(GatherError::WrongKind { name: row.name });
            }
            Ok(())
        }
    }
}

/// Adds the file of that name at a path.
fn add_file(
    alloc: Global,
    store: &Store,
    format: Format,
    name: &Name,
    path: &[u8],
    files: &mut Files,
) -> Result<(), GatherError>
    requires path { IsFilePath path.now }
    requires free { IsFree files.old path.now }
    ensures ok { OnOk result (Gathers files.old files.new (met_file path.now (file_named format (text_of store.now) name.now) ∷ [])) }
    ensures err { IfErr result (StopsAt files.old (met_file path.now (file_named format (text_of store.now) name.now) ∷ [])) }
{
    let text = file_bytes(alloc, store, format, name)?;
    let path = str::from_utf8(path).unwrap();
    match files.add(path, text) {
        Ok(()) => Ok(()),
        Err(FilesError::Limit { what, value }) => Err(GatherError::Limit { what, value }),
        Err(FilesError::NoMemory) => Err(GatherError::NoMemory),
        Err(FilesError::BadPath) => unreachable!(),
        Err(FilesError::Clash) => unreachable!(),
    }
}

/// The bytes of the file of that name.
#[tactic(auto, unfolding(ms_object::specs::Trees::file_named))]
fn file_bytes(
    alloc: Global,
    store: &Store,
    format: Format,
    name: &Name,
) -> Result<Bytes, GatherError>
    ensures exact { Gives (file_named format (text_of store.now) name.now) result }
    ensures short { IfOk result (λ text. length text ≤ most_file format) }
{
    let file = file_parts(alloc, store, format, name)?;
    join_blobs(alloc, store, format, file.size, file.blobs.as_slice())
}

/// The bytes of blobs, which are so many together.
fn join_blobs(
    alloc: Global,
    store: &Store,
    format: Format,
    size: u64,
    blobs: &[Name],
) -> Result<Bytes, GatherError>
    requires { size ≤ most_file format }
    ensures exact { Gives (blobs_joined format (text_of store.now) size blobs.now) result }
    ensures short { IfOk result (λ text. length text ≤ size) }
{
    let mut text = Vec::with_capacity(alloc, size as usize)?;
    let mut left = size;
    let most = format.blob_bytes();
    for blob in blobs {
        let wanted = most.min(left);
        match blob_named(store, format, blob, wanted) {
            Ok(bytes) => text.extend_from_slice(bytes)?,
            Err(error) => return Err(error),
        }
        left -= wanted;
    }
    Ok(Bytes::from_vec(text))
}

/// There is one tree below a name: in one store, and in two that keep texts under their SHA-256, unless texts of them
/// collide. It stays where a store has more.
pub fn one_tree()
    ensures one { (store : Texts) (root : Name) (one other : List FileText) → IsStrictlySortedBy (slice_cmp nat_cmp) (keys_of one) → IsStrictlySortedBy (slice_cmp nat_cmp) (keys_of other)
        → IsTree store root one → IsTree store root other → one ≡ other }
    ensures two { (store beside : Texts) (root : Name) (one other : List FileText) → AreNamed store → AreNamed beside
        → IsStrictlySortedBy (slice_cmp nat_cmp) (keys_of one) → IsStrictlySortedBy (slice_cmp nat_cmp) (keys_of other)
        → IsTree store root one → IsTree beside root other → StoresCollide store beside ⊎ (one ≡ other) }
    ensures stays { (old new : Texts) (root : Name) (files : List FileText) → HasAll new old → IsTree old root files → IsTree new root files }
{}
