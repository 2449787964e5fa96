//! Planting: the objects of files.

ghost use Rattle.std.specs.Prelude.{◌≡◌, ◌+◌, ◌-◌, ◌<◌, ◌≤◌, ◌∷◌, [], ◌++◌, ◌⊎◌, ℕ, length, map, All, None, IfOk, OnOk, MatchOption};
ghost use Rattle.std.specs.Result.{result_map_both};
ghost use Rattle.ms_object.specs.Objects.{IsBlob, IsDir, IsFile, IsSizedDir, blob_object, file_object, most_file, object_text};
ghost use Rattle.ms_object.specs.Stores.{names_in, text_of};
ghost use Rattle.ms_tree.specs.declared.planting.PlantError.TheVariants as errors;
ghost use Rattle.ms_tree.specs.Planting.{AddsTexts, Collide, IsPlanted, MayPlant, different, blob_texts, dir_object, directory_text, file_at, file_text, files_below, first_large, first_part, named, object_texts, part_row, part_texts, plain, size_said as said};
ghost use Rattle.ms_tree.specs.Files.{total_of};
ghost use Rattle.ms_tree.specs.Folders.{AreSmall, IsFolder, Reach, shown_from};

use crate::files::{FileRef, Files};
use crate::parts::{Part, split_parts};
use ms_base::limits::LEVELS;
use ms_base::{Bytes, Items, Name, NoMemory, Quantity};
use ms_object::object::one_spelling;
use ms_object::{
    Format, Kind, Row, Rows, SizedRow, SizedRows, Store, write_blob, write_blob2, write_dir,
    write_dir2, write_file, write_file2,
};
use std::alloc::Global;

/// All objects of some files, and the name of their root directory.
#[derive(Drop)]
pub struct Planted {
    pub root: Name,
    pub objects: Store,
}

/// Why files are not planted.
#[derive(Clone, Copy, Debug, PartialEq, Eq)]
pub enum PlantError {
    /// A quantity has this value, which passes its limit: a file has more bytes than the format allows.
    Limit { what: Quantity, value: u64 },
    /// Memory ran out.
    NoMemory,
}

impl From<NoMemory> for PlantError {
    ghost from_gives = { λ _ e. e ≡ errors.NoMemory };

    fn from(_error: NoMemory) -> PlantError {
        PlantError::NoMemory
    }
}

/// The tree of the files in that format: `docs/FORMATS.md`, objects. In format 1 the first file in the order of the
/// paths that has more than 67,108,864 bytes refuses it.
pub fn plant(alloc: Global, files: &Files, format: Format) -> Result<Planted, PlantError>
    ensures planted { IfOk result (λ p. IsPlanted format files.now (text_of p.objects) p.root) }
    // There are as many objects as different texts, unless two of them have one SHA-256.
    ensures count { IfOk result (λ p. Collide (object_texts format LEVELS files.now) ⊎ (length (names_in p.objects) ≡ different (object_texts format LEVELS files.now))) }
    ensures limit { MayPlant format files.now (result_map_both (λ p. tt) (λ e. e) result) }
{
    if let Some(value) = files.first_above(format.file_bytes()) {
        return Err(PlantError::Limit {
            what: Quantity::File,
            value,
        });
    }
    Ok(plant_small(alloc, files, format)?)
}

/// The tree of files of which none is too large for the format.
fn plant_small(alloc: Global, files: &Files, format: Format) -> Result<Planted, NoMemory>
    requires { first_large format files.now ≡ None }
    ensures planted { IfOk result (λ p. IsPlanted format files.now (text_of p.objects) p.root) }
    ensures count { IfOk result (λ p. Collide (object_texts format LEVELS files.now) ⊎ (length (names_in p.objects) ≡ different (object_texts format LEVELS files.now))) }
{
    one_spelling();
    let mut objects = Store::new(alloc);
    match files.rows() {
        Ok(rows) => {
            let root = plant_dir(alloc, format, rows.as_slice(), 0, LEVELS, &mut objects)?;
            objects.shows();
            Ok(Planted { root, objects })
        }
        Err(error) => Err(error),
    }
}

/// Adds the objects of a directory. Its files' paths begin with `skip` bytes before it, and have
/// at most `left` parts behind them.
#[cycle(planting)]
fn plant_dir(
    alloc: Global,
    format: Format,
    files: &[FileRef<'_>],
    skip: usize,
    left: u64,
    store: &mut Store,
) -> Result<Name, NoMemory>
    requires reach { Reach skip files.now }
    requires folder { IsFolder format left (shown_from skip files.now) }
    ensures name { IfOk result (λ name. name ≡ named (directory_text format left (shown_from skip files.now))) }
    ensures texts { OnOk result (AddsTexts (text_of store.old) (text_of store.new) (object_texts format left (shown_from skip files.now))) }
{
    let mut rows = Items::new(alloc);
    let parts = split_parts(alloc, files, skip)?;
    for part in &parts {
        rows.push(plant_part(alloc, format, part, skip, left - 1, store)?)?;
    }
    let mut text = Vec::new(alloc);
    write_rows(alloc, format, rows, &mut text)?;
    keep(store, text)
}

/// Puts the object of a directory of these rows at the end of `out`; format 1 leaves their sizes out.
fn write_rows(
    alloc: Global,
    format: Format,
    rows: SizedRows,
    out: &mut Vec<u8>,
) -> Result<(), NoMemory>
    requires { IsSizedDir rows }
    ensures ok { OnOk result (out.new.items ≡ out.old.items ++ object_text (dir_object format rows)) }
{
    match format {
        Format::One => {
            let rows = plain_rows(alloc, rows)?;
            write_dir(&rows, out)
        }
        Format::Two => write_dir2(&rows, out),
    }
}

/// The rows without their sizes.
fn plain_rows(alloc: Global, rows: SizedRows) -> Result<Rows, NoMemory>
    requires { IsSizedDir rows }
    ensures rows { IfOk result (λ plain_ones. plain_ones ≡ map plain rows) }
    ensures dir { IfOk result IsDir }
{
    let plain_ones = rows.into_vec().into_iter().map(|row| Row {
        kind: row.kind,
        label: row.label,
        name: row.name,
    });
    Ok(Items::from_vec(plain_ones.collect(alloc)?))
}

/// Adds the objects of a part: of its file, or of the directory that it is.
#[cycle(planting)]
fn plant_part(
    alloc: Global,
    format: Format,
    part: &Part<'_>,
    skip: usize,
    left: u64,
    store: &mut Store,
) -> Result<SizedRow, NoMemory>
    requires reach { Reach skip part.now.files.now }
    requires folder { IsFolder format (left + 1) (shown_from skip part.now.files.now) }
    requires same { All (λ file. first_part file.0 ≡ part.now.label.now) (shown_from skip part.now.files.now) }
    requires some { 0 < length part.now.files.now }
    ensures row { IfOk result (λ row. row ≡ part_row format left (shown_from skip part.now.files.now) part.now.label.now) }
    ensures texts { OnOk result (AddsTexts (text_of store.old) (text_of store.new) (part_texts format left (shown_from skip part.now.files.now) part.now.label.now)) }
{
    let label = Bytes::of(alloc, part.label)?;
    let first = part.files[0];
    match start_behind(first.path, skip, part.label) {
        None => {
            let name = plant_file(alloc, format, first.text, store)?;
            Ok(SizedRow {
                kind: Kind::File,
                label,
                size: size_said(format, first.text.len() as u64),
                name,
            })
        }
        Some(start) => {
            let name = plant_dir(alloc, format, part.files, start, left, store)?;
            Ok(SizedRow {
                kind: Kind::Dir,
                label,
                size: size_said(format, bytes_of(part.files)),
                name,
            })
        }
    }
}

/// The size that a row says: none in format 1.
fn size_said(format: Format, bytes: u64) -> u64
    ensures { result ≡ said format bytes }
{
    match format {
        Format::One => 0,
        Format::Two => bytes,
    }
}

/// The bytes of all these files together.
fn bytes_of(files: &[FileRef<'_>]) -> u64
    requires { AreSmall files.now }
    ensures { (skip : ℕ) → result ≡ total_of (shown_from skip files.now) }
{
    let mut total = 0;
    for file in files {
        total += file.text.len() as u64;
    }
    total
}

/// Where the path goes on behind a part and its slash, if it does.
fn start_behind(path: &str, skip: usize, part: &[u8]) -> Option<usize>
    requires { skip + length part.now ≤ length path.now }
    ensures { MatchOption result (length path.now - skip - length part.now ≡ 0) (λ start. (0 < length path.now - skip - length part.now) × (start ≡ skip + length part.now + 1)) }
{
    let end = skip + part.len();
    if end == path.len() {
        None
    } else {
        Some(end + 1)
    }
}

/// Adds the blobs of a file and the file.
fn plant_file(
    alloc: Global,
    format: Format,
    text: &[u8],
    store: &mut Store,
) -> Result<Name, NoMemory>
    requires { length text.now ≤ most_file format }
    ensures name { IfOk result (λ name. name ≡ named (file_text format text.now)) }
    ensures texts { OnOk result (AddsTexts (text_of store.old) (text_of store.new) (blob_texts format text.now ++ file_text format text.now ∷ [])) }
{
    let mut blobs = Vec::new(alloc);
    for piece in text.chunks(format.blob_bytes() as usize) {
        blobs.push(plant_blob(alloc, format, piece, store)?)?;
    }
    let mut file = Vec::new(alloc);
    write_file_of(format, text.len() as u64, blobs.as_slice(), &mut file)?;
    keep(store, file)
}

/// Puts the object of a file at the end of `out`.
fn write_file_of(
    format: Format,
    size: u64,
    blobs: &[Name],
    out: &mut Vec<u8>,
) -> Result<(), NoMemory>
    requires { IsFile format size blobs.now }
    ensures ok { OnOk result (out.new.items ≡ out.old.items ++ object_text (file_object format size blobs.now)) }
{
    match format {
        Format::One => write_file(size, blobs, out),
        Format::Two => write_file2(size, blobs, out),
    }
}

/// Adds the blob of these bytes.
fn plant_blob(
    alloc: Global,
    format: Format,
    piece: &[u8],
    store: &mut Store,
) -> Result<Name, NoMemory>
    requires { IsBlob format piece.now }
    ensures name { IfOk result (λ name. name ≡ named (object_text (blob_object format piece.now))) }
    ensures texts { OnOk result (AddsTexts (text_of store.old) (text_of store.new) (object_text (blob_object format piece.now) ∷ [])) }
{
    let mut blob = Vec::with_capacity(alloc, piece.len() + 1)?;
    write_blob_of(format, piece, &mut blob)?;
    keep(store, blob)
}

/// Puts the object of a blob at the end of `out`.
fn write_blob_of(format: Format, piece: &[u8], out: &mut Vec<u8>) -> Result<(), NoMemory>
    requires { IsBlob format piece.now }
    ensures ok { OnOk result (out.new.items ≡ out.old.items ++ object_text (blob_object format piece.now)) }
{
    match format {
        Format::One => write_blob(piece, out),
        Format::Two => write_blob2(piece, out),
    }
}

/// Adds a text.
fn keep(store: &mut Store, text: Vec<u8>) -> Result<Name, NoMemory>
    ensures name { IfOk result (λ name. name ≡ named text.items) }
    ensures texts { OnOk result (AddsTexts (text_of store.old) (text_of store.new) (text.items ∷ [])) }
{
    store.add(Bytes::from_vec(text))
}
