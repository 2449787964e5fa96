//! Listings of files.

ghost use Rattle.std.specs.Prelude.{◌≡◌, ◌+◌, length, [], None, Ok, Err, IfOk, OnOk};
ghost use Rattle.std.specs.Option.{option_map};
ghost use Rattle.ms_record.specs.declared.refusal.Refusal.{Refusal};
ghost use Rattle.ms_record.specs.declared.refusal.Refusal.TheVariants as refusals;
ghost use Rattle.ms_record.specs.declared.refusal.Place.TheVariants as places;
ghost use Rattle.ms_text.specs.Lines.{lines_of};
ghost use Rattle.ms_text.specs.Words.{two_words};
ghost use Rattle.ms_tree.specs.Listings.{row_at, row_added, with_line, listing_at, IsFirstFault, RanOut, ReadsListing, AddsLine};

use crate::files::Files;
use crate::limits::FilesError;
use ms_base::{Bytes, NoMemory};
use ms_record::{Place, Refusal, wrong_line};
use ms_text::{bytes, hex_bytes, next_line, split_at_space};
use std::alloc::Global;

/// The bytes of a path, and those of its file.
struct Row {
    path: Vec<u8>,
    text: Vec<u8>,
}

/// The files that the text lists: `docs/FORMATS.md`, listing. Each line gives one file, so no line is read whose number
/// is above 100,001.
pub fn read_listing(alloc: Global, text: &[u8]) -> Result<Files, Refusal>
    ensures exact { ReadsListing (listing_at text.now) result }
    // Memory runs out only behind right lines, at one that is taken apart.
    ensures ran_out { result ≡ Err refusals.NoMemory → RanOut (lines_of text.now) }
    ensures first { (fault : Refusal) → listing_at text.now ≡ Err fault → IsFirstFault (lines_of text.now) fault }
{
    let mut files = Files::new(alloc);
    let mut rest = text;
    while !rest.is_empty() {
        let (first, after) = next_line(rest);
        let line = files.count() + 1;
        add_line(alloc, &mut files, line, first)?;
        rest = after;
    }
    Ok(files)
}

/// The files with that of a line more.
fn add_line(alloc: Global, files: &mut Files, line: u32, text: &[u8]) -> Result<(), Refusal>
    ensures adds { AddsLine files.new (with_line line files.old text.now) result }
    ensures one_more { OnOk result (length files.new ≡ length files.old + 1) }
    ensures no_words { two_words text.now ≡ None → result ≡ Err (refusals.BadInput places.Input line) }
{
    match read_row(alloc, text)? {
        Some(Row { path, text }) => match str::from_utf8(&path) {
            Ok(path) => add_row(files, line, path, Bytes::from_vec(text)),
            Err(_) => Err(wrong_line(Place::Input, line)),
        },
        None => Err(wrong_line(Place::Input, line)),
    }
}

/// The file of a line.
#[tactic(auto, unfolding(crate::specs::Listings::row_at))]
fn read_row(alloc: Global, line: &[u8]) -> Result<Option<Row>, NoMemory>
    ensures row { IfOk result (λ o. option_map (λ r. (r.path.items, r.text.items)) o ≡ row_at line.now) }
    ensures no_words { two_words line.now ≡ None → result ≡ Ok None }
{
    let (first, second) = match split_at_space(line) {
        Some(words) => words,
        None => return Ok(None),
    };
    let path = match hex_bytes(alloc, first)? {
        Some(path) => path,
        None => return Ok(None),
    };
    match bytes(alloc, second)? {
        Some(text) => Ok(Some(Row { path, text })),
        None => Ok(None),
    }
}

/// The files with one more, whose path is not there yet.
fn add_row(files: &mut Files, line: u32, path: &str, text: Bytes) -> Result<(), Refusal>
    ensures adds { AddsLine files.new (row_added line files.old path.now text) result }
    ensures one_more { OnOk result (length files.new ≡ length files.old + 1) }
{
    files.shows();
    if files.get(path).is_some() {
        return Err(wrong_line(Place::Input, line));
    }
    match files.add(path, text) {
        Ok(()) => Ok(()),
        Err(FilesError::BadPath | FilesError::Clash) => Err(wrong_line(Place::Input, line)),
        Err(FilesError::Limit { what, value }) => Err(Refusal::Limit { what, value }),
        Err(FilesError::NoMemory) => Err(Refusal::NoMemory),
    }
}
