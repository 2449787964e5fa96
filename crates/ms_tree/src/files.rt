//! Files by their paths.

ghost use Rattle.std.specs.Prelude.{◌≡◌, ◌+◌, ℕ, List, [], length, map, is_some, Some, None, Ok, IfOk, bytes_eq, if◌then◌else◌, OnErr, OnOk, slice_get, nat_lt, find};
ghost use Rattle.std.specs.Option.{option_map, option_copied};
ghost use Rattle.std.specs.List.{list_any};
ghost use Rattle.std.specs.List.Sorted.{IsStrictlySortedBy};
ghost use Rattle.std.specs.Map.{keys_of};
ghost use Rattle.std.specs.Ordering.{nat_cmp};
ghost use Rattle.std.specs.Cmp.Lexicographic.{slice_cmp};
ghost use Rattle.ms_tree.specs.Paths.{is_directory_of};
ghost use Rattle.ms_tree.specs.Files.{text_at, with_file, without, total_of, is_clash, path_limits, size_limits, added, Adds, IsFiles};

use crate::entries::is_above;
use crate::limits::{FilesError, within};
use crate::path::{is_path, levels, long_part};
use ms_base::limits::{FILE_2_BYTES, FILES, LEVELS, PART_BYTES, PATH_BYTES, TOTAL_BYTES};
use ms_base::{Bytes, NoMemory, Quantity};
use std::alloc::Global;
use std::collections::BTreeMap;
use std::marker::Model;

/// Files by their paths, which rise by their bytes. No path is a directory of another, and all
/// limits of `docs/FORMATS.md` are kept.
#[derive(Drop)]
pub struct Files {
    alloc: Global,
    map: BTreeMap<String, Bytes>,
    /// The bytes of all texts.
    total: u64,
}

impl Model for Files {
    ghost use Rattle.std.specs.Prelude.{ℕ, List};

    ghost Value = { List (List ℕ × List ℕ) };

    ghost use Rattle.ms_tree.specs.FilesInside.{view_of, IsKept};

    ghost view = { view_of };

    ghost invariant = { IsKept };
}

/// A file of some files.
#[derive(Clone, Copy, Debug)]
pub struct FileRef<'a> {
    pub path: &'a str,
    pub text: &'a [u8],
}

impl Files {
    /// No files.
    pub fn new(alloc: Global) -> Files
        ensures { result ≡ [] }
    {
        Files {
            alloc,
            map: BTreeMap::new(alloc),
            total: 0,
        }
    }

    /// Files that keep all rules, with copies of their texts.
    pub fn from_rows(alloc: Global, rows: &[FileRef]) -> Result<Files, NoMemory>
        requires { IsFiles (map (λ r. (r.path.now, r.text.now)) rows.now) }
        ensures { IfOk result (λ files. files ≡ map (λ r. (r.path.now, r.text.now)) rows.now) }
    {
        let mut map = BTreeMap::new(alloc);
        let mut total = 0;
        for row in rows {
            let path = String::from_str(alloc, row.path)?;
            map.insert(path, Bytes::of(alloc, row.text)?)?;
            total += row.text.len() as u64;
        }
        Ok(Files { alloc, map, total })
    }

    /// Puts a text at a path, in place of the one that was there. Memory is taken once the path and all
    /// limits are judged.
    pub fn add(&mut self, path: &str, text: Bytes) -> Result<(), FilesError>
        ensures { Adds self.old self.new (added self.old path.now text) result }
    {
        if !is_path(path) {
            return Err(FilesError::BadPath);
        }
        check_path(path)?;
        self.check_sizes(path, text.as_slice())?;
        if self.is_under(path) || self.is_directory(path)? {
            return Err(FilesError::Clash);
        }
        self.put(path, text)?;
        Ok(())
    }

    /// The text at the path.
    pub fn get(&self, path: &str) -> Option<&[u8]>
        ensures { option_copied result ≡ text_at self.now path.now }
    {
        match self.map.get(path) {
            Some(text) => Some(text.as_slice()),
            None => None,
        }
    }

    /// Takes the file at the path away; whether there was one.
    pub fn remove(&mut self, path: &str) -> bool
        ensures was { result ≡ is_some (text_at self.old path.now) }
        ensures after { self.new ≡ without self.old path.now }
    {
        match self.map.remove(path) {
            Some(text) => {
                self.total -= text.as_slice().len() as u64;
                true
            }
            None => false,
        }
    }

    /// How many files there are.
    pub fn count(&self) -> u32
        ensures count { result ≡ length self.now }
        ensures kept { IsFiles self.now }
    {
        self.map.len() as u32
    }

    /// What is true of all files: their rules are kept.
    pub fn shows(&self)
        ensures { IsFiles self.now }
    {
        let _ = &self.map;
    }

    /// The bytes of all files together.
    pub fn total(&self) -> u64
        ensures { result ≡ total_of self.now }
    {
        self.total
    }

    /// The path at a place, counted from 0 in rising order. Passes over those before it: `rows`
    /// goes over all.
    pub fn path_at(&self, place: u32) -> Option<&str>
        ensures { option_copied result ≡ option_map (λ f. f.0) (slice_get self.now place) }
    {
        match self.map.keys().nth(place as usize) {
            Some(path) => Some(path.as_str()),
            None => None,
        }
    }

    /// The bytes of the first file, in rising order of the paths, that has more than so many.
    pub fn first_above(&self, most: u64) -> Option<u64>
        ensures { result ≡ find (nat_lt most) (map (λ f. length f.1) self.now) }
    {
        for (_path, text) in &self.map {
            let bytes = text.as_slice().len() as u64;
            if bytes > most {
                return Some(bytes);
            }
        }
        None
    }

    /// All files in rising order of their paths, without copies of their texts.
    pub fn rows(&self) -> Result<Vec<FileRef<'_>>, NoMemory>
        ensures rows { IfOk result (λ v. map (λ r. (r.path.now, r.text.now)) v.items ≡ self.now) }
        ensures kept { IsFiles self.now }
    {
        let mut rows = Vec::new(self.alloc);
        for (path, text) in &self.map {
            rows.push(FileRef {
                path: path.as_str(),
                text: text.as_slice(),
            })?;
        }
        Ok(rows)
    }

    /// Whether the path is a directory of a file.
    pub fn is_directory(&self, path: &str) -> Result<bool, NoMemory>
        ensures { IfOk result (λ b. b ≡ list_any (λ f. is_directory_of path.now f.0) self.now) }
    {
        is_above(self.alloc, &self.map, path)
    }

    /// The limits on the text, and on the files once it stands at the path.
    fn check_sizes(&self, path: &str, text: &[u8]) -> Result<(), FilesError>
        ensures { result ≡ size_limits text.now (with_file self.now path.now text.now) }
    {
        let bytes = text.len() as u64;
        within(Quantity::File, bytes, FILE_2_BYTES)?;
        match self.map.get(path) {
            Some(before) => {
                let others = self.total - before.as_slice().len() as u64;
                within(Quantity::Total, others + bytes, TOTAL_BYTES)
            }
            None => {
                within(Quantity::Files, self.map.len() as u64 + 1, FILES)?;
                within(Quantity::Total, self.total + bytes, TOTAL_BYTES)
            }
        }
    }

    /// Whether a file stands at a directory of the path.
    fn is_under(&self, path: &str) -> bool
        ensures { result ≡ list_any (λ f. is_directory_of f.0 path.now) self.now }
    {
        for (at, byte) in path.as_bytes().iter().enumerate() {
            if *byte == b'/' && self.map.contains_key(&path[..at]) {
                return true;
            }
        }
        false
    }

    /// Puts a text at a path that keeps all rules.
    fn put(&mut self, path: &str, text: Bytes) -> Result<(), NoMemory>
        requires { added self.old path.now text ≡ Ok (with_file self.old path.now text) }
        ensures ok { OnOk result (self.new ≡ with_file self.old path.now text) }
        ensures err { OnErr result (self.new ≡ self.old) }
    {
        let key = String::from_str(self.alloc, path)?;
        let bytes = text.as_slice().len() as u64;
        let before = self.map.insert(key, text)?;
        self.total += bytes;
        if let Some(before) = before {
            self.total -= before.as_slice().len() as u64;
        }
        Ok(())
    }
}

/// The limits on a path.
fn check_path(path: &str) -> Result<(), FilesError>
    ensures { result ≡ path_limits path.now }
{
    within(Quantity::Path, path.len() as u64, PATH_BYTES)?;
    within(Quantity::Part, long_part(path), PART_BYTES)?;
    within(Quantity::Levels, levels(path), LEVELS)
}

/// What stands at a path after a change, and at the path of a place; that paths go on rising where a text is put at
/// one; and that a text may be added exactly where the files with it keep all rules.
pub fn file_laws()
    ensures put { (files : List (List ℕ × List ℕ)) (path text other : List ℕ)
        → text_at (with_file files path text) other ≡ (if bytes_eq other path then Some text else text_at files other) }
    ensures taken { (files : List (List ℕ × List ℕ)) (path other : List ℕ) → IsFiles files
        → text_at (without files path) other ≡ (if bytes_eq path other then None else text_at files other) }
    ensures place { (files : List (List ℕ × List ℕ)) (place : ℕ) (path text : List ℕ) → IsFiles files
        → slice_get files place ≡ Some (path, text) → text_at files path ≡ Some text }
    ensures rises { (files : List (List ℕ × List ℕ)) (path text : List ℕ) → IsStrictlySortedBy (slice_cmp nat_cmp) (keys_of files)
        → IsStrictlySortedBy (slice_cmp nat_cmp) (keys_of (with_file files path text)) }
    ensures added { (files new : List (List ℕ × List ℕ)) (path text : List ℕ) → IsFiles files → added files path text ≡ Ok new
        → (new ≡ with_file files path text) × IsFiles new }
    ensures fits { (files : List (List ℕ × List ℕ)) (path text : List ℕ) → IsFiles (with_file files path text)
        → added files path text ≡ Ok (with_file files path text) }
{}
