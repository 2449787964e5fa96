//! Files on the way, of which no rule is asked yet.

ghost use Rattle.std.specs.Prelude.{◌≡◌, ℕ, List, [], Some, None, length, map, is_some, bytes_eq, if◌then◌else◌, IfOk, OnOk, OnErr};
ghost use Rattle.std.specs.Ordering.{nat_cmp};
ghost use Rattle.std.specs.Cmp.Lexicographic.{slice_cmp};
ghost use Rattle.std.specs.List.Sorted.{IsStrictlySortedBy};
ghost use Rattle.std.specs.Map.{keys_of};
ghost use Rattle.ms_tree.specs.Files.{text_at, with_file, without};
ghost use Rattle.ms_tree.specs.Merging.{directories};
ghost use Rattle.ms_tree.specs.DraftFiles.{drafted};

use crate::entries::is_above;
use crate::files::FileRef;
use ms_base::NoMemory;
use std::alloc::Global;
use std::collections::BTreeMap;
use std::marker::Model;

/// Texts by their paths, which rise by their bytes. Nothing else is asked of the paths, and the
/// texts are not copied.
#[derive(Drop)]
pub struct Draft<'a> {
    alloc: Global,
    map: BTreeMap<String, &'a [u8]>,
}

impl<'a> Model for Draft<'a> {
    ghost use Rattle.std.specs.Prelude.{ℕ, List};

    ghost Value = { List (List ℕ × List ℕ) };

    ghost use Rattle.ms_tree.specs.DraftInside.{view_of, IsRising};

    ghost view = { view_of };

    ghost invariant = { IsRising };
}

/// A file of a draft, apart from it.
#[derive(Drop)]
pub struct DraftFile<'a> {
    pub path: String,
    pub text: &'a [u8],
}

impl<'a> Draft<'a> {
    /// No files.
    pub fn new(alloc: Global) -> Draft<'a>
        ensures { result ≡ [] }
    {
        Draft {
            alloc,
            map: BTreeMap::new(alloc),
        }
    }

    /// Puts a text at a path, in place of the one that was there.
    pub fn put(&mut self, path: &str, text: &'a [u8]) -> Result<(), NoMemory>
        ensures ok { OnOk result (self.new ≡ with_file self.old path.now text.now) }
        ensures there { OnOk result ((q : List ℕ) → text_at self.new q ≡ (if bytes_eq q path.now then Some text.now else text_at self.old q)) }
        ensures err { OnErr result (self.new ≡ self.old) }
    {
        let key = String::from_str(self.alloc, path)?;
        self.map.insert(key, text)?;
        Ok(())
    }

    /// Takes the file at the path away, if there is one.
    pub fn remove(&mut self, path: &str)
        ensures after { self.new ≡ without self.old path.now }
        ensures there { (q : List ℕ) → text_at self.new q ≡ (if bytes_eq path.now q then None else text_at self.old q) }
    {
        self.map.remove(path);
    }

    /// Whether there is a file at the path.
    pub fn has(&self, path: &str) -> bool
        ensures { result ≡ is_some (text_at self.now path.now) }
    {
        self.map.contains_key(path)
    }

    /// What is true of all drafts: their paths rise.
    pub fn shows(&self)
        ensures { IsStrictlySortedBy (slice_cmp nat_cmp) (keys_of self.now) }
    {
        let _ = &self.map;
    }

    /// The files whose path is a directory of another's, in rising order.
    pub fn directories(&self) -> Result<Vec<DraftFile<'a>>, NoMemory>
        ensures { IfOk result (λ v. map drafted v.items ≡ directories self.now) }
    {
        let mut found = Vec::new(self.alloc);
        for (path, text) in &self.map {
            if is_above(self.alloc, &self.map, path.as_str())? {
                let path = path.clone()?;
                found.push(DraftFile { path, text: *text })?;
            }
        }
        Ok(found)
    }

    /// All files in rising order of their paths.
    pub fn rows(&self) -> Result<Vec<FileRef<'_>>, NoMemory>
        ensures rows { IfOk result (λ v. map (λ r. (r.path.now, r.text.now)) v.items ≡ self.now) }
        ensures rising { IsStrictlySortedBy (slice_cmp nat_cmp) (keys_of self.now) }
    {
        let mut rows = Vec::new(self.alloc);
        for (path, text) in &self.map {
            rows.push(FileRef {
                path: path.as_str(),
                text: *text,
            })?;
        }
        Ok(rows)
    }
}
