//! The house on a real folder. What its files hold is not told.

ghost use Rattle.std.specs.Prelude.{◌≡◌, None, false};

use ms_base::{Bytes, Inputs, MOST_INPUT, ReadError, Source, StdSource, read_all};
use std::alloc::Global;
use std::fs;
use std::path::PathBuf;
use std::rt::Files;

/// The inputs under a folder: a relative name is joined to it, an absolute one is itself.
#[derive(Drop)]
pub struct FolderHouse<'a, R> {
    rt: &'a R,
    folder: &'a str,
    reads: u64,
    ended: bool,
    faults: u64,
}

impl<'a, R> FolderHouse<'a, R> {
    /// The house on that folder, whose readings and faults are counted from 0.
    pub fn new(rt: &'a R, folder: &'a str) -> FolderHouse<'a, R>
        ensures { (result.reads ≡ 0) × (result.faults ≡ 0) × (result.ended ≡ false) }
    {
        FolderHouse {
            rt,
            folder,
            reads: 0,
            ended: false,
            faults: 0,
        }
    }
}

impl<'a, R: Files> Inputs for FolderHouse<'a, R>
where
    R::File: Drop,
{
    ghost seen = { λ s. record { texts = None; reads = s.reads; ended = s.ended; faults = s.faults } };

    fn input(&mut self, alloc: Global, name: &str) -> Result<Bytes, ReadError> {
        self.ended = false;
        self.reads = self.reads.saturating_add(1);
        let path = PathBuf::from_str(alloc, self.folder)?.join(alloc, name)?;
        let Ok(file) = fs::open(self.rt, path.as_path()) else {
            self.faults = self.faults.saturating_add(1);
            return Err(ReadError::Failed);
        };
        let mut source = StdSource::new(file);
        let read = read_all(alloc, &mut source, MOST_INPUT);
        match &read {
            Ok(_) => {
                self.ended = true;
            }
            Err(ReadError::Failed) => {
                self.faults = self.faults.saturating_add(1);
            }
            Err(_) => {}
        }
        read
    }

    fn faults(&self) -> u64 {
        self.faults
    }
}
