//! A keeper and a work folder in memory, which fail at the calls that they are told.

ghost use Rattle.std.specs.Prelude.{◌≡◌, ◌≤◌, ◌↔◌, ℕ, [], None, Err, IfOk, IsTrue, OnErr, option_map};
ghost use Rattle.ms_base.specs.Memory.{after_call, first_calls, is_due};
ghost use Rattle.ms_base.specs.declared.names.Quantity.{Quantity};
ghost use Rattle.ms_base.specs.declared.outside.OutsideError.TheVariants as errors;
ghost use Rattle.ms_local.specs.Memory.{keeper_of, texts_by, work_of};
ghost use Rattle.ms_local.specs.Outside.{IsScanSteady, IsSteady, MayPlace, Places, Reads, Removes, Scans, Writes};
ghost use Rattle.ms_local.specs.declared.outside.WorkError.TheVariants as work_errors;

use crate::outside::{Keeper, Work, WorkError};
use ms_base::{Bytes, Name, NoMemory, OutsideError, Script};
use ms_record::Key;
use ms_tree::Files;
use std::alloc::Global;
use std::collections::BTreeMap;
use std::marker::Model;

/// A keeper in memory. The calls of the numbers in `fails`, counted from 0, fail and do nothing.
#[derive(Drop)]
pub struct MemoryKeeper {
    state: Option<Bytes>,
    objects: BTreeMap<Name, Bytes>,
    script: Script,
}

impl Model for MemoryKeeper {
    ghost use Rattle.ms_local.specs.Memory.{Shelf};

    ghost Value = { Shelf };

    ghost view = { λ k. record { state = k.state; objects = k.objects.entries; calls = k.script } };
}

impl MemoryKeeper {
    /// A keeper of no text.
    pub fn new(alloc: Global, fails: Vec<u64>) -> MemoryKeeper
        ensures { result ≡ record { state = None; objects = []; calls = first_calls fails.items } }
    {
        MemoryKeeper {
            state: None,
            objects: BTreeMap::new(alloc),
            script: Script::new(fails),
        }
    }

    /// The text of the key.
    fn held(&self, key: &Key) -> Option<&Bytes>
        ensures { option_map (λ t. t.now) result ≡ texts_by self.now.state self.now.objects key.now }
    {
        match key {
            Key::State => self.state.as_ref(),
            Key::Object { name } => self.objects.get(name),
        }
    }
}

/// A copy of a text.
fn copy_text(alloc: Global, text: Option<&Bytes>) -> Result<Option<Bytes>, NoMemory>
    ensures { IfOk result (λ copy. option_map (λ t. t.now) text.entry ≡ copy) }
{
    match text {
        Some(text) => Ok(Some(Bytes::of(alloc, text.as_slice())?)),
        None => Ok(None),
    }
}

impl Keeper for MemoryKeeper {
    ghost sees = { keeper_of };

    fn read(&mut self, alloc: Global, key: &Key) -> Result<Option<Bytes>, OutsideError>
        ensures reads { Reads key.now (keeper_of self.old) (keeper_of self.new) result }
        ensures same { self.new ≡ record self.old { calls = self.new.calls } }
        ensures later { self.old.calls.faults ≤ self.new.calls.faults }
        ensures steady { IsSteady self.old.calls.faults self.new.calls.faults result }
        // The calls that fail are those of the script.
        ensures fails { (result ≡ Err errors.Failed) ↔ IsTrue (is_due self.old.calls) }
        ensures calls { self.new.calls ≡ after_call (is_due self.old.calls) self.old.calls }
    {
        if self.script.call() {
            return Err(OutsideError::Failed);
        }
        Ok(copy_text(alloc, self.held(key))?)
    }

    fn write(&mut self, alloc: Global, key: &Key, text: &[u8]) -> Result<(), OutsideError>
        ensures writes { Writes key.now text.now (keeper_of self.old) (keeper_of self.new) result }
        ensures later { self.old.calls.faults ≤ self.new.calls.faults }
        ensures steady { IsSteady self.old.calls.faults self.new.calls.faults result }
        // The calls that fail are those of the script, and a call that is not answered Ok keeps nothing.
        ensures fails { (result ≡ Err errors.Failed) ↔ IsTrue (is_due self.old.calls) }
        ensures calls { self.new.calls ≡ after_call (is_due self.old.calls) self.old.calls }
        ensures err { OnErr result (self.new ≡ record self.old { calls = self.new.calls }) }
    {
        if self.script.call() {
            return Err(OutsideError::Failed);
        }
        let text = Bytes::of(alloc, text)?;
        match key {
            Key::State => {
                self.state = Some(text);
                Ok(())
            }
            Key::Object { name } => match self.objects.insert(*name, text) {
                Ok(_) => Ok(()),
                Err(_) => Err(OutsideError::NoMemory),
            },
        }
    }

    fn faults(&self) -> u64 {
        self.script.faults()
    }
}

/// A work folder in memory. The calls of the numbers in `fails`, counted from 0, fail and do nothing.
#[derive(Drop)]
pub struct MemoryWork {
    files: Files,
    script: Script,
}

impl Model for MemoryWork {
    ghost use Rattle.ms_local.specs.Memory.{Folder};

    ghost Value = { Folder };

    ghost view = { λ w. record { files = w.files; calls = w.script } };
}

impl MemoryWork {
    /// A folder with these files.
    pub fn new(files: Files, fails: Vec<u64>) -> MemoryWork
        ensures { result ≡ record { files = files; calls = first_calls fails.items } }
    {
        MemoryWork {
            files,
            script: Script::new(fails),
        }
    }
}

/// A copy of files.
fn copy_files(alloc: Global, files: &Files) -> Result<Files, NoMemory>
    ensures { IfOk result (λ copy. copy ≡ files.now) }
{
    let rows = files.rows()?;
    Files::from_rows(alloc, &rows)
}

impl Work for MemoryWork {
    ghost sees = { work_of };

    fn scan(&mut self, alloc: Global) -> Result<Files, WorkError>
        ensures scans { Scans (work_of self.old) (work_of self.new) result }
        ensures same { self.new ≡ record self.old { calls = self.new.calls } }
        ensures later { self.old.calls.faults ≤ self.new.calls.faults }
        ensures steady { IsScanSteady self.old.calls.faults self.new.calls.faults result }
        // The calls that fail are those of the script, and no limit is passed.
        ensures fails { (result ≡ Err work_errors.Failed) ↔ IsTrue (is_due self.old.calls) }
        ensures calls { self.new.calls ≡ after_call (is_due self.old.calls) self.old.calls }
        ensures no_limit { (what : Quantity) (value : ℕ) → result ≡ Err (work_errors.Limit what value) → ⊥ }
    {
        if self.script.call() {
            return Err(WorkError::Failed);
        }
        match copy_files(alloc, &self.files) {
            Ok(files) => Ok(files),
            Err(_) => Err(WorkError::NoMemory),
        }
    }

    fn write(&mut self, alloc: Global, path: &str, text: &[u8]) -> Result<(), OutsideError>
        requires may { MayPlace path.now text.now (work_of self.old) }
        ensures places { Places path.now text.now (work_of self.old) (work_of self.new) result }
        ensures later { self.old.calls.faults ≤ self.new.calls.faults }
        ensures steady { IsSteady self.old.calls.faults self.new.calls.faults result }
        // The calls that fail are those of the script, and a call that is not answered Ok changes nothing.
        ensures fails { (result ≡ Err errors.Failed) ↔ IsTrue (is_due self.old.calls) }
        ensures calls { self.new.calls ≡ after_call (is_due self.old.calls) self.old.calls }
        ensures err { OnErr result (self.new ≡ record self.old { calls = self.new.calls }) }
    {
        if self.script.call() {
            return Err(OutsideError::Failed);
        }
        let text = Bytes::of(alloc, text)?;
        match self.files.add(path, text) {
            Ok(_) => Ok(()),
            Err(_) => Err(OutsideError::NoMemory),
        }
    }

    fn remove(&mut self, _alloc: Global, path: &str) -> Result<(), OutsideError>
        ensures removes { Removes path.now (work_of self.old) (work_of self.new) result }
        ensures later { self.old.calls.faults ≤ self.new.calls.faults }
        ensures steady { IsSteady self.old.calls.faults self.new.calls.faults result }
        // The calls that fail are those of the script, and a call that is not answered Ok changes nothing.
        ensures fails { (result ≡ Err errors.Failed) ↔ IsTrue (is_due self.old.calls) }
        ensures calls { self.new.calls ≡ after_call (is_due self.old.calls) self.old.calls }
        ensures err { OnErr result (self.new ≡ record self.old { calls = self.new.calls }) }
    {
        if self.script.call() {
            return Err(OutsideError::Failed);
        }
        self.files.remove(path);
        Ok(())
    }

    fn faults(&self) -> u64 {
        self.script.faults()
    }
}
