//! What a client has outside of itself beside the services: a keeper of texts and a work folder.

ghost use Rattle.std.specs.Prelude.{◌≡◌, ◌≤◌};
ghost use Rattle.ms_local.specs.Outside.{KeeperView, WorkView, IsScanSteady, IsSteady, Reads, Writes, Scans, Places, Removes, MayPlace};

use ms_base::{Bytes, OutsideError, Quantity};
use ms_record::Key;
use ms_tree::Files;
use std::alloc::Global;

/// Keeps texts under keys. It *tells its texts* or not, and no call changes that.
pub trait Keeper {
    ghost sees: { Self → KeeperView };

    /// The text of the key; none where it has none. `Failed` where the count of faults rose.
    fn read(&mut self, alloc: Global, key: &Key) -> Result<Option<Bytes>, OutsideError>
        ensures reads { Reads key.now (sees self.old) (sees self.new) result }
        ensures same { sees self.new ≡ record (sees self.old) { faults = (sees self.new).faults } }
        ensures later { (sees self.old).faults ≤ (sees self.new).faults }
        ensures steady { IsSteady (sees self.old).faults (sees self.new).faults result };

    /// Keeps the text under the key in place of what was there, whole or not at all. `Failed` where the count of faults rose.
    fn write(&mut self, alloc: Global, key: &Key, text: &[u8]) -> Result<(), OutsideError>
        ensures writes { Writes key.now text.now (sees self.old) (sees self.new) result }
        ensures told { (sees self.new).told ≡ (sees self.old).told }
        ensures later { (sees self.old).faults ≤ (sees self.new).faults }
        ensures steady { IsSteady (sees self.old).faults (sees self.new).faults result };

    /// How many calls failed. At its type's end the count stands still.
    fn faults(&self) -> u64
        ensures { result ≡ (sees self.now).faults };
}

/// Why a folder was not scanned. A limit has the quantity and the value that passes it.
#[derive(Clone, Copy, Debug, PartialEq, Eq)]
pub enum WorkError {
    Limit { what: Quantity, value: u64 },
    Failed,
    NoMemory,
}

/// A folder of files. It *tells its files* or not, and no call changes that.
pub trait Work {
    ghost sees: { Self → WorkView };

    /// The files of the folder. `Limit` where they pass a limit, the first in the order of their paths; `Failed` where the count
    /// of faults rose.
    fn scan(&mut self, alloc: Global) -> Result<Files, WorkError>
        ensures scans { Scans (sees self.old) (sees self.new) result }
        ensures same { sees self.new ≡ record (sees self.old) { faults = (sees self.new).faults } }
        ensures later { (sees self.old).faults ≤ (sees self.new).faults }
        ensures steady { IsScanSteady (sees self.old).faults (sees self.new).faults result };

    /// Places the text at the path in place of what was there, whole or not at all, and makes the folders that are missing.
    fn write(&mut self, alloc: Global, path: &str, text: &[u8]) -> Result<(), OutsideError>
        requires may { MayPlace path.now text.now (sees self.old) }
        ensures places { Places path.now text.now (sees self.old) (sees self.new) result }
        ensures told { (sees self.new).told ≡ (sees self.old).told }
        ensures later { (sees self.old).faults ≤ (sees self.new).faults }
        ensures steady { IsSteady (sees self.old).faults (sees self.new).faults result };

    /// Takes the file at the path away, if one is there, and the folders that are then empty.
    fn remove(&mut self, alloc: Global, path: &str) -> Result<(), OutsideError>
        ensures removes { Removes path.now (sees self.old) (sees self.new) result }
        ensures told { (sees self.new).told ≡ (sees self.old).told }
        ensures later { (sees self.old).faults ≤ (sees self.new).faults }
        ensures steady { IsSteady (sees self.old).faults (sees self.new).faults result };

    /// How many calls failed. At its type's end the count stands still.
    fn faults(&self) -> u64
        ensures { result ≡ (sees self.now).faults };
}
