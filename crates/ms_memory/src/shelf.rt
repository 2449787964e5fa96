//! What a service keeps in memory.

ghost use Rattle.std.specs.Prelude.{◌≡◌, ◌≤◌, ◌++◌, ◌∷◌, [], ℕ, List, IfOk, OnOk, drop};
ghost use Rattle.ms_memory.specs.Shelves.{Fits, Holds, IsOpenTo};
ghost use Rattle.ms_record.specs.declared.log.LogEvent.{LogEvent};

use crate::lists::Lists;
use crate::store::Store;
use ms_base::NoMemory;
use ms_record::LogEvent;
use std::alloc::Global;

/// The lists, the texts and the floor that a log left.
#[derive(Drop)]
pub(crate) struct Shelf {
    pub(crate) lists: Lists,
    pub(crate) store: Store,
    /// The greatest floor below which the service dropped, 0 for none.
    pub(crate) floor: u32,
}

impl Shelf {
    /// What a log without events leaves.
    pub(crate) fn new(alloc: Global) -> Shelf
        ensures { Holds result [] }
    {
        Shelf {
            lists: Lists::new(alloc),
            store: Store::new(alloc),
            floor: 0,
        }
    }

    /// Takes the memory for an event.
    pub(crate) fn reserve(&mut self, alloc: Global, event: &LogEvent) -> Result<(), NoMemory>
        ensures fits { OnOk result (Fits self.new event.now) }
        ensures floor { self.new.floor ≡ self.old.floor }
        ensures same { (log : List LogEvent) → Holds self.old log → Holds self.new log }
    {
        match event {
            LogEvent::Rec { list, text: _ } => self.lists.reserve(alloc, *list),
            LogEvent::Put {
                generation,
                name,
                text: _,
            } => self.store.reserve(*generation, name),
            LogEvent::Drop { floor: _ } => Ok(()),
        }
    }

    /// Adds an event, without taking memory.
    pub(crate) fn keep(&mut self, event: LogEvent)
        requires fits { Fits self.old event }
        requires open_to { IsOpenTo self.old.floor event }
        ensures { (log : List LogEvent) → Holds self.old log → Holds self.new (log ++ event ∷ []) }
    {
        match event {
            LogEvent::Rec { list, text } => self.lists.push(list, text),
            LogEvent::Put {
                generation,
                name,
                text,
            } => self.store.put(generation, &name, text),
            LogEvent::Drop { floor } => {
                if floor > self.floor {
                    self.store.drop_below(floor);
                    self.floor = floor;
                }
            }
        }
    }
}
