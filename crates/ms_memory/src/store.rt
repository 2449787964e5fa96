//! The objects of a service.

ghost use Rattle.std.specs.Prelude.{◌≡◌, ◌<◌, ◌≤◌, ℕ, IfOk, OnOk, Some, None, unwrap_or, is_some};
ghost use Rattle.std.specs.Option.{option_copied};
ghost use Rattle.ms_base.specs.declared.names.Name.{Name};
ghost use Rattle.ms_memory.specs.Shelves.{HasPlace, text_at};

use ms_base::{Bytes, Name, NoMemory};
use std::alloc::Global;
use std::collections::BTreeMap;

/// Where a text is kept.
#[derive(Clone, Copy, PartialEq, Eq, PartialOrd, Ord)]
pub(crate) struct Spot {
    pub(crate) generation: u32,
    pub(crate) name: Name,
}

/// Texts by generation and name. A place without a text was made ready for one.
#[derive(Drop)]
pub(crate) struct Store {
    texts: BTreeMap<Spot, Option<Bytes>>,
}

impl Store {
    /// The store of nothing.
    pub(crate) fn new(alloc: Global) -> Store
        ensures { (generation : ℕ) (name : Name) → text_at result generation name ≡ None }
    {
        Store {
            texts: BTreeMap::new(alloc),
        }
    }

    /// Takes the memory for a place.
    pub(crate) fn reserve(&mut self, generation: u32, name: &Name) -> Result<(), NoMemory>
        ensures place { OnOk result (HasPlace self.new generation name.now) }
        ensures same { (g : ℕ) (n : Name) → text_at self.new g n ≡ text_at self.old g n }
    {
        let spot = Spot {
            generation,
            name: *name,
        };
        if !self.texts.contains_key(&spot) {
            self.texts.insert(spot, None)?;
        }
        Ok(())
    }

    /// Keeps a text where none is kept, without taking memory.
    pub(crate) fn put(&mut self, generation: u32, name: &Name, text: Bytes)
        requires { HasPlace self.old generation name.now }
        ensures here { text_at self.new generation name.now ≡ Some (unwrap_or (text_at self.old generation name.now) text) }
        ensures others { (g : ℕ) (n : Name) → (g ≡ generation → n ≡ name.now → ⊥) → text_at self.new g n ≡ text_at self.old g n }
    {
        let spot = Spot {
            generation,
            name: *name,
        };
        if let Some(place) = self.texts.get_mut(&spot) {
            if place.is_none() {
                *place = Some(text);
            }
        }
    }

    /// The text at a place.
    pub(crate) fn get(&self, generation: u32, name: &Name) -> Option<&Bytes>
        ensures { option_copied result ≡ text_at self.now generation name.now }
    {
        let spot = Spot {
            generation,
            name: *name,
        };
        self.texts.get(&spot)?.as_ref()
    }

    /// Gives up what is kept in the generations below the floor.
    pub(crate) fn drop_below(&mut self, floor: u32)
        ensures gone { (g : ℕ) (n : Name) → g < floor → text_at self.new g n ≡ None }
        ensures kept { (g : ℕ) (n : Name) → floor ≤ g → text_at self.new g n ≡ text_at self.old g n }
    {
        self.texts.retain(|spot, _text| spot.generation >= floor);
    }
}
