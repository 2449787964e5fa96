//! Stores: texts by their names.

ghost use Rattle.std.specs.Prelude.{◌≡◌, ◌↔◌, [], ℕ, List, Some, None, OnOk, OnErr, IfOk, IfSome, IsSome, Contains, length, option_map};
ghost use Rattle.std.specs.List.Sorted.{IsStrictlySortedBy};
ghost use Rattle.ms_base.specs.declared.names.Name.{Name};
ghost use Rattle.ms_object.specs.Objects.{name_of as sha_name};
ghost use Rattle.ms_object.specs.Stores.{AreNamed, name_cmp, names_in, text_after, text_of};

use crate::names::name_of;
use crate::object::Names;
use ms_base::{Bytes, Items, Name, NoMemory};
use std::alloc::Global;
use std::collections::BTreeMap;
use std::marker::Model;

/// Texts, each under its SHA-256.
#[derive(Drop)]
pub struct Store {
    texts: BTreeMap<Name, Bytes>,
}

impl Model for Store {
    ghost use Rattle.ms_object.specs.Stores.{StoreView, AreNamed};

    ghost Value = { StoreView };

    ghost view = { λ s. s.texts.entries };

    ghost invariant = { λ s. AreNamed s.texts.entries };
}

impl Store {
    /// The store of nothing.
    pub fn new(alloc: Global) -> Store
        ensures { result ≡ [] }
    {
        Store {
            texts: BTreeMap::new(alloc),
        }
    }

    /// Puts a text under its SHA-256, and answers that name. A text that is there stays.
    pub fn add(&mut self, text: Bytes) -> Result<Name, NoMemory>
        ensures name { IfOk result (λ name. name.0 ≡ sha_name text) }
        ensures texts { OnOk result ((name : List ℕ) → text_of self.new name ≡ text_after (text_of self.old) text name) }
        ensures err { OnErr result (self.new ≡ self.old) }
    {
        let name = name_of(text.as_slice());
        self.add_named(&name, text)?;
        Ok(name)
    }

    /// Puts a text under its SHA-256, which the caller has. A text that is there stays.
    pub fn add_named(&mut self, name: &Name, text: Bytes) -> Result<(), NoMemory>
        requires named { name.now.0 ≡ sha_name text }
        ensures texts { OnOk result ((name : List ℕ) → text_of self.new name ≡ text_after (text_of self.old) text name) }
        ensures err { OnErr result (self.new ≡ self.old) }
    {
        if self.texts.contains_key(name) {
            return Ok(());
        }
        self.texts.insert(*name, text)?;
        Ok(())
    }

    /// The text of this name.
    pub fn get(&self, name: &Name) -> Option<&[u8]>
        ensures text { option_map (λ text. text.now) result ≡ text_of self.now name.now.0 }
        ensures named { IfSome result (λ text. name.now.0 ≡ sha_name text.now) }
    {
        match self.texts.get(name) {
            Some(text) => Some(text.as_slice()),
            None => None,
        }
    }

    /// The names of the texts that are there, rising.
    pub fn names(&self, alloc: Global) -> Result<Names, NoMemory>
        ensures all { IfOk result (λ names. names ≡ names_in self.now) }
        ensures rising { IfOk result (λ names. IsStrictlySortedBy name_cmp names) }
        ensures there { IfOk result (λ names. (name : Name) → Contains names name ↔ IsSome (text_of self.now name.0)) }
    {
        let names = self.texts.keys().copied().collect(alloc)?;
        Ok(Items::from_vec(names))
    }

    /// What is true of every store: its names rise, and each text stands under its SHA-256.
    pub fn shows(&self)
        ensures rising { IsStrictlySortedBy name_cmp (names_in self.now) }
        ensures there { (name : Name) → Contains (names_in self.now) name ↔ IsSome (text_of self.now name.0) }
        ensures named { AreNamed self.now }
    {
        let _names = self.texts.keys();
    }

    /// How many texts there are.
    pub fn len(&self) -> u64
        ensures { result ≡ length (names_in self.now) }
    {
        self.texts.len() as u64
    }
}
