//! Keeping objects and reading them: each under its name, `docs/PROTOCOL.md`, the outside of a client.

ghost use Rattle.std.specs.Prelude.{◌≡◌, ◌≤◌, Contains};
ghost use Rattle.ms_object.specs.Stores.{names_in};
ghost use Rattle.ms_record.specs.declared.key.Key.TheVariants.{State};
ghost use Rattle.ms_local.specs.Keeping.{IsKeptSteady};
ghost use Rattle.ms_local.specs.KeptObjects.{KeeperGoes, KeepsObjects, KeepsOne, ReadsObject};
ghost use Rattle.ms_local.specs.Outside.{WhereTold};

use crate::outside::Keeper;
use ms_base::{Bytes, Name, OutsideError};
use ms_object::{Store, name_of};
use ms_record::{Key, Place, Refusal};
use std::alloc::Global;

/// Keeps the objects of a store, one write each, their names rising; those that are kept too, so that a damaged text is mended.
/// `OutsideFault` of the keeper where its count of faults rose; some of the objects may then be kept.
pub fn keep_objects<K: Keeper>(alloc: Global, keep: &mut K, objects: &Store) -> Result<(), Refusal>
    ensures keeps { KeepsObjects objects.now (K.sees keep.old) (K.sees keep.new) result }
    ensures state { WhereTold (K.sees keep.old).told ((K.sees keep.new).texts State ≡ (K.sees keep.old).texts State) }
    ensures told { (K.sees keep.new).told ≡ (K.sees keep.old).told }
    ensures later { (K.sees keep.old).faults ≤ (K.sees keep.new).faults }
    ensures steady { IsKeptSteady (K.sees keep.old).faults (K.sees keep.new).faults result }
{
    keep_all(alloc, keep, objects)
}

/// Writes one object after the other.
fn keep_all<K: Keeper>(alloc: Global, keep: &mut K, objects: &Store) -> Result<(), Refusal>
    ensures keeps { KeepsObjects objects.now (K.sees keep.old) (K.sees keep.new) result }
    ensures goes { KeeperGoes (K.sees keep.old) (K.sees keep.new) result }
{
    let names = match objects.names(alloc) {
        Ok(names) => names,
        Err(_) => return Err(Refusal::NoMemory),
    };
    let names = names.as_slice();
    for place in 0..names.len() {
        match keep_one(alloc, keep, objects, &names[place]) {
            Ok(()) => (),
            Err(refusal) => return Err(refusal),
        }
    }
    Ok(())
}

/// Writes the object of this name.
fn keep_one<K: Keeper>(
    alloc: Global,
    keep: &mut K,
    objects: &Store,
    name: &Name,
) -> Result<(), Refusal>
    requires there { Contains (names_in objects.now) name.now }
    ensures keeps { KeepsOne objects.now name.now (K.sees keep.old) (K.sees keep.new) result }
    ensures goes { KeeperGoes (K.sees keep.old) (K.sees keep.new) result }
{
    objects.shows();
    let Some(text) = objects.get(name) else {
        unreachable!()
    };
    match keep.write(alloc, &Key::Object { name: *name }, text) {
        Ok(()) => Ok(()),
        Err(OutsideError::Failed) => Err(Refusal::OutsideFault { place: Place::Keep }),
        Err(OutsideError::NoMemory) => Err(Refusal::NoMemory),
    }
}

/// The text that is kept under the name, whose SHA-256 it is. `LocalDamaged` of that key exactly where the text of the key is absent
/// or has another SHA-256; `OutsideFault` of the keeper where its count of faults rose.
pub fn kept_object<K: Keeper>(alloc: Global, keep: &mut K, name: &Name) -> Result<Bytes, Refusal>
    ensures reads { ReadsObject (K.sees keep.old) (K.sees keep.new) name.now result }
    ensures same { K.sees keep.new ≡ record (K.sees keep.old) { faults = (K.sees keep.new).faults } }
    ensures later { (K.sees keep.old).faults ≤ (K.sees keep.new).faults }
    ensures steady { IsKeptSteady (K.sees keep.old).faults (K.sees keep.new).faults result }
{
    let key = Key::Object { name: *name };
    match keep.read(alloc, &key) {
        Ok(Some(text)) if name_of(text.as_slice()) == *name => Ok(text),
        Ok(_) => Err(Refusal::LocalDamaged { key }),
        Err(OutsideError::Failed) => Err(Refusal::OutsideFault { place: Place::Keep }),
        Err(OutsideError::NoMemory) => Err(Refusal::NoMemory),
    }
}
