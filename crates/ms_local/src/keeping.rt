//! Reading and keeping the state.

ghost use Rattle.std.specs.Prelude.{◌≡◌, ◌≤◌, IfOk, IfSome, length};
ghost use Rattle.ms_local.specs.Keeping.{HasRanges, IsKeptSteady, ReadsKept, WritesKept};
ghost use Rattle.ms_local.specs.States.{IsBase, IsState, IsTodo};

use crate::kept::{Base, Kept};
use crate::outside::Keeper;
use crate::spelling::{kept_laws, parse_kept, push_kept};
use ms_base::limits::LAST_NUMBER;
use ms_base::{Name, OutsideError};
use ms_record::{Key, Place, Refusal};
use std::alloc::Global;

/// The kept state: `docs/FORMATS.md`, the kept state. `LocalDamaged` of the state exactly where its text, an absent one as empty, is not
/// of the grammar; `OutsideFault` of the keeper where its count of faults rose.
pub fn read_kept<K: Keeper>(alloc: Global, keep: &mut K) -> Result<Kept, Refusal>
    ensures reads { ReadsKept (K.sees keep.old) (K.sees keep.new) result }
    ensures ranges { IfOk result IsState }
    ensures same { K.sees keep.new ≡ record (K.sees keep.old) { faults = (K.sees keep.new).faults } }
    ensures later { (K.sees keep.old).faults ≤ (K.sees keep.new).faults }
    ensures steady { IsKeptSteady (K.sees keep.old).faults (K.sees keep.new).faults result }
{
    match keep.read(alloc, &Key::State) {
        Ok(Some(text)) => match parse_kept(text.as_slice()) {
            Some(kept) => Ok(kept),
            None => Err(Refusal::LocalDamaged { key: Key::State }),
        },
        Ok(None) => Err(Refusal::LocalDamaged { key: Key::State }),
        Err(OutsideError::Failed) => Err(Refusal::OutsideFault { place: Place::Keep }),
        Err(OutsideError::NoMemory) => Err(Refusal::NoMemory),
    }
}

/// A name has 32 bytes.
fn shows_name(name: &Name)
    ensures { length name.now.0 ≡ 32 }
{
    let _bytes: &[u8] = &name.0;
}

fn shows_base(base: &Base)
    requires { base.now.position ≤ LAST_NUMBER }
    ensures { IsBase base.now }
{
    shows_name(&base.entry);
    shows_name(&base.version);
}

fn shows_todo(kept: &Kept)
    requires { IfSome kept.now.todo (λ todo. todo.target.position ≤ LAST_NUMBER) }
    ensures { IfSome kept.now.todo IsTodo }
{
    if let Some(todo) = &kept.todo {
        shows_base(&todo.target);
        shows_name(&todo.before);
        shows_name(&todo.after);
    }
}

/// A state whose numbers are in their ranges is of the grammar.
fn shows_state(kept: &Kept)
    requires { HasRanges kept.now }
    ensures { IsState kept.now }
{
    shows_base(&kept.base);
    shows_name(&kept.head);
    shows_todo(kept);
}

/// Keeps the state, whole or not at all. `OutsideFault` of the keeper where its count of faults rose.
pub fn write_kept<K: Keeper>(alloc: Global, keep: &mut K, kept: &Kept) -> Result<(), Refusal>
    requires { HasRanges kept.now }
    ensures writes { WritesKept kept.now (K.sees keep.old) (K.sees keep.new) result }
    ensures told { (K.sees keep.new).told ≡ (K.sees keep.old).told }
    ensures later { (K.sees keep.old).faults ≤ (K.sees keep.new).faults }
    ensures steady { IsKeptSteady (K.sees keep.old).faults (K.sees keep.new).faults result }
{
    kept_laws();
    shows_state(kept);
    let mut text = Vec::new(alloc);
    push_kept(&mut text, kept)?;
    match keep.write(alloc, &Key::State, text.as_slice()) {
        Ok(()) => Ok(()),
        Err(OutsideError::Failed) => Err(Refusal::OutsideFault { place: Place::Keep }),
        Err(OutsideError::NoMemory) => Err(Refusal::NoMemory),
    }
}
