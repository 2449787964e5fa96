//! Calls on the objects of the services by the links of a desk's first lane.

ghost use Rattle.std.specs.Prelude.{◌≡◌, ◌<◌, ◌≤◌, length};
ghost use Rattle.ms_object.specs.Objects.{name_of as sha_name};
ghost use Rattle.ms_base.specs.declared.limits.TheConstants.{OBJECT_BYTES};
ghost use Rattle.ms_record.specs.declared.log.LogEvent.TheVariants.{Put as Stored};
ghost use Rattle.ms_local.specs.Calls.{DeskCalls, GetsAt, HasAt, PutsAt};
ghost use Rattle.ms_local.specs.ObjectCalls.{GetsNoted, HasNoted, PutsNoted};
ghost use Rattle.ms_local.specs.Desks.{IsDesk, desk_view};
ghost use Rattle.ms_local.specs.declared.deed.Deed.TheVariants as deeds;

use crate::deed::Deed;
use crate::desk::Desk;
use crate::desk_law::desks_stay;
use crate::outside::{Keeper, Work};
use ms_base::{Bytes, Name, NoMemory, ServiceId};
use ms_core::FoldClosed;
use ms_core::item_law::ask;
use ms_link::{Link, LinkError};
use ms_object::name_of;
use std::alloc::Global;

/// Why a service gave no answer on an object.
#[derive(Clone, Copy)]
pub enum Miss {
    /// The link's count of faults rose.
    Failed,
    /// The generation lies below the greatest floor that the service dropped.
    Stale { floor: u32 },
}

/// Bytes that came, with their own name.
#[derive(Drop)]
pub struct Found {
    pub name: Name,
    pub text: Bytes,
}

/// Whether the service keeps a text under the name in the generation. `Failed` where the count of faults of the first lane's link to
/// it rose.
pub fn has_object<W: Work + Drop, K: Keeper + Drop, L: Link<FoldClosed> + Drop>(
    alloc: Global,
    desk: &mut Desk<W, K, L>,
    service: ServiceId,
    generation: u32,
    name: &Name,
) -> Result<bool, LinkError>
    requires desk { IsDesk (desk_view W.sees K.sees L.sees desk.old) }
    requires service { service.0 < desk.old.services }
    ensures has { HasAt (desk_view W.sees K.sees L.sees desk.old) (desk_view W.sees K.sees L.sees desk.new) service.0 generation name.now result }
    ensures effect { DeskCalls service.0 (desk_view W.sees K.sees L.sees desk.old) (desk_view W.sees K.sees L.sees desk.new) }
    ensures desk { IsDesk (desk_view W.sees K.sees L.sees desk.new) }
{
    desks_stay();
    let link = &mut desk.lanes[0].links[service.0 as usize];
    link.has(alloc, &desk.board, &mut desk.pass, generation, name)
}

/// Puts a text under its name in the generation. `Failed` where the count of faults of the first lane's link to it rose; the text
/// may then be there, or come later, or never.
pub fn put_object<W: Work + Drop, K: Keeper + Drop, L: Link<FoldClosed> + Drop>(
    alloc: Global,
    desk: &mut Desk<W, K, L>,
    service: ServiceId,
    generation: u32,
    name: &Name,
    text: &[u8],
) -> Result<(), LinkError>
    requires desk { IsDesk (desk_view W.sees K.sees L.sees desk.old) }
    requires service { service.0 < desk.old.services }
    requires short { length text.now ≤ OBJECT_BYTES }
    requires named { name.now.0 ≡ sha_name text.now }
    ensures puts { PutsAt (desk_view W.sees K.sees L.sees desk.old) (desk_view W.sees K.sees L.sees desk.new) service.0 generation (Stored generation name.now text.now) result }
    ensures effect { DeskCalls service.0 (desk_view W.sees K.sees L.sees desk.old) (desk_view W.sees K.sees L.sees desk.new) }
    ensures desk { IsDesk (desk_view W.sees K.sees L.sees desk.new) }
{
    desks_stay();
    ask();
    desk.pass.recall();
    let link = &mut desk.lanes[0].links[service.0 as usize];
    link.put(alloc, &desk.board, &mut desk.pass, generation, name, text)
}

/// The bytes that the service hands out under the name in the generation, whatever they are. `Failed` where the count of faults of
/// the first lane's link to it rose.
pub fn get_object<W: Work + Drop, K: Keeper + Drop, L: Link<FoldClosed> + Drop>(
    alloc: Global,
    desk: &mut Desk<W, K, L>,
    service: ServiceId,
    generation: u32,
    name: &Name,
) -> Result<Option<Bytes>, LinkError>
    requires desk { IsDesk (desk_view W.sees K.sees L.sees desk.old) }
    requires service { service.0 < desk.old.services }
    ensures gets { GetsAt (desk_view W.sees K.sees L.sees desk.old) (desk_view W.sees K.sees L.sees desk.new) service.0 generation name.now result }
    ensures effect { DeskCalls service.0 (desk_view W.sees K.sees L.sees desk.old) (desk_view W.sees K.sees L.sees desk.new) }
    ensures desk { IsDesk (desk_view W.sees K.sees L.sees desk.new) }
{
    desks_stay();
    let link = &mut desk.lanes[0].links[service.0 as usize];
    link.get(alloc, &desk.board, &mut desk.pass, generation, name)
}

/// As `has_object`, noted as a deed. Without memory nothing is noted.
pub fn has_noted<W: Work + Drop, K: Keeper + Drop, L: Link<FoldClosed> + Drop>(
    alloc: Global,
    desk: &mut Desk<W, K, L>,
    service: ServiceId,
    generation: u32,
    name: &Name,
) -> Result<Result<bool, Miss>, NoMemory>
    requires desk { IsDesk (desk_view W.sees K.sees L.sees desk.old) }
    requires service { service.0 < desk.old.services }
    ensures has { HasNoted (desk_view W.sees K.sees L.sees desk.old) (desk_view W.sees K.sees L.sees desk.new) service generation name.now result }
    ensures desk { IsDesk (desk_view W.sees K.sees L.sees desk.new) }
{
    desks_stay();
    desk.deeds
        .push(asked(service, generation, name, false, false, None))?;
    match has_object(alloc, desk, service, generation, name) {
        Ok(present) => {
            desk.deeds
                .set_last(asked(service, generation, name, present, true, None));
            Ok(Ok(present))
        }
        Err(LinkError::NoMemory) => {
            let _ = desk.deeds.pop();
            Err(NoMemory)
        }
        Err(LinkError::Failed) => Ok(Err(Miss::Failed)),
        Err(LinkError::Stale { floor }) => {
            desk.deeds.set_last(asked(service, generation, name, false, false, Some(floor)));
            Ok(Err(Miss::Stale { floor }))
        }
    }
}

/// As `put_object`, noted as a deed. Without memory nothing is noted.
pub fn put_noted<W: Work + Drop, K: Keeper + Drop, L: Link<FoldClosed> + Drop>(
    alloc: Global,
    desk: &mut Desk<W, K, L>,
    service: ServiceId,
    generation: u32,
    name: &Name,
    text: &[u8],
) -> Result<Result<(), Miss>, NoMemory>
    requires desk { IsDesk (desk_view W.sees K.sees L.sees desk.old) }
    requires service { service.0 < desk.old.services }
    requires short { length text.now ≤ OBJECT_BYTES }
    requires named { name.now.0 ≡ sha_name text.now }
    ensures puts { PutsNoted (desk_view W.sees K.sees L.sees desk.old) (desk_view W.sees K.sees L.sees desk.new) service generation name.now text.now result }
    ensures desk { IsDesk (desk_view W.sees K.sees L.sees desk.new) }
{
    desks_stay();
    desk.deeds
        .push(put(service, generation, name, false, None))?;
    match put_object(alloc, desk, service, generation, name, text) {
        Ok(()) => {
            desk.deeds
                .set_last(put(service, generation, name, true, None));
            Ok(Ok(()))
        }
        Err(LinkError::NoMemory) => {
            let _ = desk.deeds.pop();
            Err(NoMemory)
        }
        Err(LinkError::Failed) => Ok(Err(Miss::Failed)),
        Err(LinkError::Stale { floor }) => {
            desk.deeds
                .set_last(put(service, generation, name, false, Some(floor)));
            Ok(Err(Miss::Stale { floor }))
        }
    }
}

/// As `get_object`, noted as a deed with the SHA-256 of the bytes that came, which is their own name. Without memory nothing is noted.
pub fn get_noted<W: Work + Drop, K: Keeper + Drop, L: Link<FoldClosed> + Drop>(
    alloc: Global,
    desk: &mut Desk<W, K, L>,
    service: ServiceId,
    generation: u32,
    name: &Name,
) -> Result<Result<Option<Found>, Miss>, NoMemory>
    requires desk { IsDesk (desk_view W.sees K.sees L.sees desk.old) }
    requires service { service.0 < desk.old.services }
    ensures gets { GetsNoted (desk_view W.sees K.sees L.sees desk.old) (desk_view W.sees K.sees L.sees desk.new) service generation name.now result }
    ensures desk { IsDesk (desk_view W.sees K.sees L.sees desk.new) }
{
    desks_stay();
    desk.deeds
        .push(got(service, generation, name, None, false, None))?;
    match get_object(alloc, desk, service, generation, name) {
        Ok(Some(text)) => {
            let own = name_of(text.as_slice());
            desk.deeds
                .set_last(got(service, generation, name, Some(own), true, None));
            Ok(Ok(Some(Found { name: own, text })))
        }
        Ok(None) => {
            desk.deeds
                .set_last(got(service, generation, name, None, true, None));
            Ok(Ok(None))
        }
        Err(LinkError::NoMemory) => {
            let _ = desk.deeds.pop();
            Err(NoMemory)
        }
        Err(LinkError::Failed) => Ok(Err(Miss::Failed)),
        Err(LinkError::Stale { floor }) => {
            desk.deeds
                .set_last(got(service, generation, name, None, false, Some(floor)));
            Ok(Err(Miss::Stale { floor }))
        }
    }
}

fn asked(
    service: ServiceId,
    generation: u32,
    name: &Name,
    present: bool,
    ok: bool,
    floor: Option<u32>,
) -> Deed
    ensures { result ≡ deeds.Asked service generation name.now present ok floor }
{
    Deed::Asked {
        service,
        generation,
        name: *name,
        present,
        ok,
        floor,
    }
}

fn put(service: ServiceId, generation: u32, name: &Name, ok: bool, floor: Option<u32>) -> Deed
    ensures { result ≡ deeds.Put service generation name.now ok floor }
{
    Deed::Put {
        service,
        generation,
        name: *name,
        ok,
        floor,
    }
}

fn got(
    service: ServiceId,
    generation: u32,
    name: &Name,
    found: Option<Name>,
    ok: bool,
    floor: Option<u32>,
) -> Deed
    ensures { result ≡ deeds.Got service generation name.now found ok floor }
{
    Deed::Got {
        service,
        generation,
        name: *name,
        found,
        ok,
        floor,
    }
}
