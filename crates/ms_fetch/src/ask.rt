//! One service is asked for an object.

ghost use Rattle.std.specs.Prelude.{◌≡◌, ◌<◌};
ghost use Rattle.ms_local.specs.Desks.{IsDesk, desk_view};
ghost use Rattle.ms_fetch.specs.Fetching.{AsksOne};
ghost use Rattle.ms_fetch.specs.declared.ask.Lack.TheVariants as lacks;

use ms_base::{Bytes, Name, NoMemory, ServiceId};
use ms_core::FoldClosed;
use ms_core::item_law::{items_say, views_grow};
use ms_link::Link;
use ms_local::{Desk, Keeper, Miss, Work, desks_lay, get_noted};
use ms_record::Reason;
use std::alloc::Global;

/// Why a service that was asked for an object gave no bytes of its name.
#[derive(Clone, Copy)]
pub enum Lack {
    /// It failed, had none, or gave other bytes.
    Unread { reason: Reason },
    /// The generation lies below the greatest floor that it dropped, which is this one.
    Stale { floor: u32 },
}

/// Asks the service for the object of this name in the generation, and hands out its bytes only where they have that name.
pub(crate) fn ask_one<W: Work + Drop, K: Keeper + Drop, L: Link<FoldClosed> + Drop>(
    alloc: Global,
    desk: &mut Desk<W, K, L>,
    generation: u32,
    name: &Name,
    service: ServiceId,
) -> Result<Result<Bytes, Lack>, NoMemory>
    requires desk { IsDesk (desk_view W.sees K.sees L.sees desk.old) }
    requires service { service.0 < desk.old.services }
    ensures { AsksOne (desk_view W.sees K.sees L.sees desk.old) (desk_view W.sees K.sees L.sees desk.new) generation name.now service result }
{
    desks_lay();
    items_say();
    views_grow();
    let answer = get_noted(alloc, desk, service, generation, name);
    desk.pass.recall();
    match answer {
        Ok(Ok(Some(found))) => {
            if found.name == *name {
                Ok(Ok(found.text))
            } else {
                Ok(Err(unread(Reason::Altered { found: found.name })))
            }
        }
        Ok(Ok(None)) => Ok(Err(unread(Reason::Absent))),
        Ok(Err(Miss::Failed)) => Ok(Err(unread(Reason::Failed))),
        Ok(Err(Miss::Stale { floor })) => Ok(Err(Lack::Stale { floor })),
        Err(error) => Err(error),
    }
}

fn unread(reason: Reason) -> Lack
    ensures { result ≡ lacks.Unread reason }
{
    Lack::Unread { reason }
}
