//! A visit: a service is asked whether it has an object, and given it where it has not.

ghost use Rattle.std.specs.Prelude.{◌≡◌, ◌<◌, ◌≤◌, length};
ghost use Rattle.ms_base.specs.declared.limits.TheConstants.{OBJECT_BYTES};
ghost use Rattle.ms_object.specs.Objects.{name_of as sha_name};
ghost use Rattle.ms_local.specs.Desks.{IsDesk, desk_view};
ghost use Rattle.ms_upload.specs.Asking.{AsksOne, PutsThere, Visits};
ghost use Rattle.ms_upload.specs.Visits.{met_by as put_met_by};

use ms_base::{Name, NoMemory, ServiceId};
use ms_core::FoldClosed;
use ms_link::Link;
use ms_local::{Desk, Keeper, Miss, Work, desks_lay, has_noted, put_noted};
use std::alloc::Global;

/// How a service met an object.
#[derive(Clone, Copy)]
pub enum Met {
    /// It had it.
    Present,
    /// It did not have it, and took it.
    Taken,
    /// The link failed when the service was asked.
    AskFailed,
    /// The link failed when the object was put.
    PutFailed,
    /// The generation lies below the greatest floor that the service dropped, as it answered when it was asked.
    AskStale { floor: u32 },
    /// It answered so when the object was put.
    PutStale { floor: u32 },
}

/// Asks the service whether it has the object, and puts the object where it has not. Without memory the visit is cut short.
pub(crate) fn visit<W: Work + Drop, K: Keeper + Drop, L: Link<FoldClosed> + Drop>(
    alloc: Global,
    desk: &mut Desk<W, K, L>,
    service: ServiceId,
    generation: u32,
    name: &Name,
    text: &[u8],
) -> Result<Met, NoMemory>
    requires desk { IsDesk (desk_view W.sees K.sees L.sees desk.old) }
    requires service { service.0 < desk.old.services }
    requires short { length text.now ≤ OBJECT_BYTES }
    requires named { name.now.0 ≡ sha_name text.now }
    ensures { Visits (desk_view W.sees K.sees L.sees desk.old) (desk_view W.sees K.sees L.sees desk.new) service generation name.now result }
{
    desks_lay();
    let asked = match ask_one(alloc, desk, service, generation, name) {
        Ok(asked) => asked,
        Err(error) => return Err(error),
    };
    match asked {
        Ok(true) => Ok(Met::Present),
        Ok(false) => put_there(alloc, desk, service, generation, name, text),
        Err(Miss::Failed) => Ok(Met::AskFailed),
        Err(Miss::Stale { floor }) => Ok(Met::AskStale { floor }),
    }
}

/// Asks the service whether it has the object.
fn ask_one<W: Work + Drop, K: Keeper + Drop, L: Link<FoldClosed> + Drop>(
    alloc: Global,
    desk: &mut Desk<W, K, L>,
    service: ServiceId,
    generation: u32,
    name: &Name,
) -> Result<Result<bool, Miss>, NoMemory>
    requires desk { IsDesk (desk_view W.sees K.sees L.sees desk.old) }
    requires service { service.0 < desk.old.services }
    ensures { AsksOne (desk_view W.sees K.sees L.sees desk.old) (desk_view W.sees K.sees L.sees desk.new) service generation name.now result }
{
    desks_lay();
    let answer = has_noted(alloc, desk, service, generation, name);
    desk.pass.recall();
    answer
}

/// Puts the object, which is not there.
fn put_there<W: Work + Drop, K: Keeper + Drop, L: Link<FoldClosed> + Drop>(
    alloc: Global,
    desk: &mut Desk<W, K, L>,
    service: ServiceId,
    generation: u32,
    name: &Name,
    text: &[u8],
) -> Result<Met, NoMemory>
    requires desk { IsDesk (desk_view W.sees K.sees L.sees desk.old) }
    requires service { service.0 < desk.old.services }
    requires short { length text.now ≤ OBJECT_BYTES }
    requires named { name.now.0 ≡ sha_name text.now }
    ensures { PutsThere (desk_view W.sees K.sees L.sees desk.old) (desk_view W.sees K.sees L.sees desk.new) service generation name.now result }
{
    desks_lay();
    let answer = put_noted(alloc, desk, service, generation, name, text);
    desk.pass.recall();
    match answer {
        Ok(answer) => Ok(met_by(answer)),
        Err(error) => Err(error),
    }
}

/// How the service met what was put.
fn met_by(answer: Result<(), Miss>) -> Met
    ensures { result ≡ put_met_by answer }
{
    match answer {
        Ok(()) => Met::Taken,
        Err(Miss::Failed) => Met::PutFailed,
        Err(Miss::Stale { floor }) => Met::PutStale { floor },
    }
}
