//! Fetching one object.

ghost use Rattle.ms_local.specs.Calls.{DeskGoes};
ghost use Rattle.ms_local.specs.Desks.{IsDesk, desk_view};
ghost use Rattle.ms_local.specs.Truths.{OwnHistory, TrueDeeds};
ghost use Rattle.ms_fetch.specs.Fetching.{AreBelow, Differ, Fetches};

use crate::ask::ask_one;
use crate::asked::Asked;
use ms_base::{Bytes, Name, ServiceId};
use ms_core::FoldClosed;
use ms_link::Link;
use ms_local::{Desk, Keeper, Work, desks_go_on, desks_lay};
use ms_record::Refusal;
use std::alloc::Global;

/// The bytes of this name: the services of the order are asked for them in the generation, by the first lane, until one gives bytes
/// whose SHA-256 is the name. Else `Collected` with the greatest floor that a service showed, and where none showed one `LostObject`
/// with a reason for each service: `docs/PROTOCOL.md`, reading.
pub fn fetch_object<W: Work + Drop, K: Keeper + Drop, L: Link<FoldClosed> + Drop>(
    alloc: Global,
    desk: &mut Desk<W, K, L>,
    generation: u32,
    order: &[ServiceId],
    name: &Name,
) -> Result<Bytes, Refusal>
    requires desk { IsDesk (desk_view W.sees K.sees L.sees desk.old) }
    requires known { AreBelow order.now desk.old.services }
    requires differ { Differ order.now }
    ensures fetches { Fetches generation order.now name.now (desk_view W.sees K.sees L.sees desk.old) (desk_view W.sees K.sees L.sees desk.new) result }
    ensures effect { DeskGoes (desk_view W.sees K.sees L.sees desk.old) (desk_view W.sees K.sees L.sees desk.new) }
    ensures truths { TrueDeeds (desk_view W.sees K.sees L.sees desk.old) (desk_view W.sees K.sees L.sees desk.new) }
    ensures history { OwnHistory (desk_view W.sees K.sees L.sees desk.old) (desk_view W.sees K.sees L.sees desk.new) }
    ensures desk { IsDesk (desk_view W.sees K.sees L.sees desk.new) }
{
    ask_all(alloc, desk, generation, order, name)
}

/// The same, without what it comes to.
fn ask_all<W: Work + Drop, K: Keeper + Drop, L: Link<FoldClosed> + Drop>(
    alloc: Global,
    desk: &mut Desk<W, K, L>,
    generation: u32,
    order: &[ServiceId],
    name: &Name,
) -> Result<Bytes, Refusal>
    requires desk { IsDesk (desk_view W.sees K.sees L.sees desk.old) }
    requires known { AreBelow order.now desk.old.services }
    requires differ { Differ order.now }
    ensures { Fetches generation order.now name.now (desk_view W.sees K.sees L.sees desk.old) (desk_view W.sees K.sees L.sees desk.new) result }
{
    desks_lay();
    desks_go_on();
    let mut asked = Asked::new(alloc);
    for service in order {
        let answer = ask_one(alloc, desk, generation, name, *service)?;
        match answer {
            Ok(text) => return Ok(text),
            Err(lack) => asked.note(*service, lack)?,
        }
    }
    Err(asked.refusal(name))
}
