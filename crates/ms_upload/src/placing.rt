//! Placing one object: the services of its order are visited until enough have accepted it.

ghost use Rattle.std.specs.Prelude.{◌≡◌, ◌<◌, ◌≤◌, ◌+◌, length};
ghost use Rattle.std.specs.List.Sorted.{IsPermutation};
ghost use Rattle.ms_base.specs.declared.limits.TheConstants.{OBJECT_BYTES};
ghost use Rattle.ms_object.specs.Objects.{name_of as sha_name};
ghost use Rattle.ms_local.specs.Desks.{IsDesk, desk_view};
ghost use Rattle.ms_plan.specs.Mapping.{order_of, services_of};
ghost use Rattle.ms_upload.specs.declared.placing.End.TheVariants as ends;
ghost use Rattle.ms_upload.specs.Jobs.{AreBelow, EndsBy, PlacesOne};

use crate::tally::{Tally, floor_of};
use crate::visit::visit;
use ms_base::{Name, NoMemory, ServiceId};
use ms_core::FoldClosed;
use ms_link::Link;
use ms_local::{Desk, Keeper, Work, desks_lay};
use ms_record::{Plan, ServiceSet};
use std::alloc::Global;

/// How the placing of an object ended.
#[derive(Clone, Copy)]
pub(crate) enum End {
    /// As many services accepted it as the plan has replicas: so many had it, so many took it.
    Done { present: u32, puts: u32 },
    /// A service has dropped what lies below this floor, and the plan's generation with it.
    Stale { floor: u32 },
    /// Too few of the plan's services accepted it; the links to these failed.
    TooFew { failed: ServiceSet },
}

/// Visits the services of the object's order until as many have accepted it as the plan has replicas.
pub(crate) fn place_one<W: Work + Drop, K: Keeper + Drop, L: Link<FoldClosed> + Drop>(
    alloc: Global,
    desk: &mut Desk<W, K, L>,
    plan: &Plan,
    order: &[ServiceId],
    name: &Name,
    text: &[u8],
) -> Result<End, NoMemory>
    requires desk { IsDesk (desk_view W.sees K.sees L.sees desk.old) }
    requires order { order.now ≡ order_of plan.now name.now }
    requires all { length order.now ≡ length plan.now.rows }
    requires services { IsPermutation (services_of plan.now) order.now }
    requires known { AreBelow plan.now desk.old.services }
    requires short { length text.now ≤ OBJECT_BYTES }
    requires named { name.now.0 ≡ sha_name text.now }
    ensures { PlacesOne plan.now name.now (desk_view W.sees K.sees L.sees desk.old) (desk_view W.sees K.sees L.sees desk.new) result }
{
    desks_lay();
    let _rows = plan.rows();
    let replicas = plan.replicas();
    let mut tally = Tally::new();
    for service in order {
        if tally.present + tally.puts == replicas {
            return Ok(done(&tally));
        }
        let met = match visit(alloc, desk, *service, plan.generation(), name, text) {
            Ok(met) => met,
            Err(error) => return Err(error),
        };
        match floor_of(met) {
            Some(floor) => return Ok(End::Stale { floor }),
            None => tally.note(*service, met),
        }
    }
    Ok(end_of(&tally, replicas))
}

/// All services were visited.
fn end_of(tally: &Tally, replicas: u32) -> End
    requires few { tally.now.present + tally.now.puts ≤ replicas }
    ensures { EndsBy tally.now replicas result }
{
    if tally.present + tally.puts == replicas {
        done(tally)
    } else {
        End::TooFew {
            failed: tally.failed.services(),
        }
    }
}

/// Enough services accepted it.
fn done(tally: &Tally) -> End
    ensures { result ≡ ends.Done tally.now.present tally.now.puts }
{
    End::Done {
        present: tally.present,
        puts: tally.puts,
    }
}
