//! Placing the objects of a store.

ghost use Rattle.std.specs.Prelude.{◌≡◌, ◌≤◌, [], List, ℕ, Some, IfOk, Contains, length};
ghost use Rattle.ms_base.specs.declared.limits.TheConstants.{OBJECT_BYTES};
ghost use Rattle.ms_base.specs.declared.names.Name.{Name};
ghost use Rattle.ms_core.specs.Placing.{HoldsVersion, IsPlaced};
ghost use Rattle.ms_core.specs.Views.{log_in};
ghost use Rattle.ms_object.specs.Stores.{names_in, text_of};
ghost use Rattle.ms_local.specs.Calls.{DeskGoes};
ghost use Rattle.ms_local.specs.Desks.{IsDesk, OnTold, desk_view};
ghost use Rattle.ms_local.specs.Truths.{OwnHistory, TrueDeeds};
ghost use Rattle.ms_local.specs.Placing.{IsUnder, Placing, Purpose};
ghost use Rattle.ms_upload.specs.Jobs.{AreBelow, PlacesOne};
ghost use Rattle.ms_upload.specs.Placings.{AreOnEnough, KeepsPlacing, Places};

use crate::placing::{End, place_one};
use ms_base::{Gate, Name, NoMemory, Point};
use ms_core::FoldClosed;
use ms_link::Link;
use ms_local::{Desk, Keeper, Work, desks_lay};
use ms_object::Store;
use ms_plan::{Table, orders_are_sorted};
use ms_record::{Plan, Refusal};
use std::alloc::Global;

/// What was placed.
#[derive(Clone, Copy)]
pub struct Placed {
    /// The puts that answered.
    pub puts: u64,
    /// The questions that were answered by "it is there".
    pub present: u64,
}

/// Puts each object of the store on as many services as the plan has replicas, in the plan's generation, by the first lane: name by
/// name, and of each object service by service in its order. Who has it already counts as one that took it. `TooFew` where fewer
/// than that accepted an object and no service showed a floor; `Collected` where a service has dropped the plan's generation. What
/// was put before stays: `docs/PROTOCOL.md`, placing.
pub fn place<W: Work + Drop, K: Keeper + Drop, L: Link<FoldClosed> + Drop, G: Gate>(
    alloc: Global,
    desk: &mut Desk<W, K, L>,
    plan: &Plan,
    objects: &Store,
    gate: &G,
) -> Result<Placed, Refusal>
    requires desk { IsDesk (desk_view W.sees K.sees L.sees desk.old) }
    requires known { AreBelow plan.now desk.old.services }
    requires short { (name text : List ℕ) → text_of objects.now name ≡ Some text → length text ≤ OBJECT_BYTES }
    ensures places { Places plan.now objects.now (desk_view W.sees K.sees L.sees desk.old) (desk_view W.sees K.sees L.sees desk.new) result }
    ensures effect { DeskGoes (desk_view W.sees K.sees L.sees desk.old) (desk_view W.sees K.sees L.sees desk.new) }
    ensures truths { TrueDeeds (desk_view W.sees K.sees L.sees desk.old) (desk_view W.sees K.sees L.sees desk.new) }
    ensures history { OwnHistory (desk_view W.sees K.sees L.sees desk.old) (desk_view W.sees K.sees L.sees desk.new) }
    ensures desk { IsDesk (desk_view W.sees K.sees L.sees desk.new) }
    ensures enough { OnTold (desk_view W.sees K.sees L.sees desk.old) (IfOk result (λ placed. AreOnEnough plan.now objects.now (desk_view W.sees K.sees L.sees desk.new))) }
    ensures placed { (version : Name) → HoldsVersion plan.now.format (text_of objects.now) version
        → OnTold (desk_view W.sees K.sees L.sees desk.old) (IfOk result (λ placed. IsPlaced (log_in desk.new.pass.lists) plan.now version)) }
    ensures placing_rule { (s : Placing) (rest : List Purpose) → s.asked ≡ [] → IsUnder s plan.now rest
        → KeepsPlacing plan.now objects.now (desk_view W.sees K.sees L.sees desk.old) (desk_view W.sees K.sees L.sees desk.new) s rest result }
{
    objects.shows();
    orders_are_sorted();
    let _rows = plan.rows();
    place_all(alloc, desk, plan, objects, gate)
}

/// The same, without what it comes to.
fn place_all<W: Work + Drop, K: Keeper + Drop, L: Link<FoldClosed> + Drop, G: Gate>(
    alloc: Global,
    desk: &mut Desk<W, K, L>,
    plan: &Plan,
    objects: &Store,
    gate: &G,
) -> Result<Placed, Refusal>
    requires desk { IsDesk (desk_view W.sees K.sees L.sees desk.old) }
    requires known { AreBelow plan.now desk.old.services }
    requires short { (name text : List ℕ) → text_of objects.now name ≡ Some text → length text ≤ OBJECT_BYTES }
    ensures { Places plan.now objects.now (desk_view W.sees K.sees L.sees desk.old) (desk_view W.sees K.sees L.sees desk.new) result }
{
    desks_lay();
    let table = match Table::new(alloc, plan) {
        Ok(table) => table,
        Err(_) => return Err(Refusal::NoMemory),
    };
    let names = match objects.names(alloc) {
        Ok(names) => names,
        Err(_) => return Err(Refusal::NoMemory),
    };
    let mut placed = Placed {
        puts: 0,
        present: 0,
    };
    let names = names.as_slice();
    for place in 0..names.len() {
        gate.reach(Point::Drawn {
            lane: 0,
            job: place as u64,
        });
        let name = names[place];
        let end = match place_next(alloc, desk, plan, &table, objects, &name) {
            Ok(end) => end,
            Err(_) => return Err(Refusal::NoMemory),
        };
        let _deeds = desk.deeds.len();
        match end {
            End::Done { present, puts } => {
                placed.present += present as u64;
                placed.puts += puts as u64;
            }
            End::Stale { floor } => return Err(Refusal::Collected { floor }),
            End::TooFew { failed } => return Err(Refusal::TooFew { name, failed }),
        }
    }
    Ok(placed)
}

/// Places the object of this name.
fn place_next<W: Work + Drop, K: Keeper + Drop, L: Link<FoldClosed> + Drop>(
    alloc: Global,
    desk: &mut Desk<W, K, L>,
    plan: &Plan,
    table: &Table,
    objects: &Store,
    name: &Name,
) -> Result<End, NoMemory>
    requires desk { IsDesk (desk_view W.sees K.sees L.sees desk.old) }
    requires table { table.now ≡ plan.now }
    requires known { AreBelow plan.now desk.old.services }
    requires short { (name text : List ℕ) → text_of objects.now name ≡ Some text → length text ≤ OBJECT_BYTES }
    requires there { Contains (names_in objects.now) name.now }
    ensures { PlacesOne plan.now name.now (desk_view W.sees K.sees L.sees desk.old) (desk_view W.sees K.sees L.sees desk.new) result }
{
    objects.shows();
    match objects.get(name) {
        Some(text) => place_one(alloc, desk, plan, table.order(name), name, text),
        None => unreachable!(),
    }
}
