//! The mapping: in which order the services of a plan are to hold an object.

ghost use Rattle.std.specs.Prelude.{◌≡◌, ◌≢◌, ◌+◌, ◌≤◌, ℕ, List, Contains, map, length, IfOk};
ghost use Rattle.std.specs.List.Sorted.{IsPermutation, IsSorted};
ghost use Rattle.ms_base.specs.declared.names.Name.{Name};
ghost use Rattle.ms_base.specs.declared.names.ServiceId.{ServiceId};
ghost use Rattle.ms_record.specs.Plans.{PlanView, IsPlan};
ghost use Rattle.ms_plan.specs.Mapping.{ServiceCopy, IsWithout, copies_in, compare_at, sorted, without, firsts, order_at, order_of, places_of, services_of, slot_of};

mod copies;

use copies::Scratch;
use ms_base::{Name, NoMemory, ServiceId};
use ms_record::Plan;
use std::alloc::Global;
use std::marker::Model;

/// How many slots there are. Objects of one slot have the same order.
pub const SLOTS: u32 = 1024;

/// The orders of a plan's services in all slots, as `docs/PROTOCOL.md`, "Mapping", fixes them.
#[derive(Drop)]
pub struct Table {
    plan: Plan,
    orders: Vec<ServiceId>,
}

impl Model for Table {
    ghost use Rattle.ms_record.specs.Plans.{PlanView};

    ghost Value = { PlanView };

    ghost use Rattle.ms_plan.specs.TableInside.{IsTable};

    ghost view = { λ t. t.plan };

    ghost invariant = { IsTable };
}

impl Table {
    /// Sorts the copies of the plan's services once for each slot.
    pub fn new(alloc: Global, plan: &Plan) -> Result<Table, NoMemory>
        ensures { IfOk result (λ table. table ≡ plan.now) }
    {
        let mut orders = Vec::with_capacity(alloc, SLOTS as usize * plan.rows().len())?;
        let mut scratch = Scratch::new(alloc);
        for slot in 0..SLOTS {
            scratch.push_order(plan, slot, &mut orders)?;
        }
        Ok(Table {
            plan: *plan,
            orders,
        })
    }

    /// All services of the plan, each once, in the order in which they are to hold the object of that name.
    pub fn order(&self, name: &Name) -> &[ServiceId]
        ensures order { result.now ≡ order_of self.now name.now }
        ensures all { IsPermutation (services_of self.now) result.now }
        ensures length { length result.now ≡ length self.now.rows }
    {
        let services = self.plan.rows().len();
        let from = slot(name) as usize * services;
        &self.orders[from..from + services]
    }

    /// The services that are to hold the object of that name, as many as the plan has replicas.
    pub fn places(&self, name: &Name) -> &[ServiceId]
        ensures places { result.now ≡ places_of self.now name.now }
        ensures length { length result.now ≡ self.now.replicas }
    {
        &self.order(name)[..self.plan.replicas() as usize]
    }
}

/// The slot of an object, by the first two bytes of its name.
fn slot(name: &Name) -> u32
    ensures { result ≡ slot_of name.now }
{
    u32::from(u16::from_be_bytes([name.0[0], name.0[1]])) % SLOTS
}

/// An order is what is left of the sorted copies when of each service all but the first are struck out. The sorted copies are the
/// plan's copies in another order, and any list of them that is in order gives the same order of services, which has each service
/// of the plan once.
pub fn orders_are_sorted()
    ensures same { (plan : PlanView) (slot : ℕ) → IsPermutation (copies_in plan) (sorted (compare_at slot) (copies_in plan)) }
    ensures rises { (plan : PlanView) (slot : ℕ) → IsSorted (compare_at slot) (sorted (compare_at slot) (copies_in plan)) }
    ensures only { (plan : PlanView) (slot : ℕ) (copies : List ServiceCopy)
        → IsPermutation (copies_in plan) copies → IsSorted (compare_at slot) copies
        → order_at plan slot ≡ firsts (map (λ c. c.service) copies) }
    ensures all { (plan : PlanView) (name : Name) → IsPlan plan → IsPermutation (services_of plan) (order_of plan name) }
{}

/// A plan without one of the services has the same orders but for that service. So a service that goes moves no place that was not
/// on it, where the plan keeps its replicas, or loses one of an object that was on it; and one that comes takes only its own places.
pub fn stability()
    ensures order { (plan other : PlanView) (service : ServiceId) (name : Name)
        → IsWithout service plan other → order_of other name ≡ without service (order_of plan name) }
    ensures stays { (plan other : PlanView) (service place : ServiceId) (name : Name)
        → IsWithout service plan other → plan.replicas ≤ other.replicas → Contains (places_of plan name) place → place ≢ service
        → Contains (places_of other name) place }
    ensures fewer { (plan other : PlanView) (service place : ServiceId) (name : Name)
        → IsWithout service plan other → plan.replicas ≤ other.replicas + 1 → Contains (places_of plan name) service
        → Contains (places_of plan name) place → place ≢ service → Contains (places_of other name) place }
    ensures unmoved { (plan other : PlanView) (service : ServiceId) (name : Name)
        → IsWithout service plan other → other.replicas ≡ plan.replicas → ¬ Contains (places_of plan name) service
        → places_of other name ≡ places_of plan name }
{}
