//! The copies of a plan's services in one slot.

ghost use Rattle.std.specs.Prelude.{◌≡◌, ◌++◌, ◌<◌, map, IfOk, OnOk};
ghost use Rattle.md5.specs.Md5.{md5};
ghost use Rattle.ms_record.specs.Plans.{IsRow};
ghost use Rattle.ms_plan.specs.Mapping.{ServiceCopy, copies_of, copies_in, firsts, key_text, order_at};
ghost use Rattle.ms_plan.specs.TableInside.{keyed};

use md5::{Digest, Md5};
use ms_base::{NoMemory, ServiceId};
use ms_record::{Plan, PlanRow};
use std::alloc::Global;
use std::fmt::Write;

/// A copy of a service with its key in a slot. The fields stand in the order in which they count.
#[derive(Clone, Copy, PartialEq, Eq, PartialOrd, Ord)]
struct KeyedCopy {
    key: [u8; 16],
    service: ServiceId,
    copy: u32,
}

/// Memory that serves one slot after the other.
#[derive(Drop)]
pub(super) struct Scratch {
    text: String,
    copies: Vec<KeyedCopy>,
}

impl Scratch {
    pub(super) fn new(alloc: Global) -> Scratch {
        Scratch {
            text: String::new(alloc),
            copies: Vec::new(alloc),
        }
    }

    /// Puts the plan's services at the end of `orders`, in the order of the slot.
    pub(super) fn push_order(
        &mut self,
        plan: &Plan,
        slot: u32,
        orders: &mut Vec<ServiceId>,
    ) -> Result<(), NoMemory>
        ensures { OnOk result (orders.new.items ≡ orders.old.items ++ order_at plan.now slot) }
    {
        self.copies.clear();
        self.push_all(plan, slot)?;
        self.copies.sort_unstable();
        push_firsts(&self.copies, orders)
    }

    /// The copies of all services.
    fn push_all(&mut self, plan: &Plan, slot: u32) -> Result<(), NoMemory>
        ensures { OnOk result (self.new.copies.items ≡ self.old.copies.items ++ map (keyed slot) (copies_in plan.now)) }
    {
        for row in plan.rows() {
            self.push_copies(row, plan.unit(), slot)?;
        }
        Ok(())
    }

    /// The copies of one service.
    fn push_copies(&mut self, row: &PlanRow, unit: u64, slot: u32) -> Result<(), NoMemory>
        requires some_unit { 0 < unit }
        requires row { IsRow unit row.now }
        ensures { OnOk result (self.new.copies.items ≡ self.old.copies.items ++ map (keyed slot) (copies_of unit row.now)) }
    {
        let service = row.service;
        for copy in 0..(row.capacity / unit) as u32 {
            let key = self.key(slot, service, copy)?;
            self.copies.push(KeyedCopy { key, service, copy })?;
        }
        Ok(())
    }

    /// The MD5 (RFC 1321) of `slot/service/copy`.
    fn key(&mut self, slot: u32, service: ServiceId, copy: u32) -> Result<[u8; 16], NoMemory>
        ensures key { IfOk result (λ key. key ≡ md5 (key_text slot (record { service = service; copy = copy }))) }
        ensures copies { self.new.copies.items ≡ self.old.copies.items }
    {
        self.text.clear();
        if write!(self.text, "{}/{}/{}", slot, service.0, copy).is_err() {
            return Err(NoMemory);
        }
        Ok(Md5::digest(self.text.as_bytes()))
    }
}

/// Puts the first occurrence of each service at the end of `orders`.
fn push_firsts(copies: &[KeyedCopy], orders: &mut Vec<ServiceId>) -> Result<(), NoMemory>
    ensures { OnOk result (orders.new.items ≡ orders.old.items ++ firsts (map (λ c. c.service) copies.now)) }
{
    let start = orders.len();
    for copy in copies {
        if !orders[start..].contains(&copy.service) {
            orders.push(copy.service)?;
        }
    }
    Ok(())
}
