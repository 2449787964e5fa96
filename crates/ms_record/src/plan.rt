//! Plans: which services hold the objects, and how many copies of each.

ghost use Rattle.std.specs.Prelude.{◌≡◌, ◌<◌, ◌≤◌, ◌^◌, ℕ, Some, IfSome};
ghost use Rattle.std.specs.Bool.{OnTrue};
ghost use Rattle.ms_record.specs.Plans.{IsPlan, PlanView, plan_of};
ghost use Rattle.ms_record.specs.PlanTests.{AreCapacities, are_rows as are_rows_from, is_plan, is_row as is_row_from, plan_if};
ghost use Rattle.ms_record.specs.Settings.{IsFirstPlan, even_plan};

use ms_base::ServiceId;
use ms_base::limits::{COPIES, LAST_NUMBER, SERVICES};
use std::marker::Model;

/// A service and its capacity in bytes.
#[derive(Clone, Copy, Debug, PartialEq, Eq)]
pub struct PlanRow {
    pub service: ServiceId,
    pub capacity: u64,
}

/// How objects are spread from an entry on. It keeps the plan rules of `docs/FORMATS.md`.
#[derive(Clone, Copy, Debug, PartialEq, Eq)]
pub struct Plan {
    generation: u32,
    format: u32,
    replicas: u32,
    unit: u64,
    rows: [PlanRow; MOST_ROWS],
    count: usize,
}

impl Model for Plan {
    ghost use Rattle.ms_record.specs.Plans.{PlanView};

    ghost Value = { PlanView };

    ghost use Rattle.ms_record.specs.PlanInside.{seen, IsKept, fields_of, fields_back};

    ghost view = { seen };

    ghost invariant = { IsKept };

    ghost inverse = { fields_of };

    ghost inverse_ok = { fields_back };
}

/// The greatest number of rows.
pub(crate) const MOST_ROWS: usize = SERVICES as usize;

/// The last format.
pub const LAST_FORMAT: u32 = 2;

/// Stands at the places of a plan that have no row.
pub(crate) const NO_ROW: PlanRow = PlanRow {
    service: ServiceId(0),
    capacity: 0,
};

impl Plan {
    /// The plan of these values, where they keep the plan rules.
    pub fn new(
        generation: u32,
        format: u32,
        replicas: u32,
        unit: u64,
        rows: &[PlanRow],
    ) -> Option<Plan>
        ensures found { IfSome result (λ p. (p ≡ plan_of generation format replicas unit rows.now) × IsPlan p) }
        ensures only { IsPlan (plan_of generation format replicas unit rows.now) → result ≡ Some (plan_of generation format replicas unit rows.now) }
        ensures exact { result ≡ plan_if (plan_of generation format replicas unit rows.now) }
    {
        if !keeps_rules(generation, format, replicas, unit, rows) {
            return None;
        }
        let mut all = [NO_ROW; MOST_ROWS];
        all[..rows.len()].copy_from_slice(rows);
        Some(Plan {
            generation,
            format,
            replicas,
            unit,
            rows: all,
            count: rows.len(),
        })
    }

    /// The first plan over so many services, each with a capacity of one copy.
    pub fn even(services: u32, replicas: u32) -> Plan
        requires some_services { 1 ≤ services }
        requires few_services { services ≤ SERVICES }
        requires some_replicas { 1 ≤ replicas }
        requires few_replicas { replicas ≤ services }
        ensures is { result ≡ even_plan services replicas }
        ensures rules { IsPlan result }
        ensures first { IsFirstPlan services result }
    {
        let mut rows = [NO_ROW; MOST_ROWS];
        for i in 0..MOST_ROWS {
            rows[i] = PlanRow {
                service: ServiceId(i as u32),
                capacity: 1,
            };
        }
        match Plan::new(1, 1, replicas, 1, &rows[..services as usize]) {
            Some(plan) => plan,
            None => unreachable!(),
        }
    }

    /// The generation in which the objects lie, from 1 to 4,294,967,294.
    pub fn generation(&self) -> u32
        ensures { result ≡ self.now.generation }
    {
        self.generation
    }

    /// How objects are written, 1 or 2.
    pub fn format(&self) -> u32
        ensures { result ≡ self.now.format }
    {
        self.format
    }

    /// On how many services each object is to lie, from 1 to the number of rows.
    pub fn replicas(&self) -> u32
        ensures { result ≡ self.now.replicas }
    {
        self.replicas
    }

    /// How many bytes of capacity one copy of a service stands for, at least 1.
    pub fn unit(&self) -> u64
        ensures { result ≡ self.now.unit }
    {
        self.unit
    }

    /// The services, rising, with their capacities; 1 to 16 of them.
    pub fn rows(&self) -> &[PlanRow]
        ensures rows { result.now ≡ self.now.rows }
        ensures rules { IsPlan self.now }
    {
        &self.rows[..self.count]
    }
}

/// A law: the test of the plan rules passes what keeps them, and nothing else.
pub fn rules_are_tested()
    ensures passed { (plan given : PlanView) → plan.unit < 2 ^ 64 → AreCapacities plan.rows → plan_if plan ≡ Some given → (plan ≡ given) × IsPlan plan }
    ensures passes { (plan : PlanView) → IsPlan plan → plan_if plan ≡ Some plan }
{}

/// Whether these values keep the plan rules.
#[tactic(auto, unfolding(crate::specs::PlanTests::is_plan))]
fn keeps_rules(generation: u32, format: u32, replicas: u32, unit: u64, rows: &[PlanRow]) -> bool
    ensures test { result ≡ is_plan (plan_of generation format replicas unit rows.now) }
    ensures rules { OnTrue result (IsPlan (plan_of generation format replicas unit rows.now)) }
{
    generation >= 1
        && generation <= LAST_NUMBER
        && format >= 1
        && format <= LAST_FORMAT
        && unit >= 1
        && !rows.is_empty()
        && rows.len() <= MOST_ROWS
        && replicas >= 1
        && replicas as usize <= rows.len()
        && are_rows(rows, unit)
}

/// Whether the services rise, are below 16, and have 1 to 16 copies each.
fn are_rows(rows: &[PlanRow], unit: u64) -> bool
    requires { 0 < unit }
    ensures test { result ≡ are_rows_from unit 0 rows.now }
    ensures fits { OnTrue result (AreCapacities rows.now) }
{
    let mut low = 0;
    for row in rows {
        if row.service.0 < low || !is_row(row, unit) {
            return false;
        }
        low = row.service.0 + 1;
    }
    true
}

/// Whether the service is below 16 and has 1 to 16 copies.
fn is_row(row: &PlanRow, unit: u64) -> bool
    requires { 0 < unit }
    ensures test { result ≡ is_row_from unit row.now }
    ensures service { OnTrue result (row.now.service.0 < SERVICES) }
    ensures fits { row.now.capacity < 2 ^ 64 }
{
    let copies = row.capacity / unit;
    row.service.0 < SERVICES && copies >= 1 && copies <= COPIES
}
