//! The members of a chain, and who votes behind them.

ghost use Rattle.std.specs.Prelude.{◌≡◌, ◌↔◌, ◌*◌, ◌==◌, ◌<◌, ◌≤◌, ◌++◌, ◌∷◌, [], ℕ, Contains, IfOk, IsTrue, OnOk, OnErr, count_by, length, option_copied, slice_get, take};
ghost use Rattle.std.specs.List.{list_any};
ghost use Rattle.ms_base.specs.declared.limits.TheConstants.{LAST_NUMBER};
ghost use Rattle.ms_local.specs.Learning.{HasHalf};
ghost use Rattle.ms_record.specs.Chains.{LinksBehind, plan_in, voters_behind, voters_of};
ghost use Rattle.ms_chain.specs.LineInside.{IsPlaceAfter};
ghost use Rattle.ms_record.specs.Settings.{IsSetting, genesis_plan, origin_of};

use ms_base::{Name, NoMemory, ServiceId};
use ms_record::{Entry, Plan, ServiceSet, Setting, entry_name, links_on};
use std::alloc::Global;
use std::marker::Model;

/// The members behind the genesis of a setting, each of which links on to those before it.
#[derive(Drop)]
pub struct Line {
    setting: Setting,
    members: Vec<Entry>,
    last: Name,
    /// The plans that were in force, first that of the genesis.
    plans: Vec<Plan>,
    /// For each number of members, from none to all, the place of the plan in force behind so many.
    in_force: Vec<u32>,
}

impl Model for Line {
    ghost use Rattle.ms_chain.specs.Lines.{LineView};

    ghost Value = { LineView };

    ghost use Rattle.ms_chain.specs.LineInside.{view_of, IsKept};

    ghost view = { view_of };

    ghost invariant = { IsKept };
}

impl Line {
    /// The genesis alone.
    pub fn new(alloc: Global, setting: &Setting) -> Result<Line, NoMemory>
        requires { IsSetting setting.now }
        ensures { IfOk result (λ l. l ≡ record { setting = setting.now; members = [] }) }
    {
        let plan = match &setting.genesis.plan {
            Some(plan) => *plan,
            None => unreachable!(),
        };
        let mut plans = Vec::new(alloc);
        plans.push(plan)?;
        let mut in_force = Vec::new(alloc);
        in_force.push(0)?;
        Ok(Line {
            setting: *setting,
            members: Vec::new(alloc),
            last: entry_name(&setting.genesis),
            plans,
            in_force,
        })
    }

    /// How many members there are behind the genesis.
    pub fn end(&self) -> u32
        ensures count { result ≡ length self.now.members }
        ensures few { result ≤ LAST_NUMBER }
    {
        self.members.len() as u32
    }

    pub fn setting(&self) -> &Setting
        ensures setting { result.now ≡ self.now.setting }
        ensures rules { IsSetting self.now.setting }
    {
        &self.setting
    }

    /// The member at that place behind the genesis.
    pub fn member(&self, place: u32) -> Option<&Entry>
        ensures { option_copied result ≡ slice_get self.now.members place }
    {
        self.members.as_slice().get(place as usize)
    }

    /// The plan in force behind so many members.
    pub fn plan_behind(&self, members: u32) -> &Plan
        requires { members ≤ length self.now.members }
        ensures is { result.now ≡ plan_in (genesis_plan self.now.setting) (take members self.now.members) }
        ensures below { (s : ℕ) → Contains (voters_of result.now) s → s < self.now.setting.services }
    {
        &self.plans[self.in_force[members as usize] as usize]
    }

    /// Who votes behind so many members.
    pub fn voters_behind(&self, members: u32) -> ServiceSet
        requires { members ≤ length self.now.members }
        ensures are { result ≡ voters_behind (origin_of self.now.setting) (take members self.now.members) }
        ensures some { 1 ≤ length result }
        ensures below { (s : ℕ) → Contains result s → s < self.now.setting.services }
    {
        ServiceSet::of_plan(self.plan_behind(members))
    }

    /// Whether the entry links on to the members.
    pub fn links(&self, entry: &Entry) -> bool
        ensures { IsTrue result ↔ LinksBehind (origin_of self.now.setting) self.now.members entry.now }
    {
        let plan = self.plan_behind(self.end());
        links_on(
            &self.last,
            plan.generation(),
            plan.format(),
            self.setting.services,
            entry,
        )
    }

    /// Goes on by an entry that links on. Refused, it changes nothing.
    pub fn push(&mut self, entry: &Entry) -> Result<(), NoMemory>
        requires room { length self.old.members < LAST_NUMBER }
        requires links { LinksBehind (origin_of self.old.setting) self.old.members entry.now }
        ensures ok { OnOk result (self.new ≡ record self.old { members = self.old.members ++ entry.now ∷ [] }) }
        ensures err { OnErr result (self.new ≡ self.old) }
    {
        self.members.reserve(1)?;
        self.in_force.reserve(1)?;
        let before = self.in_force[self.members.len()];
        let place = place_after(&mut self.plans, before, &entry.plan)?;
        self.members.push_reserved(*entry);
        self.in_force.push_reserved(place);
        self.last = entry_name(entry);
        Ok(())
    }

    /// Whether behind some members, from none to all, half of the voters or more are among these services.
    pub fn lacks(&self, failed: &ServiceSet) -> bool
        ensures yes { IsTrue result → (n : ℕ) × (n ≤ length self.now.members) × HasHalf failed.now (voters_behind (origin_of self.now.setting) (take n self.now.members)) }
        ensures no { (n : ℕ) → n ≤ length self.now.members → HasHalf failed.now (voters_behind (origin_of self.now.setting) (take n self.now.members)) → IsTrue result }
    {
        for plan in self.plans.as_slice() {
            if has_half(&ServiceSet::of_plan(plan), failed) {
                return true;
            }
        }
        false
    }
}

/// The place of the plan in force behind a member, which has this plan or none: that plan is put at the end of the plans.
fn place_after(plans: &mut Vec<Plan>, before: u32, plan: &Option<Plan>) -> Result<u32, NoMemory>
    requires { length plans.old.items ≤ LAST_NUMBER }
    ensures ok { IfOk result (IsPlaceAfter plans.old.items before plan.now plans.new.items) }
    ensures err { OnErr result (plans.new.items ≡ plans.old.items) }
{
    let Some(plan) = plan else {
        return Ok(before);
    };
    let place = plans.len() as u32;
    plans.push(*plan)?;
    Ok(place)
}

/// Whether half of the voters or more are among these services.
pub(crate) fn has_half(voters: &ServiceSet, failed: &ServiceSet) -> bool
    ensures { IsTrue result ↔ HasHalf failed.now voters.now }
{
    voters.len() <= 2 * count_among(voters, failed)
}

/// How many voters are among these services.
fn count_among(voters: &ServiceSet, failed: &ServiceSet) -> usize
    ensures is { result ≡ count_by (λ v. list_any (λ s. s == v) failed.now) voters.now }
    ensures few { result ≤ 16 }
{
    let mut count = 0;
    for voter in voters.as_slice() {
        if is_among(failed, *voter) {
            count += 1;
        }
    }
    count
}

fn is_among(services: &ServiceSet, service: ServiceId) -> bool
    ensures { result ≡ list_any (λ s. s == service.0) services.now }
{
    services.has(service)
}
