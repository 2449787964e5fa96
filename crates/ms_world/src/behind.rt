//! What stands behind a client's chain.

ghost use Rattle.std.specs.Prelude.{◌≡◌, ◌≤◌};
ghost use Rattle.ms_world.specs.Steps.{in_format, planned, pushed, turn_plan, version_of};
ghost use Rattle.ms_world.specs.Worlds.{last_of, plan_of_client};
ghost use Rattle.ms_record.specs.Chains.{plan_after, plan_in};
ghost use Rattle.ms_record.specs.Settings.{IsSetting, genesis_plan};

use crate::client::Client;
use crate::event::Push;
use ms_base::{ClientId, Name};
use ms_record::{Entry, Plan, Setting, entry_name};

impl Client {
    /// The plan in force behind its chain.
    pub(crate) fn plan(&self, setting: &Setting) -> Plan
        requires { IsSetting setting.now }
        ensures { result ≡ plan_of_client setting.now self.now }
    {
        plan_behind(genesis_plan(setting), &self.chain)
    }

    /// The plan of a turn, in the format in force behind its chain.
    pub(crate) fn turn_plan(&self, setting: &Setting, plan: &Plan) -> Plan
        requires { IsSetting setting.now }
        ensures { result ≡ turn_plan setting.now self.now plan.now }
    {
        let now = self.plan(setting);
        let _ = now.rows();
        in_format(plan, now.format())
    }

    /// The name of the last member of its chain, and of the genesis where there is none.
    pub(crate) fn last_name(&self, setting: &Setting) -> Name
        ensures { result.0 ≡ last_of setting.now self.now }
    {
        match self.chain.last() {
            Some(entry) => entry_name(entry),
            None => entry_name(&setting.genesis),
        }
    }

    /// The version of the last member of its chain, and of the genesis where there is none.
    pub(crate) fn version(&self, setting: &Setting) -> Name
        ensures { result ≡ version_of setting.now self.now }
    {
        match self.chain.last() {
            Some(entry) => entry.version,
            None => setting.genesis.version,
        }
    }

    /// The entry of a push behind its chain; a settling bid has none.
    pub(crate) fn pushed(
        &self,
        setting: &Setting,
        client: ClientId,
        want: Option<Push>,
    ) -> Option<Entry>
        ensures { result ≡ pushed setting.now self.now client.0 want }
    {
        let push = want?;
        Some(Entry {
            before: self.last_name(setting),
            client,
            number: push.number,
            version: push.version,
            plan: None,
        })
    }

    /// The plan entry of a version behind its chain.
    pub(crate) fn planned(
        &self,
        setting: &Setting,
        client: ClientId,
        number: u32,
        version: Name,
        plan: &Plan,
    ) -> Entry
        ensures { result ≡ planned setting.now self.now client.0 number version plan.now }
    {
        Entry {
            before: self.last_name(setting),
            client,
            number,
            version,
            plan: Some(*plan),
        }
    }
}

/// The plan of the genesis.
pub(crate) fn genesis_plan(setting: &Setting) -> Plan
    requires { IsSetting setting.now }
    ensures { result ≡ genesis_plan setting.now }
{
    match setting.genesis.plan {
        Some(plan) => plan,
        None => unreachable!(),
    }
}

/// The plan in force behind the members: the last plan, and the first one where there is none.
pub(crate) fn plan_behind(first: Plan, members: &[Entry]) -> Plan
    ensures { result ≡ plan_in first members.now }
{
    let mut plan = first;
    for entry in members {
        plan = plan_with(plan, entry);
    }
    plan
}

/// The plan in force behind an entry, where this was it before.
pub(crate) fn plan_with(before: Plan, entry: &Entry) -> Plan
    ensures { result ≡ plan_after before entry.now.plan }
{
    match entry.plan {
        Some(plan) => plan,
        None => before,
    }
}

/// The plan, with objects in this format.
pub(crate) fn in_format(plan: &Plan, format: u32) -> Plan
    requires some { 1 ≤ format }
    requires last { format ≤ 2 }
    ensures { result ≡ in_format format plan.now }
{
    let rows = plan.rows();
    match Plan::new(
        plan.generation(),
        format,
        plan.replicas(),
        plan.unit(),
        rows,
    ) {
        Some(plan) => plan,
        None => unreachable!(),
    }
}
