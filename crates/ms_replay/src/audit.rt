//! The agreed chain of a dump, or where it is split.

ghost use Rattle.std.specs.Prelude.{◌≡◌, ◌≤◌, ◌<◌, ℕ, List, Contains, IfOk, OnOk, length};
ghost use Rattle.ms_record.specs.declared.record.Record.{Record};
ghost use Rattle.ms_record.specs.Chains.{plan_after, voters_of};
ghost use Rattle.ms_record.specs.Entries.{name_of};
ghost use Rattle.ms_record.specs.Votes.{services_below};
ghost use Rattle.ms_replay.specs.Audits.{AuditsLists, IsAudit, origin_of};
ghost use Rattle.ms_replay.specs.Standings.{IsStanding};
ghost use Rattle.ms_replay.specs.Steps.{GoesOnBy, IsMemberOrEnd, IsNextBy, IsNextOf, OnMember};
ghost use Rattle.ms_replay.specs.Tallies.{IsTallyOf};
ghost use Rattle.ms_replay.specs.declared.audit.Audit.TheVariants as audits;

use crate::dump::Dump;
use crate::standing::Standing;
use crate::tally::Tally;
use ms_base::{Name, NoMemory};
use ms_record::law::one_chain;
use ms_record::{Entries, Entry, Plan, ServiceSet, entry_name, links_on};
use std::alloc::Global;

/// What the lists of a dump show.
#[derive(Drop)]
pub enum Audit {
    /// The agreed chain without the genesis, in order.
    Linked {
        entries: Entries,
    },
    /// Two entries of these names are chosen at the position.
    Split {
        position: u32,
        first: Name,
        second: Name,
    },
}

/// The agreed chain of a dump, or the least position at which two entries are chosen.
pub fn audit_dump(alloc: Global, dump: &Dump) -> Result<Audit, NoMemory>
    requires lists { length dump.now.lists ≡ dump.now.services }
    requires some { 1 ≤ dump.now.services }
    requires few { dump.now.services ≤ 16 }
    ensures { IfOk result (IsAudit dump.now) }
{
    let tally = Tally::of_lists(alloc, dump.services, dump.lists.as_slice())?;
    audit_tally(alloc, &tally, dump.genesis)
}

/// As `audit_dump`, of lists that are read.
fn audit_tally(alloc: Global, tally: &Tally, genesis: Name) -> Result<Audit, NoMemory>
    requires some { 1 ≤ tally.now.services }
    requires few { tally.now.services ≤ 16 }
    ensures { (lists : ℕ → List Record) → IsTallyOf lists tally.now → IfOk result (AuditsLists lists (origin_of genesis.0 tally.now.services)) }
{
    one_chain();
    let mut made = Made {
        entries: Entries::new(alloc),
        last: genesis,
        plan: Plan::even(tally.services(), 1),
    };
    for position in 1..u32::MAX {
        match next_of(tally, &made, position) {
            Next::Member { entry } => made.take(&entry)?,
            Next::End => {
                return Ok(Audit::Linked {
                    entries: made.entries,
                });
            }
            Next::Split { first, second } => return Ok(split(position, &first, &second)),
        }
    }
    Ok(Audit::Linked {
        entries: made.entries,
    })
}

/// A chain that is being made: its members behind the genesis, the name of the last and the plan in force.
#[derive(Drop)]
pub struct Made {
    pub entries: Entries,
    pub last: Name,
    pub plan: Plan,
}

/// What stands at the next position.
#[derive(Clone, Copy)]
pub enum Next {
    /// The one entry that is chosen there links on.
    Member { entry: Entry },
    /// None does.
    End,
    /// Two are chosen.
    Split { first: Entry, second: Entry },
}

/// What stands at the next position, by the votes of the services of the plan in force.
#[tactic(auto, using(crate::proofs::Linking::next_is, crate::proofs::Linking::on_member))]
fn next_of(tally: &Tally, made: &Made, position: u32) -> Next
    requires known { (s : ℕ) → Contains (voters_of made.now.plan) s → s < tally.now.services }
    ensures links { OnMember made.now tally.now.services result }
    ensures is { (lists : ℕ → List Record) → IsTallyOf lists tally.now → IsNextOf lists tally.now.services made.now position result }
{
    next_by(
        tally.services(),
        made,
        standing_behind(tally, made, position),
    )
}

/// What the lists show at the position, where the services of the plan in force vote.
fn standing_behind(tally: &Tally, made: &Made, position: u32) -> Standing
    requires known { (s : ℕ) → Contains (voters_of made.now.plan) s → s < tally.now.services }
    ensures { (lists : ℕ → List Record) → IsTallyOf lists tally.now
        → IsStanding lists (services_below tally.now.services) (voters_of made.now.plan) position result }
{
    tally.chosen(position, &ServiceSet::of_plan(&made.plan))
}

/// The one chosen entry where it links on, the two of a split, or the end.
fn next_by(services: u32, made: &Made, standing: Standing) -> Next
    ensures { IsNextBy services made.now standing result }
{
    match standing {
        Standing::Chosen { entry } => member_or_end(services, made, entry),
        Standing::Split { first, second } => Next::Split { first, second },
        _ => Next::End,
    }
}

/// The entry, where it links on.
fn member_or_end(services: u32, made: &Made, entry: Entry) -> Next
    ensures { IsMemberOrEnd services made.now entry result }
{
    let generation = made.plan.generation();
    let format = made.plan.format();
    if links_on(&made.last, generation, format, services, &entry) {
        Next::Member { entry }
    } else {
        Next::End
    }
}

/// Two chosen entries, by their names.
fn split(position: u32, first: &Entry, second: &Entry) -> Audit
    ensures { result ≡ audits.Split position (record { 0 = name_of first.now }) (record { 0 = name_of second.now }) }
{
    Audit::Split {
        position,
        first: entry_name(first),
        second: entry_name(second),
    }
}

impl Made {
    /// Goes on by this entry.
    fn take(&mut self, entry: &Entry) -> Result<(), NoMemory>
        ensures { OnOk result (GoesOnBy self.old entry.now self.new) }
    {
        self.entries.push(*entry)?;
        self.last = entry_name(entry);
        self.plan = plan_behind(&self.plan, &entry.plan);
        Ok(())
    }
}

/// The plan of an entry, else the one in force before it.
fn plan_behind(before: &Plan, plan: &Option<Plan>) -> Plan
    ensures { result ≡ plan_after before.now plan.now }
{
    match plan {
        Some(plan) => *plan,
        None => *before,
    }
}
