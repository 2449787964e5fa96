//! The chain of the logs, brought up to date.

ghost use Rattle.std.specs.Prelude.{◌≡◌, ◌++◌, ◌∷◌, [], None, IfOk, IfSome, OnOk, OnErr};
ghost use Rattle.ms_world.specs.Held.{IsReached};
ghost use Rattle.ms_world.specs.Worlds.{votes_of_world};
ghost use Rattle.ms_record.specs.declared.entry.Entry.{Entry};
ghost use Rattle.ms_record.specs.Chains.{IsChain, IsLinked, plan_after, voters_of};
ghost use Rattle.ms_record.specs.Settings.{IsSetting, origin_of};
ghost use Rattle.ms_record.specs.Votes.{ChosenBy};

use crate::behind::{genesis_plan, plan_behind, plan_with};
use crate::reached::{chains_go_on, states_hold};
use crate::state::State;
use ms_base::NoMemory;
use ms_base::limits::LAST_NUMBER;
use ms_record::{Entries, Entry, Plan, Setting};
use std::alloc::Global;

/// Puts what is chosen behind a linked list at its end, as far as it goes: the list is then the chain. Where memory
/// runs out, it has gone on a part of the way.
pub(crate) fn follow(
    alloc: Global,
    setting: &Setting,
    state: &State,
    chain: &mut Entries,
) -> Result<(), NoMemory>
    requires set { IsSetting setting.now }
    requires reached { IsReached setting.now state.now }
    requires linked { IsLinked (votes_of_world state.now) (origin_of setting.now) chain.old }
    ensures chain { OnOk result (IsChain (votes_of_world state.now) (origin_of setting.now) chain.new) }
    ensures linked { IsLinked (votes_of_world state.now) (origin_of setting.now) chain.new }
{
    states_hold();
    chains_go_on();
    let mut plan = plan_behind(genesis_plan(setting), chain.as_slice());
    let next = chain.len() as u32 + 1;
    for position in next..LAST_NUMBER + 1 {
        match follow_at(alloc, state, &plan, position, chain)? {
            Some(behind) => {
                plan = behind;
            }
            None => return Ok(()),
        }
    }
    Ok(())
}

/// Puts the entry that the services of the plan have chosen at the position at the end of a list; the plan in force
/// behind it, or none where nothing is chosen.
fn follow_at(
    alloc: Global,
    state: &State,
    plan: &Plan,
    position: u32,
    list: &mut Entries,
) -> Result<Option<Plan>, NoMemory>
    ensures more { IfOk result (λ o. IfSome o (λ behind.
        (e : Entry) × ChosenBy (votes_of_world state.now) (voters_of plan.now) position e × (list.new ≡ list.old ++ e ∷ []) × (behind ≡ plan_after plan.now e.plan))) }
    ensures end { IfOk result (λ o. o ≡ None
        → (list.new ≡ list.old) × ((e : Entry) → ¬ ChosenBy (votes_of_world state.now) (voters_of plan.now) position e)) }
    ensures err { OnErr result (list.new ≡ list.old) }
{
    let chosen = state.chosen_under(alloc, plan, position)?;
    match &chosen {
        None => Ok(None),
        Some(entry) => {
            let behind = plan_with(*plan, entry);
            let plan = entry.plan;
            list.push(Entry { plan, ..*entry })?;
            Ok(Some(behind))
        }
    }
}
