//! Catching up: the chain is learnt, and what others left behind its end is settled.

ghost use Rattle.std.specs.Prelude.{◌≡◌, ◌≤◌, length};
ghost use Rattle.ms_base.specs.declared.limits.TheConstants.{LAST_NUMBER};
ghost use Rattle.ms_local.specs.Desks.{IsDesk, desk_view};
ghost use Rattle.ms_local.specs.Keeping.{HasRanges};
ghost use Rattle.ms_local.specs.Learning.{IsOfDesk};
ghost use Rattle.ms_local.specs.Truths.{IsStateAt};
ghost use Rattle.ms_propose.specs.Catching.{Catches, CatchesUp, ChainGoesOn, Settles};
ghost use Rattle.ms_propose.specs.Leaving.{IsSettingOf};
ghost use Rattle.ms_propose.specs.Proposing.{slack_at};

use crate::proposal::propose;
use ms_base::Gate;
use ms_core::FoldClosed;
use ms_core::item_law::configuration_stays;
use ms_core::view_law::{linked_lists, next_behind};
use ms_link::Link;
use ms_local::{Desk, Keeper, Kept, Learner, Work, desks_stay};
use ms_record::law::one_chain;
use ms_record::{Refusal, Setting};
use std::alloc::Global;

/// Settles the position behind the chain's end: whether the chain gained what was decided there.
fn settle<
    W: Work + Drop,
    K: Keeper + Drop,
    L: Link<FoldClosed> + Drop,
    R: Learner<W, K, L>,
    G: Gate,
>(
    alloc: Global,
    desk: &mut Desk<W, K, L>,
    kept: &mut Kept,
    chain: &mut R,
    setting: &Setting,
    gate: &G,
) -> Result<bool, Refusal>
    requires desk { IsDesk (desk_view W.sees K.sees L.sees desk.old) }
    requires setting { IsSettingOf setting.now (desk_view W.sees K.sees L.sees desk.old) }
    requires chain { IsOfDesk (R.sees chain.old) (desk_view W.sees K.sees L.sees desk.old) }
    requires room { length (R.sees chain.old).members ≤ LAST_NUMBER }
    requires state { IsStateAt 0 (desk_view W.sees K.sees L.sees desk.old) kept.old }
    requires ranges { HasRanges kept.old }
    ensures room { length (R.sees chain.old).members ≤ LAST_NUMBER }
    ensures settles { Settles (desk_view W.sees K.sees L.sees desk.old) (desk_view W.sees K.sees L.sees desk.new) kept.old kept.new.round (R.sees chain.old) (R.sees chain.new) result }
    ensures leaves { Catches (slack_at result) (desk_view W.sees K.sees L.sees desk.old) (desk_view W.sees K.sees L.sees desk.new) kept.old kept.new }
    ensures desk { IsDesk (desk_view W.sees K.sees L.sees desk.new) }
    ensures chain { IsOfDesk (R.sees chain.new) (desk_view W.sees K.sees L.sees desk.new) }
{
    next_behind();
    one_chain();
    let position = chain.end() + 1;
    let voters = chain.voters();
    match propose(alloc, desk, kept, setting, &voters, position, None, gate) {
        Ok(Some(decided)) => {
            desk.pass.recall();
            match chain.add(&decided.entry) {
                Ok(gained) => Ok(gained),
                Err(error) => Err(error.into()),
            }
        }
        Ok(None) => Ok(false),
        Err(refusal) => Err(refusal),
    }
}

/// Learns the chain, and settles what others left behind its end, until nothing is seen there or nothing is to be settled. The
/// position of the end, from 0 to 4,294,967,294.
///
/// `Split` and `NoMajority` as they come in learning; the latter, and the other refusals of a proposal, where a settling bid gives
/// them. What was gained until then stays in the chain.
pub fn catch_up<
    W: Work + Drop,
    K: Keeper + Drop,
    L: Link<FoldClosed> + Drop,
    R: Learner<W, K, L>,
    G: Gate,
>(
    alloc: Global,
    desk: &mut Desk<W, K, L>,
    kept: &mut Kept,
    chain: &mut R,
    setting: &Setting,
    gate: &G,
) -> Result<u32, Refusal>
    requires desk { IsDesk (desk_view W.sees K.sees L.sees desk.old) }
    requires setting { IsSettingOf setting.now (desk_view W.sees K.sees L.sees desk.old) }
    requires chain { IsOfDesk (R.sees chain.old) (desk_view W.sees K.sees L.sees desk.old) }
    requires state { IsStateAt 0 (desk_view W.sees K.sees L.sees desk.old) kept.old }
    requires ranges { HasRanges kept.old }
    ensures answer { CatchesUp (desk_view W.sees K.sees L.sees desk.old) (desk_view W.sees K.sees L.sees desk.new) kept.old kept.new.round (R.sees chain.old) (R.sees chain.new) result }
    ensures grows { ChainGoesOn (R.sees chain.old) (R.sees chain.new) }
    ensures leaves { Catches (slack_at result) (desk_view W.sees K.sees L.sees desk.old) (desk_view W.sees K.sees L.sees desk.new) kept.old kept.new }
    ensures desk { IsDesk (desk_view W.sees K.sees L.sees desk.new) }
    ensures chain { IsOfDesk (R.sees chain.new) (desk_view W.sees K.sees L.sees desk.new) }
{
    desks_stay();
    configuration_stays();
    one_chain();
    linked_lists();
    'learn: loop {
        let learnt = chain.learn(alloc, desk);
        desk.pass.recall();
        let known = match learnt {
            Ok(known) => known,
            Err(refusal) => return Err(refusal),
        };
        if known.seen <= known.end {
            return Ok(known.end);
        }
        match settle(alloc, desk, kept, chain, setting, gate) {
            Ok(true) => {}
            Ok(false) => return Ok(known.end),
            Err(refusal) => return Err(refusal),
        }
    }
}
