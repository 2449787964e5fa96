//! One bid at a desk.

ghost use Rattle.std.specs.Prelude.{◌≡◌, ◌+◌, ◌<◌, ◌≤◌, ℕ, Contains, IfOk, OnErr, Some, length, true};
ghost use Rattle.ms_base.specs.declared.limits.TheConstants.{LAST_NUMBER};
ghost use Rattle.ms_bid.specs.Bids.{MayFault, acts_left, ballot_of_round, fits, noted};
ghost use Rattle.ms_local.specs.Desks.{IsDesk, OnTold', desk_view};
ghost use Rattle.ms_local.specs.Keeping.{HasRanges};
ghost use Rattle.ms_local.specs.Rules.{Bidding};
ghost use Rattle.ms_local.specs.Truths.{IsStateAt};
ghost use Rattle.ms_record.specs.declared.entry.Entry.{Entry};
ghost use Rattle.ms_record.specs.Entries.{IsEntry};
ghost use Rattle.ms_record.specs.Records.{IsPosition};
ghost use Rattle.ms_propose.specs.Bidding.{BidHalted, BidMade, intent_of};
ghost use Rattle.ms_propose.specs.Leaving.{Bids, IsSettingOf, Shows, slack_of};
ghost use Rattle.ms_propose.specs.TrueBids.{IsSeated};

use crate::acts::{Aim, keep_round, perform};
use ms_base::{Gate, NoMemory};
use ms_bid::{Act, Answer, Outcome, Proposer};
use ms_core::FoldClosed;
use ms_core::view_law::{next_behind, supports};
use ms_link::Link;
use ms_local::{Desk, Keeper, Kept, Work};
use ms_record::record::one_spelling;
use ms_record::{Ballot, Entry, ServiceSet, Setting};
use std::alloc::Global;

/// Takes an answer that is one to what is pending.
fn answered(proposer: &mut Proposer, answer: Answer)
    requires { fits proposer.old.act answer ≡ true }
    ensures noted { proposer.new ≡ record (noted proposer.old proposer.old.act answer) { act = proposer.new.act } }
    ensures left { acts_left proposer.new < acts_left proposer.old }
    ensures fault { MayFault proposer.old.act answer proposer.new.act }
{
    if proposer.take(answer).is_err() {
        unreachable!()
    }
}

/// One bid of the desk's client, of the round behind the kept one. `NoMemory` may come in its midst; its deeds then keep the rules
/// as far as they go, and the keeper may have the round of the bid.
pub(crate) fn one_bid<W: Work + Drop, K: Keeper + Drop, L: Link<FoldClosed> + Drop, G: Gate>(
    alloc: Global,
    desk: &mut Desk<W, K, L>,
    kept: &mut Kept,
    setting: &Setting,
    voters: &ServiceSet,
    position: u32,
    want: Option<Entry>,
    gate: &G,
) -> Result<Outcome, NoMemory>
    requires desk { IsDesk (desk_view W.sees K.sees L.sees desk.old) }
    requires setting { IsSettingOf setting.now (desk_view W.sees K.sees L.sees desk.old) }
    requires position { IsPosition position }
    requires round { kept.old.round < LAST_NUMBER }
    requires some_voters { 1 ≤ length voters.now }
    requires voters { (s : ℕ) → Contains voters.now s → s < setting.now.services }
    requires seated { OnTold' (desk_view W.sees K.sees L.sees desk.old) (λ s. IsSeated s desk.old.pass.lists position voters.now want) }
    requires state { IsStateAt 0 (desk_view W.sees K.sees L.sees desk.old) kept.old }
    requires ranges { HasRanges kept.old }
    requires own { (e : Entry) → want ≡ Some e → e.client ≡ desk.old.client }
    requires entry { (e : Entry) → want ≡ Some e → IsEntry e }
    ensures made { IfOk result (λ outcome. (s : Bidding) → s.top ≡ kept.old.round → length s.failed ≡ desk.old.services
        → BidMade desk.old.client.0 desk.old.services (ballot_of_round (kept.old.round + 1) desk.old.client) (intent_of want voters.now position) desk.old.deeds desk.new.deeds s kept.new.round outcome) }
    ensures broken { OnErr result ((s : Bidding) → s.top ≡ kept.old.round → length s.failed ≡ desk.old.services
        → BidHalted desk.old.client.0 desk.old.services (intent_of want voters.now position) desk.old.deeds desk.new.deeds s kept.new.round) }
    ensures shows { IfOk result (λ outcome. Shows (desk_view W.sees K.sees L.sees desk.old) (desk_view W.sees K.sees L.sees desk.new) voters.now position outcome) }
    ensures leaves { Bids (slack_of result) (desk_view W.sees K.sees L.sees desk.old) (desk_view W.sees K.sees L.sees desk.new) kept.old kept.new }
    ensures desk { IsDesk (desk_view W.sees K.sees L.sees desk.new) }
{
    supports();
    next_behind();
    one_spelling();
    let round = kept.round + 1;
    let ballot = Ballot {
        round,
        client: desk.client,
    };
    let aim = Aim { position, ballot };
    let mut proposer = Proposer::new(setting, voters, desk.client, position, round, want);
    let first = match keep_round(alloc, desk, kept, aim, round) {
        Ok(first) => first,
        Err(error) => return Err(error),
    };
    if let Answer::Failed = first {
        return Ok(Outcome::KeepFault);
    }
    answered(&mut proposer, first);
    'acts: loop {
        let act = proposer.next();
        desk.pass.recall();
        if let Act::End { outcome } = act {
            return Ok(outcome);
        }
        match perform(alloc, desk, kept, aim, act, gate) {
            Ok(answer) => answered(&mut proposer, answer),
            Err(error) => return Err(error),
        }
    }
}
