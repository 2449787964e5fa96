//! Proposals: up to 16 bids for one position.

ghost use Rattle.std.specs.Prelude.{◌≡◌, ◌<◌, ◌≤◌, ◌↔◌, ℕ, Contains, IfOk, IfSome, IsTrue, Err, Some, length};
ghost use Rattle.ms_base.specs.declared.limits.TheConstants.{CLIENTS, GREATEST_NUMBER, LAST_NUMBER};
ghost use Rattle.ms_base.specs.declared.names.Quantity.TheVariants.{Position};
ghost use Rattle.ms_base.specs.declared.names.ServiceId.{ServiceId};
ghost use Rattle.ms_bid.specs.declared.act.Outcome.TheVariants.{Outbid};
ghost use Rattle.ms_record.specs.declared.ballot.Ballot.{Ballot};
ghost use Rattle.ms_local.specs.Desks.{IsDesk, desk_view};
ghost use Rattle.ms_local.specs.Keeping.{HasRanges};
ghost use Rattle.ms_local.specs.Rules.{Bidding};
ghost use Rattle.ms_record.specs.declared.entry.Entry.{Entry};
ghost use Rattle.ms_record.specs.declared.refusal.Refusal.TheVariants as refusals;
ghost use Rattle.ms_record.specs.Entries.{IsEntry};
ghost use Rattle.ms_propose.specs.Bidding.{intent_of};
ghost use Rattle.ms_propose.specs.Leaving.{Bids, IsSettingOf};
ghost use Rattle.ms_propose.specs.Proposing.{IsAnswerTo, Proposed, Says, slack_at};
ghost use Rattle.ms_local.specs.Desks.{OnTold'};
ghost use Rattle.ms_propose.specs.TrueBids.{IsSeated};
ghost use Rattle.ms_local.specs.Truths.{IsStateAt};

use crate::bids::one_bid;
use ms_base::limits::{GREATEST_NUMBER, LAST_NUMBER};
use ms_base::{Gate, Name, Quantity};
use ms_bid::Outcome;
use ms_core::FoldClosed;
use ms_link::Link;
use ms_local::{Desk, Keeper, Kept, Work};
use ms_record::{Ballot, Entry, Place, Refusal, Rival, Rivals, ServiceSet, Setting};
use std::alloc::Global;

/// The most bids of one proposal.
const BIDS: u32 = 16;

/// The entry that a majority of the voters has taken, and whether it is the one that was wanted.
#[derive(Clone, Copy)]
pub struct Decided {
    pub entry: Entry,
    pub mine: bool,
}

/// A name has 32 bytes.
fn shows_name(name: &Name)
    ensures { length name.now.0 ≡ 32 }
{
    let _bytes: &[u8] = &name.0;
}

/// An entry of a client is in its ranges.
fn shows_entry(entry: &Entry)
    requires { entry.now.client.0 < CLIENTS }
    ensures { IsEntry entry.now }
{
    shows_name(&entry.before);
    shows_name(&entry.version);
    let _number = entry.number;
    if let Some(plan) = &entry.plan {
        let _rows = plan.rows();
    }
}

/// So is the one that is wanted.
fn shows_want(want: &Option<Entry>)
    requires { (e : Entry) → want.now ≡ Some e → e.client.0 < CLIENTS }
    ensures { (e : Entry) → want.now ≡ Some e → IsEntry e }
{
    if let Some(entry) = want {
        shows_entry(entry);
    }
}

/// Whether this entry is wanted.
fn is_wanted(want: &Option<Entry>, entry: &Entry) -> bool
    ensures { IsTrue result ↔ (want.now ≡ Some entry.now) }
{
    match want {
        Some(own) => own.is_same(entry),
        None => false,
    }
}

/// The answer to the end of a bid of this ballot that was not outbid.
fn answer_to(
    outcome: Outcome,
    ballot: Ballot,
    want: &Option<Entry>,
) -> Result<Option<Decided>, Refusal>
    requires { (service : ServiceId) (top : Ballot) → outcome ≡ Outbid service top → ⊥ }
    ensures { IsAnswerTo outcome ballot want.now result }
{
    match outcome {
        Outcome::Decided { entry } => Ok(Some(Decided {
            entry,
            mine: is_wanted(want, &entry),
        })),
        Outcome::Nothing => Ok(None),
        Outcome::NoMajority { failed } => Err(Refusal::NoMajority {
            failed: failed.services(),
        }),
        Outcome::Unlisted { service } => Err(Refusal::Unlisted { service, ballot }),
        Outcome::KeepFault => Err(Refusal::OutsideFault { place: Place::Keep }),
        Outcome::Outbid { .. } => unreachable!(),
    }
}

/// Proposes the entry that is wanted at a position, or without one settles what others left there, by up to 16 bids of the desk's
/// client: `docs/PROTOCOL.md`, bids. `None` where there is nothing to settle.
///
/// `Limit` of the position where that is 4,294,967,295, of the round where a bid would begin at the last round, 4,294,967,294.
/// `OutsideFault` where the keeper failed to keep a round. `NoMajority` where in one bid the calls to half of the voters failed, or
/// to more; `Contended` where each of 16 bids was outbid; `Unlisted` where a service that took the message of a bid does not show it.
/// Whatever is answered, `kept` has the greatest round that was kept or shown.
pub fn propose<W: Work + Drop, K: Keeper + Drop, L: Link<FoldClosed> + Drop, G: Gate>(
    alloc: Global,
    desk: &mut Desk<W, K, L>,
    kept: &mut Kept,
    setting: &Setting,
    voters: &ServiceSet,
    position: u32,
    want: Option<Entry>,
    gate: &G,
) -> Result<Option<Decided>, Refusal>
    requires desk { IsDesk (desk_view W.sees K.sees L.sees desk.old) }
    requires setting { IsSettingOf setting.now (desk_view W.sees K.sees L.sees desk.old) }
    requires position { 1 ≤ position }
    requires some_voters { 1 ≤ length voters.now }
    requires voters { (s : ℕ) → Contains voters.now s → s < setting.now.services }
    requires seated { OnTold' (desk_view W.sees K.sees L.sees desk.old) (λ s. IsSeated s desk.old.pass.lists position voters.now want) }
    requires state { IsStateAt 0 (desk_view W.sees K.sees L.sees desk.old) kept.old }
    requires ranges { HasRanges kept.old }
    requires own { (e : Entry) → want ≡ Some e → e.client ≡ desk.old.client }
    ensures deeds { (s : Bidding) → s.top ≡ kept.old.round → length s.failed ≡ desk.old.services
        → Proposed (intent_of want voters.now position) (desk_view W.sees K.sees L.sees desk.old) (desk_view W.sees K.sees L.sees desk.new) s kept.new.round result }
    ensures limit { (LAST_NUMBER < position) ↔ (result ≡ Err (refusals.Limit Position GREATEST_NUMBER)) }
    ensures mine { IfOk result (λ o. IfSome o (λ x. IsTrue x.mine ↔ (want ≡ Some x.entry))) }
    ensures says { Says (desk_view W.sees K.sees L.sees desk.old) (desk_view W.sees K.sees L.sees desk.new) voters.now position result }
    ensures leaves { Bids (slack_at result) (desk_view W.sees K.sees L.sees desk.old) (desk_view W.sees K.sees L.sees desk.new) kept.old kept.new }
    ensures desk { IsDesk (desk_view W.sees K.sees L.sees desk.new) }
{
    if position > LAST_NUMBER {
        return Err(Refusal::Limit {
            what: Quantity::Position,
            value: GREATEST_NUMBER,
        });
    }
    shows_want(&want);
    let mut rivals = Rivals::new(alloc);
    for _bid in 0..BIDS {
        if kept.round == LAST_NUMBER {
            return Err(Refusal::Limit {
                what: Quantity::Round,
                value: GREATEST_NUMBER,
            });
        }
        let ballot = Ballot {
            round: kept.round + 1,
            client: desk.client,
        };
        match one_bid(alloc, desk, kept, setting, voters, position, want, gate) {
            Ok(Outcome::Outbid { service, top }) => {
                if let Err(error) = rivals.push(Rival { service, top }) {
                    return Err(error.into());
                }
            }
            Ok(outcome) => return answer_to(outcome, ballot, &want),
            Err(error) => return Err(error.into()),
        }
    }
    Err(Refusal::Contended { rivals })
}
