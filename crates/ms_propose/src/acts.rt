//! The outside calls of a bid, each with its deed.

ghost use Rattle.std.specs.Prelude.{◌≡◌, ◌<◌, ◌≤◌, max};
ghost use Rattle.ms_bid.specs.declared.act.Act.TheVariants.{Keep, Send, Look as Looks, Declare};
ghost use Rattle.ms_local.specs.declared.deed.Deed.TheVariants.{Declared, Looked};
ghost use Rattle.ms_local.specs.Desks.{IsDesk, desk_view};
ghost use Rattle.ms_local.specs.Keeping.{HasRanges};
ghost use Rattle.ms_local.specs.Rules.{shown_round};
ghost use Rattle.ms_propose.specs.Acts.{Acts, MayDo};

use ms_base::{Gate, NoMemory, Point, ServiceId};
use ms_bid::{Act, Answer};
use ms_core::FoldClosed;
use ms_core::item_law::{configuration_stays, declare as offers_follow};
use ms_link::{Link, LinkError};
use ms_local::{
    Deed, Desk, Keeper, Kept, Message, Work, append_noted, desks_stay, list_texts, write_kept,
};
use ms_record::{Ballot, Item, ListId, Record, Refusal, Sight};
use ms_replay::sight;
use std::alloc::Global;

/// What a bid is for: its position, from 1 to 4,294,967,294, and its ballot.
#[derive(Clone, Copy)]
pub struct Aim {
    pub position: u32,
    pub ballot: Ballot,
}

/// The number of the vote list.
const VOTES: ListId = ListId(0);

/// What a look shows that failed.
const NO_SIGHT: Sight = Sight {
    promised: false,
    best: None,
    taken: false,
    top: None,
};

/// The greater of a round and that of a ballot that was shown.
fn raised(round: u32, top: Option<Ballot>) -> u32
    ensures { result ≡ max round (shown_round top) }
{
    match top {
        Some(ballot) => round.max(ballot.round),
        None => round,
    }
}

/// Keeps the round of a bid.
pub(crate) fn keep_round<W: Work + Drop, K: Keeper + Drop, L: Link<FoldClosed> + Drop>(
    alloc: Global,
    desk: &mut Desk<W, K, L>,
    kept: &mut Kept,
    aim: Aim,
    round: u32,
) -> Result<Answer, NoMemory>
    requires desk { IsDesk (desk_view W.sees K.sees L.sees desk.old) }
    requires may { MayDo (desk_view W.sees K.sees L.sees desk.old) (Keep round) }
    requires ranges { HasRanges kept.old }
    ensures acts { Acts aim (Keep round) (desk_view W.sees K.sees L.sees desk.old) (desk_view W.sees K.sees L.sees desk.new) kept.old kept.new result }
    ensures desk { IsDesk (desk_view W.sees K.sees L.sees desk.new) }
{
    desks_stay();
    desk.deeds.push(Deed::Kept { round, ok: false })?;
    let next = Kept { round, ..*kept };
    match write_kept(alloc, &mut desk.keep, &next) {
        Ok(()) => {
            desk.deeds.set_last(Deed::Kept { round, ok: true });
            *kept = next;
            Ok(Answer::Kept)
        }
        Err(Refusal::NoMemory) => {
            desk.deeds.pop();
            Err(NoMemory)
        }
        Err(_) => Ok(Answer::Failed),
    }
}

/// Appends the message of a bid.
fn send<W: Work + Drop, K: Keeper + Drop, L: Link<FoldClosed> + Drop, G: Gate>(
    alloc: Global,
    desk: &mut Desk<W, K, L>,
    kept: &Kept,
    aim: Aim,
    service: ServiceId,
    message: Record,
    gate: &G,
) -> Result<Answer, NoMemory>
    requires desk { IsDesk (desk_view W.sees K.sees L.sees desk.old) }
    requires may { MayDo (desk_view W.sees K.sees L.sees desk.old) (Send service message) }
    ensures acts { Acts aim (Send service message) (desk_view W.sees K.sees L.sees desk.old) (desk_view W.sees K.sees L.sees desk.new) kept.now kept.now result }
    ensures desk { IsDesk (desk_view W.sees K.sees L.sees desk.new) }
{
    desks_stay();
    configuration_stays();
    gate.reach(Point::Append {
        client: desk.client,
        service,
    });
    let sent = append_noted(alloc, desk, service, VOTES, Message::Vote { message });
    desk.pass.recall();
    match sent {
        Ok(true) => Ok(Answer::Sent),
        Ok(false) => Ok(Answer::Failed),
        Err(error) => Err(error),
    }
}

/// Reads the vote list of a service for a bid. The kept round is then at least that of the ballot that the sight shows.
fn look<W: Work + Drop, K: Keeper + Drop, L: Link<FoldClosed> + Drop>(
    alloc: Global,
    desk: &mut Desk<W, K, L>,
    kept: &mut Kept,
    aim: Aim,
    service: ServiceId,
) -> Result<Answer, NoMemory>
    requires desk { IsDesk (desk_view W.sees K.sees L.sees desk.old) }
    requires may { MayDo (desk_view W.sees K.sees L.sees desk.old) (Looks service) }
    ensures acts { Acts aim (Looks service) (desk_view W.sees K.sees L.sees desk.old) (desk_view W.sees K.sees L.sees desk.new) kept.old kept.new result }
    ensures desk { IsDesk (desk_view W.sees K.sees L.sees desk.new) }
{
    desks_stay();
    configuration_stays();
    desk.deeds.push(looked(service, &NO_SIGHT, false))?;
    let answer = list_texts(alloc, desk, service, VOTES, 0);
    desk.pass.recall();
    match answer {
        Ok(texts) => {
            let seen = sight(texts.as_slice(), aim.position, aim.ballot);
            kept.round = raised(kept.round, seen.top);
            desk.deeds.set_last(looked(service, &seen, true));
            Ok(Answer::Seen { sight: seen })
        }
        Err(LinkError::Failed) => Ok(Answer::Failed),
        Err(LinkError::NoMemory) => {
            desk.deeds.pop();
            Err(NoMemory)
        }
        Err(LinkError::Stale { .. }) => unreachable!(),
    }
}

/// The deed of a look.
fn looked(service: ServiceId, sight: &Sight, ok: bool) -> Deed
    ensures { result ≡ Looked service sight.now ok }
{
    Deed::Looked {
        service,
        sight: *sight,
        ok,
    }
}

/// The deed of a declaration.
fn declared(offer: &Record) -> Deed
    ensures { result ≡ Declared offer.now }
{
    Deed::Declared { offer: *offer }
}

/// Declares the offer of a bid: it is told on the board.
fn declare<W: Work + Drop, K: Keeper + Drop, L: Link<FoldClosed> + Drop>(
    desk: &mut Desk<W, K, L>,
    kept: &Kept,
    aim: Aim,
    offer: Record,
) -> Result<Answer, NoMemory>
    requires desk { IsDesk (desk_view W.sees K.sees L.sees desk.old) }
    requires may { MayDo (desk_view W.sees K.sees L.sees desk.old) (Declare offer) }
    ensures acts { Acts aim (Declare offer) (desk_view W.sees K.sees L.sees desk.old) (desk_view W.sees K.sees L.sees desk.new) kept.now kept.now result }
    ensures desk { IsDesk (desk_view W.sees K.sees L.sees desk.new) }
{
    desks_stay();
    offers_follow();
    configuration_stays();
    desk.deeds.push(declared(&offer))?;
    desk.pass.recall();
    desk.board.tell(&mut desk.pass, &Item::Offer { offer });
    desk.pass.recall();
    Ok(Answer::Declared)
}

/// Does what is to be done next in a bid. Where memory runs out no deed is noted.
pub(crate) fn perform<W: Work + Drop, K: Keeper + Drop, L: Link<FoldClosed> + Drop, G: Gate>(
    alloc: Global,
    desk: &mut Desk<W, K, L>,
    kept: &mut Kept,
    aim: Aim,
    act: Act,
    gate: &G,
) -> Result<Answer, NoMemory>
    requires desk { IsDesk (desk_view W.sees K.sees L.sees desk.old) }
    requires may { MayDo (desk_view W.sees K.sees L.sees desk.old) act }
    requires ranges { HasRanges kept.old }
    ensures acts { Acts aim act (desk_view W.sees K.sees L.sees desk.old) (desk_view W.sees K.sees L.sees desk.new) kept.old kept.new result }
    ensures desk { IsDesk (desk_view W.sees K.sees L.sees desk.new) }
{
    match act {
        Act::Keep { round } => keep_round(alloc, desk, kept, aim, round),
        Act::Send { service, message } => send(alloc, desk, kept, aim, service, message, gate),
        Act::Look { service } => look(alloc, desk, kept, aim, service),
        Act::Declare { offer } => declare(desk, kept, aim, offer),
        Act::End { .. } => unreachable!(),
    }
}
