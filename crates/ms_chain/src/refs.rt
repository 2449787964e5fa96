//! Refs: each client says in a list of its own, on every service, which member of the chain its folder has as its base.

ghost use Rattle.std.specs.Prelude.{◌≡◌, ◌≤◌, ◌<◌, ◌++◌, ◌∷◌, [], ℕ, List, IfOk, IsSomeAnd, Some, length};
ghost use Rattle.ms_base.specs.declared.limits.TheConstants.{CLIENTS, LAST_NUMBER, OBJECT_BYTES};
ghost use Rattle.ms_chain.specs.Readings.{DeskGoes};
ghost use Rattle.ms_chain.specs.Refs.{GathersAll, IsFirstGreatest, KnownByMost, LooksOne, ReadsRef, TellsOn, WritesAll, WritesOne, WritesRef, marks_of};
ghost use Rattle.ms_local.specs.Desks.{IsDesk, OnTold, desk_view};
ghost use Rattle.ms_record.specs.declared.mark.RefMark.{RefMark as MarkData};
ghost use Rattle.ms_record.specs.Marks.{mark_text};

use crate::line::has_half;
use ms_base::{Bytes, ClientId, NoMemory, ServiceId};
use ms_core::FoldClosed;
use ms_core::item_law::views_grow;
use ms_link::law::{calls_compose, logs_grow};
use ms_link::{Link, Texts};
use ms_local::{Desk, Keeper, Message, Work, append_noted, desks_stay, list_noted, tellings_stay};
use ms_record::mark::{parse_mark, write_mark};
use ms_record::{ListId, RefMark, Refusal, ServiceSet};
use std::alloc::Global;

/// Appends the mark to the list of the desk's client on each service, in the order of the services: `docs/PROTOCOL.md`, refs.
/// `NoMajority` where the links of half of the services or more failed.
pub fn write_ref<W: Work + Drop, K: Keeper + Drop, L: Link<FoldClosed> + Drop>(
    alloc: Global,
    desk: &mut Desk<W, K, L>,
    mark: &RefMark,
) -> Result<(), Refusal>
    requires desk { IsDesk (desk_view W.sees K.sees L.sees desk.old) }
    requires range { mark.now.position ≤ LAST_NUMBER }
    ensures writes { WritesRef (desk_view W.sees K.sees L.sees desk.old) (desk_view W.sees K.sees L.sees desk.new) mark.now result }
    ensures effect { DeskGoes (desk_view W.sees K.sees L.sees desk.old) (desk_view W.sees K.sees L.sees desk.new) }
    ensures desk { IsDesk (desk_view W.sees K.sees L.sees desk.new) }
{
    let services = desk.services;
    let failed = write_all(alloc, desk, mark)?;
    if has_half(&ServiceSet::all(services), &failed) {
        return Err(Refusal::NoMajority { failed });
    }
    Ok(())
}

/// The mark of greatest number in the client's lists, of several such the first of the least service; none where they have none:
/// `docs/PROTOCOL.md`, refs. `NoMajority` where the links of half of the services or more failed.
pub fn read_ref<W: Work + Drop, K: Keeper + Drop, L: Link<FoldClosed> + Drop>(
    alloc: Global,
    desk: &mut Desk<W, K, L>,
    client: ClientId,
) -> Result<Option<RefMark>, Refusal>
    requires desk { IsDesk (desk_view W.sees K.sees L.sees desk.old) }
    requires client { client.0 < CLIENTS }
    ensures reads { ReadsRef (desk_view W.sees K.sees L.sees desk.old) (desk_view W.sees K.sees L.sees desk.new) client.0 result }
    // Where a setting is told, the answer is at least any mark that a majority was known to have.
    ensures fresh { OnTold (desk_view W.sees K.sees L.sees desk.old) ((m : MarkData) → KnownByMost (desk_view W.sees K.sees L.sees desk.old) client.0 m → IfOk result (λ r. IsSomeAnd r (λ o. m.number ≤ o.number))) }
    ensures effect { DeskGoes (desk_view W.sees K.sees L.sees desk.old) (desk_view W.sees K.sees L.sees desk.new) }
    ensures desk { IsDesk (desk_view W.sees K.sees L.sees desk.new) }
{
    let services = desk.services;
    let (failed, best) = read_all(alloc, desk, client)?;
    if has_half(&ServiceSet::all(services), &failed) {
        return Err(Refusal::NoMajority { failed });
    }
    Ok(best)
}

/// Appends the mark on each service. The services whose link failed.
fn write_all<W: Work + Drop, K: Keeper + Drop, L: Link<FoldClosed> + Drop>(
    alloc: Global,
    desk: &mut Desk<W, K, L>,
    mark: &RefMark,
) -> Result<ServiceSet, NoMemory>
    requires desk { IsDesk (desk_view W.sees K.sees L.sees desk.old) }
    requires range { mark.now.position ≤ LAST_NUMBER }
    ensures writes { WritesAll (desk_view W.sees K.sees L.sees desk.old) (desk_view W.sees K.sees L.sees desk.new) mark.now result }
    ensures effect { DeskGoes (desk_view W.sees K.sees L.sees desk.old) (desk_view W.sees K.sees L.sees desk.new) }
    ensures desk { IsDesk (desk_view W.sees K.sees L.sees desk.new) }
{
    desks_stay();
    calls_compose();
    views_grow();
    let services = desk.services;
    let mut failed = ServiceSet::none();
    for service in 0..services {
        let written = match write_one(alloc, desk, mark, ServiceId(service)) {
            Ok(written) => written,
            Err(error) => return Err(error),
        };
        if !written {
            failed.add(ServiceId(service));
        }
    }
    Ok(failed)
}

/// Appends the mark on the service; whether its link did not fail.
fn write_one<W: Work + Drop, K: Keeper + Drop, L: Link<FoldClosed> + Drop>(
    alloc: Global,
    desk: &mut Desk<W, K, L>,
    mark: &RefMark,
    service: ServiceId,
) -> Result<bool, NoMemory>
    requires desk { IsDesk (desk_view W.sees K.sees L.sees desk.old) }
    requires range { mark.now.position ≤ LAST_NUMBER }
    requires service { service.0 < desk.old.services }
    ensures writes { WritesOne (desk_view W.sees K.sees L.sees desk.old) (desk_view W.sees K.sees L.sees desk.new) mark.now service.0 result }
    ensures told { TellsOn (desk_view W.sees K.sees L.sees desk.old) (desk_view W.sees K.sees L.sees desk.new) }
    ensures effect { DeskGoes (desk_view W.sees K.sees L.sees desk.old) (desk_view W.sees K.sees L.sees desk.new) }
    ensures desk { IsDesk (desk_view W.sees K.sees L.sees desk.new) }
{
    desks_stay();
    calls_compose();
    tellings_stay();
    logs_grow();
    let list = ListId(1 + desk.client.0);
    let message = Message::Ref {
        text: text_of(alloc, mark)?,
    };
    let written = append_noted(alloc, desk, service, list, message);
    desk.pass.recall();
    written
}

/// Reads the client's list of each service. The services whose link failed, and the mark of greatest number that came.
fn read_all<W: Work + Drop, K: Keeper + Drop, L: Link<FoldClosed> + Drop>(
    alloc: Global,
    desk: &mut Desk<W, K, L>,
    client: ClientId,
) -> Result<(ServiceSet, Option<RefMark>), NoMemory>
    requires desk { IsDesk (desk_view W.sees K.sees L.sees desk.old) }
    requires client { client.0 < CLIENTS }
    ensures looks { GathersAll (desk_view W.sees K.sees L.sees desk.old) (desk_view W.sees K.sees L.sees desk.new) client.0 result }
    ensures effect { DeskGoes (desk_view W.sees K.sees L.sees desk.old) (desk_view W.sees K.sees L.sees desk.new) }
    ensures desk { IsDesk (desk_view W.sees K.sees L.sees desk.new) }
{
    desks_stay();
    calls_compose();
    views_grow();
    let services = desk.services;
    let mut failed = ServiceSet::none();
    let mut best = None;
    for service in 0..services {
        let came = match look_one(alloc, desk, client, ServiceId(service)) {
            Ok(came) => came,
            Err(error) => return Err(error),
        };
        match came {
            Some(texts) => best = greatest_mark(best, &texts),
            None => failed.add(ServiceId(service)),
        }
    }
    Ok((failed, best))
}

/// The texts of the client's list of the service; none where its link failed.
fn look_one<W: Work + Drop, K: Keeper + Drop, L: Link<FoldClosed> + Drop>(
    alloc: Global,
    desk: &mut Desk<W, K, L>,
    client: ClientId,
    service: ServiceId,
) -> Result<Option<Texts>, NoMemory>
    requires desk { IsDesk (desk_view W.sees K.sees L.sees desk.old) }
    requires client { client.0 < CLIENTS }
    requires service { service.0 < desk.old.services }
    ensures looks { LooksOne (desk_view W.sees K.sees L.sees desk.old) (desk_view W.sees K.sees L.sees desk.new) client.0 service.0 result }
    ensures told { TellsOn (desk_view W.sees K.sees L.sees desk.old) (desk_view W.sees K.sees L.sees desk.new) }
    ensures effect { DeskGoes (desk_view W.sees K.sees L.sees desk.old) (desk_view W.sees K.sees L.sees desk.new) }
    ensures desk { IsDesk (desk_view W.sees K.sees L.sees desk.new) }
{
    desks_stay();
    calls_compose();
    tellings_stay();
    views_grow();
    let list = ListId(1 + client.0);
    let texts = list_noted(alloc, desk, service, list, 0);
    desk.pass.recall();
    texts
}

/// The bytes of a mark.
fn text_of(alloc: Global, mark: &RefMark) -> Result<Bytes, NoMemory>
    requires { mark.now.position ≤ LAST_NUMBER }
    ensures { IfOk result (λ text. (text ≡ mark_text mark.now) × (length text ≤ OBJECT_BYTES)) }
{
    let mut text = Vec::new(alloc);
    write_mark(mark, &mut text)?;
    Ok(Bytes::from_vec(text))
}

/// The first mark of greatest number among those before and those of these texts behind them.
fn greatest_mark(best: Option<RefMark>, texts: &Texts) -> Option<RefMark>
    ensures { (before : List MarkData) → IsFirstGreatest before best → IsFirstGreatest (before ++ marks_of texts.now) result }
{
    let mut best = best;
    for text in texts.as_slice() {
        if let Some(mark) = parse_mark(text.as_slice()) {
            best = better_of(best, mark);
        }
    }
    best
}

/// The first mark of greatest number among those before and this one behind them.
fn better_of(best: Option<RefMark>, mark: RefMark) -> Option<RefMark>
    ensures { (before : List MarkData) → IsFirstGreatest before best → IsFirstGreatest (before ++ mark ∷ []) result }
{
    match best {
        None => Some(mark),
        Some(other) => Some(greater_of(other, mark)),
    }
}

/// The mark behind, where its number is greater, else the best before it.
fn greater_of(best: RefMark, mark: RefMark) -> RefMark
    ensures { (before : List MarkData) → IsFirstGreatest before (Some best) → IsFirstGreatest (before ++ mark ∷ []) (Some result) }
{
    if mark.number > best.number {
        mark
    } else {
        best
    }
}
