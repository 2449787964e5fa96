//! Calls on the services by the links of a desk's first lane.

ghost use Rattle.std.specs.Prelude.{◌≡◌, ◌<◌, ◌≤◌, IfOk, length};
ghost use Rattle.ms_record.specs.declared.log.LogEvent.TheVariants.{Rec};
ghost use Rattle.ms_local.specs.Calls.{AppendsAt, AppendsNoted, DeskCalls, IsSupportedAt, ListsAt, ListsNoted, message_text};
ghost use Rattle.ms_local.specs.Desks.{IsDesk, desk_view};
ghost use Rattle.ms_local.specs.declared.deed.Deed.TheVariants as deeds;

use crate::deed::{Deed, Message};
use crate::desk::Desk;
use crate::desk_law::desks_stay;
use crate::outside::{Keeper, Work};
use ms_base::limits::OBJECT_BYTES;
use ms_base::{Bytes, NoMemory, ServiceId};
use ms_core::FoldClosed;
use ms_core::item_law::ask;
use ms_link::{Link, LinkError, Texts};
use ms_record::ListId;
use ms_record::writing::write_record;
use std::alloc::Global;

/// The texts of a list of the service, from this place on. `Failed` where the count of faults of the first lane's link to it rose.
pub fn list_texts<W: Work + Drop, K: Keeper + Drop, L: Link<FoldClosed> + Drop>(
    alloc: Global,
    desk: &mut Desk<W, K, L>,
    service: ServiceId,
    list: ListId,
    from: u64,
) -> Result<Texts, LinkError>
    requires desk { IsDesk (desk_view W.sees K.sees L.sees desk.old) }
    requires service { service.0 < desk.old.services }
    ensures lists { ListsAt (desk_view W.sees K.sees L.sees desk.old) (desk_view W.sees K.sees L.sees desk.new) service.0 list.0 from result }
    ensures effect { DeskCalls service.0 (desk_view W.sees K.sees L.sees desk.old) (desk_view W.sees K.sees L.sees desk.new) }
    ensures desk { IsDesk (desk_view W.sees K.sees L.sees desk.new) }
{
    desks_stay();
    let link = &mut desk.lanes[0].links[service.0 as usize];
    link.list(alloc, &desk.board, &mut desk.pass, list, from)
}

/// Appends a text to a list of the service. `Failed` where the count of faults of the first lane's link to it rose; the text may
/// then be there, or come later, or never.
pub fn append_text<W: Work + Drop, K: Keeper + Drop, L: Link<FoldClosed> + Drop>(
    alloc: Global,
    desk: &mut Desk<W, K, L>,
    service: ServiceId,
    list: ListId,
    text: &[u8],
) -> Result<(), LinkError>
    requires desk { IsDesk (desk_view W.sees K.sees L.sees desk.old) }
    requires service { service.0 < desk.old.services }
    requires short { length text.now ≤ OBJECT_BYTES }
    requires supported { IsSupportedAt (desk_view W.sees K.sees L.sees desk.old) (Rec list text.now) }
    ensures appends { AppendsAt (desk_view W.sees K.sees L.sees desk.old) (desk_view W.sees K.sees L.sees desk.new) service.0 (Rec list text.now) result }
    ensures effect { DeskCalls service.0 (desk_view W.sees K.sees L.sees desk.old) (desk_view W.sees K.sees L.sees desk.new) }
    ensures desk { IsDesk (desk_view W.sees K.sees L.sees desk.new) }
{
    desks_stay();
    ask();
    desk.pass.recall();
    let link = &mut desk.lanes[0].links[service.0 as usize];
    link.append(alloc, &desk.board, &mut desk.pass, list, text)
}

/// As `list_texts`, noted as a deed; none where the link failed. Without memory nothing is noted.
pub fn list_noted<W: Work + Drop, K: Keeper + Drop, L: Link<FoldClosed> + Drop>(
    alloc: Global,
    desk: &mut Desk<W, K, L>,
    service: ServiceId,
    list: ListId,
    from: u64,
) -> Result<Option<Texts>, NoMemory>
    requires desk { IsDesk (desk_view W.sees K.sees L.sees desk.old) }
    requires service { service.0 < desk.old.services }
    ensures lists { ListsNoted (desk_view W.sees K.sees L.sees desk.old) (desk_view W.sees K.sees L.sees desk.new) service list from result }
    ensures desk { IsDesk (desk_view W.sees K.sees L.sees desk.new) }
{
    desks_stay();
    desk.deeds.push(listed(service, list, from, 0, false))?;
    match list_texts(alloc, desk, service, list, from) {
        Ok(texts) => {
            desk.deeds
                .set_last(listed(service, list, from, texts.len(), true));
            Ok(Some(texts))
        }
        Err(LinkError::NoMemory) => {
            let _ = desk.deeds.pop();
            Err(NoMemory)
        }
        Err(_) => Ok(None),
    }
}

/// As `append_text` of the message's text, noted as a deed; whether the link did not fail. Without memory nothing is noted.
pub fn append_noted<W: Work + Drop, K: Keeper + Drop, L: Link<FoldClosed> + Drop>(
    alloc: Global,
    desk: &mut Desk<W, K, L>,
    service: ServiceId,
    list: ListId,
    message: Message,
) -> Result<bool, NoMemory>
    requires desk { IsDesk (desk_view W.sees K.sees L.sees desk.old) }
    requires service { service.0 < desk.old.services }
    requires short { length (message_text message) ≤ OBJECT_BYTES }
    requires supported { IsSupportedAt (desk_view W.sees K.sees L.sees desk.old) (Rec list (message_text message)) }
    ensures appends { AppendsNoted (desk_view W.sees K.sees L.sees desk.old) (desk_view W.sees K.sees L.sees desk.new) service list message result }
    ensures desk { IsDesk (desk_view W.sees K.sees L.sees desk.new) }
{
    desks_stay();
    let text = text_of(alloc, &message)?;
    let noted = copy_of(alloc, &message)?;
    desk.deeds.push(appended(service, list, noted, false))?;
    match append_text(alloc, desk, service, list, text.as_slice()) {
        Ok(()) => {
            desk.deeds.set_last(appended(service, list, message, true));
            Ok(true)
        }
        Err(LinkError::NoMemory) => {
            let _ = desk.deeds.pop();
            Err(NoMemory)
        }
        Err(_) => Ok(false),
    }
}

fn listed(service: ServiceId, list: ListId, from: u64, count: u64, ok: bool) -> Deed
    ensures { result ≡ deeds.Listed service list from count ok }
{
    Deed::Listed {
        service,
        list,
        from,
        count,
        ok,
    }
}

fn appended(service: ServiceId, list: ListId, message: Message, ok: bool) -> Deed
    ensures { result ≡ deeds.Appended service list message ok }
{
    Deed::Appended {
        service,
        list,
        message,
        ok,
    }
}

/// The text of a message.
fn text_of(alloc: Global, message: &Message) -> Result<Bytes, NoMemory>
    ensures { IfOk result (λ text. text ≡ message_text message.now) }
{
    match message {
        Message::Vote { message } => {
            let mut text = Vec::new(alloc);
            write_record(message, &mut text)?;
            Ok(Bytes::from_vec(text))
        }
        Message::Ref { text } => Bytes::of(alloc, text.as_slice()),
    }
}

/// The same message once more.
fn copy_of(alloc: Global, message: &Message) -> Result<Message, NoMemory>
    ensures { IfOk result (λ copy. copy ≡ message.now) }
{
    match message {
        Message::Vote { message } => Ok(Message::Vote { message: *message }),
        Message::Ref { text } => Ok(Message::Ref {
            text: Bytes::of(alloc, text.as_slice())?,
        }),
    }
}
