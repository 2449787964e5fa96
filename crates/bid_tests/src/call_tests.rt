//! Calls on a service at a desk: what each answers, and the deed that it leaves.

ghost use Rattle.std.specs.Prelude.{◌≡◌};
ghost use Rattle.ms_ken.specs.Known.{ArePasses};
ghost use Rattle.ms_local.specs.Desks.{desk_view};
ghost use Rattle.bid_tests.specs.Shelves.{IsUntoldDesk};

use crate::shelves::{Fate, LOST, Shelf, WELL, desk_on};
use ms_base::{Bytes, Name, NoMemory, ServiceId};
use ms_core::{Common, FoldClosed, Know};
use ms_ken::{Board, Naming};
use ms_link::{Link, Texts};
use ms_local::{
    Deed, Desk, Found, Keeper, Message, Miss, Work, append_noted, get_noted, has_noted, list_noted,
    put_noted,
};
use ms_object::name_of;
use ms_record::ListId;
use std::alloc::Global;
use std::marker::Brand;
use std::test::*;

/// The second of three services is called.
const SECOND: ServiceId = ServiceId(1);

const GENERATION: u32 = 4;

const LIST: ListId = ListId(3);

/// The empty blob.
const TEXT: &[u8] = b"B";

/// Its SHA-256.
const NAME: Name = Name([
    0xdf, 0x7e, 0x70, 0xe5, 0x02, 0x15, 0x44, 0xf4, 0x83, 0x4b, 0xbe, 0xe6, 0x4a, 0x9e, 0x37, 0x89,
    0xfe, 0xbc, 0x4b, 0xe8, 0x14, 0x70, 0xdf, 0x62, 0x9c, 0xad, 0x6d, 0xdb, 0x03, 0x32, 0x0a, 0x5c,
]);

/// What lies below generation 9 is dropped.
const DROPPED: Fate<'static> = Fate {
    fails: &[],
    step: 0,
    floor: 9,
    drops_at: 0,
};

/// A call on the second service.
#[derive(Clone, Copy)]
enum Ask {
    Has,
    Put,
    Get,
    /// The texts of the list from this place on.
    List(u64),
    /// The list goes on by the text.
    Append,
}

/// What the call answers, and its deed says.
#[derive(Clone, Copy, PartialEq, Eq)]
enum Said {
    /// An object is there, or not.
    There,
    Absent,
    /// So many texts came.
    Texts(u64),
    /// What was asked for is done.
    Done,
    Failed,
    Stale(u32),
}

/// What the second service holds under the name, if anything; what befalls it; and what is then said.
#[derive(Clone, Copy)]
struct Case<'a> {
    ask: Ask,
    held: Option<&'a [u8]>,
    fate: Fate<'a>,
    said: Said,
}

/// Whether the deed of a call says so by whether it was answered, and a floor.
fn is_ended(ok: bool, floor: Option<u32>, said: Said) -> bool {
    match said {
        Said::Failed => !ok && floor.is_none(),
        Said::Stale(below) => !ok && floor == Some(below),
        _ => ok && floor.is_none(),
    }
}

/// Whether the deed is of an object of this name at the second service.
fn is_of(service: ServiceId, generation: u32, name: &Name) -> bool {
    service == SECOND && generation == GENERATION && *name == NAME
}

/// The name of the bytes that come, if any do.
fn found_in(case: &Case<'_>) -> Option<Name> {
    match case.said {
        Said::There => case.held.map(name_of),
        _ => None,
    }
}

fn is_asked(deed: &Deed, case: &Case<'_>) -> bool {
    match deed {
        Deed::Asked {
            service,
            generation,
            name,
            present,
            ok,
            floor,
        } => {
            is_of(*service, *generation, name)
                && is_ended(*ok, *floor, case.said)
                && *present == (case.said == Said::There)
        }
        _ => false,
    }
}

fn is_put(deed: &Deed, case: &Case<'_>) -> bool {
    match deed {
        Deed::Put {
            service,
            generation,
            name,
            ok,
            floor,
        } => is_of(*service, *generation, name) && is_ended(*ok, *floor, case.said),
        _ => false,
    }
}

fn is_got(deed: &Deed, case: &Case<'_>) -> bool {
    match deed {
        Deed::Got {
            service,
            generation,
            name,
            found,
            ok,
            floor,
        } => {
            is_of(*service, *generation, name)
                && is_ended(*ok, *floor, case.said)
                && *found == found_in(case)
        }
        _ => false,
    }
}

fn is_listed(deed: &Deed, case: &Case<'_>, place: u64) -> bool {
    match deed {
        Deed::Listed {
            service,
            list,
            from,
            count,
            ok,
        } => {
            *service == SECOND
                && *list == LIST
                && *from == place
                && is_ended(*ok, None, case.said)
                && *count == count_in(case.said)
        }
        _ => false,
    }
}

fn count_in(said: Said) -> u64 {
    match said {
        Said::Texts(count) => count,
        _ => 0,
    }
}

fn is_appended(deed: &Deed, case: &Case<'_>) -> bool {
    match deed {
        Deed::Appended {
            service,
            list,
            message: Message::Ref { text },
            ok,
        } => {
            *service == SECOND
                && *list == LIST
                && text.as_slice() == TEXT
                && is_ended(*ok, None, case.said)
        }
        _ => false,
    }
}

/// Whether the one deed is that of the call.
fn is_noted(deeds: &[Deed], case: &Case<'_>) -> bool {
    if deeds.len() != 1 {
        return false;
    }
    let deed = &deeds[0];
    match case.ask {
        Ask::Has => is_asked(deed, case),
        Ask::Put => is_put(deed, case),
        Ask::Get => is_got(deed, case),
        Ask::List(place) => is_listed(deed, case, place),
        Ask::Append => is_appended(deed, case),
    }
}

fn missed(miss: Miss) -> Said {
    match miss {
        Miss::Failed => Said::Failed,
        Miss::Stale { floor } => Said::Stale(floor),
    }
}

fn answer_of_has(answer: Result<bool, Miss>) -> Said {
    match answer {
        Ok(true) => Said::There,
        Ok(false) => Said::Absent,
        Err(miss) => missed(miss),
    }
}

fn answer_of_put(answer: Result<(), Miss>) -> Said {
    match answer {
        Ok(()) => Said::Done,
        Err(miss) => missed(miss),
    }
}

/// `There` where the bytes are those that the service holds, under their own name.
fn answer_of_get(answer: Result<Option<Found>, Miss>, held: Option<&[u8]>) -> Said {
    match answer {
        Ok(Some(found)) => {
            if held == Some(found.text.as_slice()) && held.map(name_of) == Some(found.name) {
                Said::There
            } else {
                Said::Failed
            }
        }
        Ok(None) => Said::Absent,
        Err(miss) => missed(miss),
    }
}

fn answer_of_list(answer: Option<Texts>) -> Said {
    match answer {
        Some(texts) => Said::Texts(texts.len()),
        None => Said::Failed,
    }
}

fn answer_of_append(answer: bool) -> Said {
    if answer { Said::Done } else { Said::Failed }
}

/// The list of the second service goes on by the text.
fn append<W: Work + Drop, K: Keeper + Drop, L: Link<FoldClosed> + Drop>(
    alloc: Global,
    desk: &mut Desk<W, K, L>,
) -> Result<Said, NoMemory>
    requires desk { IsUntoldDesk (desk_view W.sees K.sees L.sees desk.old) }
    requires services { desk.old.services ≡ 3 }
{
    let message = Message::Ref {
        text: Bytes::of(alloc, TEXT)?,
    };
    let answer = append_noted(alloc, desk, SECOND, LIST, message)?;
    Ok(answer_of_append(answer))
}

/// What the call answers.
fn call<W: Work + Drop, K: Keeper + Drop, L: Link<FoldClosed> + Drop>(
    alloc: Global,
    desk: &mut Desk<W, K, L>,
    case: &Case<'_>,
) -> Result<Said, NoMemory>
    requires desk { IsUntoldDesk (desk_view W.sees K.sees L.sees desk.old) }
    requires services { desk.old.services ≡ 3 }
{
    match case.ask {
        Ask::Has => Ok(answer_of_has(has_noted(alloc, desk, SECOND, GENERATION, &NAME)?)),
        Ask::Put => {
            let name = name_of(TEXT);
            Ok(answer_of_put(put_noted(alloc, desk, SECOND, GENERATION, &name, TEXT)?))
        }
        Ask::Get => {
            let answer = get_noted(alloc, desk, SECOND, GENERATION, &NAME)?;
            Ok(answer_of_get(answer, case.held))
        }
        Ask::List(from) => Ok(answer_of_list(list_noted(alloc, desk, SECOND, LIST, from)?)),
        Ask::Append => append(alloc, desk),
    }
}

/// The second service holds the object and three texts; the others hold nothing.
fn shelves(alloc: Global, case: &Case<'_>) -> Result<Vec<Shelf>, NoMemory> {
    let mut second = Shelf::new(alloc, case.fate)?;
    if let Some(text) = case.held {
        second.keep(GENERATION, NAME, Bytes::of(alloc, text)?)?;
    }
    second.add(LIST, Bytes::of(alloc, b"one")?)?;
    second.add(ListId(0), Bytes::of(alloc, b"other list")?)?;
    second.add(LIST, Bytes::of(alloc, b"two")?)?;
    second.add(LIST, Bytes::of(alloc, b"three")?)?;
    let mut shelves = Vec::new(alloc);
    shelves.push(Shelf::new(alloc, WELL)?)?;
    shelves.push(second)?;
    shelves.push(Shelf::new(alloc, WELL)?)?;
    Ok(shelves)
}

fn goes_on<J: Naming>(
    alloc: Global,
    board: Common,
    passes: Vec<Know>,
    case: &Case<'_>,
) -> Option<bool>
    requires board { board ≡ J.board }
    requires passes { ArePasses board 33 passes.items }
{
    let mut desk = desk_on::<J>(alloc, board, passes, shelves(alloc, case).ok()?)?;
    if desk.services != 3 {
        return None;
    }
    let said = call(alloc, &mut desk, case).ok()?;
    Some(said == case.said && is_noted(desk.deeds.as_slice(), case))
}

/// Whether the call answers so at a new desk, and leaves the one deed that says so.
fn goes(alloc: Global, case: &Case<'_>) -> bool {
    match Board::<FoldClosed>::new(alloc, 33) {
        Ok((board, passes)) => goes_on::<Brand>(alloc, board, passes, case) == Some(true),
        Err(_) => false,
    }
}

/// The same of each row: what the second service holds, what befalls it, and what is said.
fn answers(alloc: Global, ask: Ask, row: (Option<&[u8]>, Fate<'_>, Said)) -> bool {
    goes(
        alloc,
        &Case {
            ask,
            held: row.0,
            fate: row.1,
            said: row.2,
        },
    )
}

const QUESTIONS: [(Option<&'static [u8]>, Fate<'static>, Said); 5] = [
    (Some(TEXT), WELL, Said::There),
    (None, WELL, Said::Absent),
    (Some(TEXT), LOST, Said::Failed),
    (Some(TEXT), DROPPED, Said::Stale(9)),
    (None, DROPPED, Said::Stale(9)),
];

const PUTS: [(Option<&'static [u8]>, Fate<'static>, Said); 4] = [
    (None, WELL, Said::Done),
    (Some(TEXT), WELL, Said::Done),
    (None, LOST, Said::Failed),
    (None, DROPPED, Said::Stale(9)),
];

/// The last one is of a service that hands out other bytes under the name.
const GETS: [(Option<&'static [u8]>, Fate<'static>, Said); 5] = [
    (Some(TEXT), WELL, Said::There),
    (None, WELL, Said::Absent),
    (Some(TEXT), LOST, Said::Failed),
    (Some(TEXT), DROPPED, Said::Stale(9)),
    (Some(b"other bytes"), WELL, Said::There),
];

/// From which place on the list is asked for. No floor is met by a call on a list.
const LISTS: [(u64, Fate<'static>, Said); 5] = [
    (0, WELL, Said::Texts(3)),
    (2, WELL, Said::Texts(1)),
    (5, WELL, Said::Texts(0)),
    (1, LOST, Said::Failed),
    (1, DROPPED, Said::Texts(2)),
];

const APPENDS: [(Fate<'static>, Said); 3] = [
    (WELL, Said::Done),
    (LOST, Said::Failed),
    (DROPPED, Said::Done),
];

#[test]
fn the_deed_of_a_question(rt: HostRuntime) {
    for row in QUESTIONS {
        assert!(rt; answers(rt.alloc(), Ask::Has, row));
    }
}

#[test]
fn the_deed_of_a_put(rt: HostRuntime) {
    for row in PUTS {
        assert!(rt; answers(rt.alloc(), Ask::Put, row));
    }
}

#[test]
fn the_deed_of_a_get(rt: HostRuntime) {
    for row in GETS {
        assert!(rt; answers(rt.alloc(), Ask::Get, row));
    }
}

#[test]
fn the_deed_of_a_listing(rt: HostRuntime) {
    for (from, fate, said) in LISTS {
        assert!(rt; answers(rt.alloc(), Ask::List(from), (None, fate, said)));
    }
}

#[test]
fn the_deed_of_an_append(rt: HostRuntime) {
    for (fate, said) in APPENDS {
        assert!(rt; answers(rt.alloc(), Ask::Append, (None, fate, said)));
    }
}
