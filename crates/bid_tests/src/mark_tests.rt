//! Refs: which mark is read of the lists of a client, and where one is written.

ghost use Rattle.std.specs.Prelude.{◌≡◌};
ghost use Rattle.ms_ken.specs.Known.{ArePasses};
ghost use Rattle.ms_local.specs.Desks.{IsDesk, desk_view};

use crate::shelves::{Fate, LOST, Shelf, WELL, desk_on};
use ms_base::{Bytes, ClientId, Name, NoMemory, ServiceId};
use ms_chain::{read_ref, write_ref};
use ms_core::{Common, FoldClosed, Know};
use ms_ken::{Board, Naming};
use ms_link::Link;
use ms_local::{Desk, Keeper, Work, list_noted};
use ms_record::mark::write_mark;
use ms_record::{ListId, RefMark, Refusal, ServiceSet};
use std::alloc::Global;
use std::marker::Brand;
use std::test::*;

/// The list of client 0, whose desk it is.
const OWN_LIST: ListId = ListId(1);

/// The marks of client 1 are read.
const READ: ClientId = ClientId(1);

const READ_LIST: ListId = ListId(2);

/// The name that each mark has.
const ONES: Name = Name([0x11; 32]);

/// A text in the list that is read.
#[derive(Clone, Copy)]
enum Held<'a> {
    /// A mark of this number and this position.
    Mark(u32, u32),
    /// These bytes.
    Bytes(&'a [u8]),
}

/// What a call on refs answers.
#[derive(Clone, Copy)]
enum Told<'a> {
    /// The mark of this number and this position.
    Mark(u32, u32),
    None,
    /// Half of the services or more failed, which are these.
    NoMajority(&'a [u32]),
}

fn mark(number: u32, position: u32) -> RefMark
    ensures { result.position ≡ position }
{
    RefMark {
        number,
        position,
        name: ONES,
    }
}

fn text_of(alloc: Global, held: Held<'_>) -> Result<Bytes, NoMemory> {
    match held {
        Held::Bytes(bytes) => Bytes::of(alloc, bytes),
        Held::Mark(number, position) => {
            let mut text = Vec::new(alloc);
            write_mark(&mark(number, position), &mut text)?;
            Ok(Bytes::from_vec(text))
        }
    }
}

/// A service whose list of client 1 has these texts. In its other lists lies a mark of number 99.
fn shelf(alloc: Global, held: &[Held<'_>], fate: Fate<'_>) -> Result<Shelf, NoMemory> {
    let mut shelf = Shelf::new(alloc, fate)?;
    shelf.add(ListId(0), text_of(alloc, Held::Mark(99, 1))?)?;
    shelf.add(ListId(3), text_of(alloc, Held::Mark(99, 1))?)?;
    for one in held {
        shelf.add(READ_LIST, text_of(alloc, *one)?)?;
    }
    Ok(shelf)
}

/// Services of these lists and fates.
fn shelves(alloc: Global, rows: &[(&[Held<'_>], Fate<'_>)]) -> Result<Vec<Shelf>, NoMemory> {
    let mut shelves = Vec::new(alloc);
    for row in rows {
        shelves.push(shelf(alloc, row.0, row.1)?)?;
    }
    Ok(shelves)
}

/// Whether these are the services of these numbers.
fn are(services: &ServiceSet, numbers: &[u32]) -> bool {
    let services = services.as_slice();
    services.len() == numbers.len() && services.iter().zip(numbers).all(|(s, n)| s.0 == *n)
}

/// Whether a reading is answered so.
fn is_told(answer: &Result<Option<RefMark>, Refusal>, told: Told<'_>) -> bool {
    match (answer, told) {
        (Ok(Some(found)), Told::Mark(number, position)) => *found == mark(number, position),
        (Ok(None), Told::None) => true,
        (Err(Refusal::NoMajority { failed }), Told::NoMajority(services)) => are(failed, services),
        _ => false,
    }
}

fn reads_on<J: Naming>(
    alloc: Global,
    board: Common,
    passes: Vec<Know>,
    rows: &[(&[Held<'_>], Fate<'_>)],
    told: Told<'_>,
) -> Option<bool>
    requires board { board ≡ J.board }
    requires passes { ArePasses board 33 passes.items }
{
    let shelves = shelves(alloc, rows).ok()?;
    let mut desk = desk_on::<J>(alloc, board, passes, shelves)?;
    Some(is_told(&read_ref(alloc, &mut desk, READ), told))
}

/// Whether client 1's mark on such services is this one.
fn reads(alloc: Global, rows: &[(&[Held<'_>], Fate<'_>)], told: Told<'_>) -> bool {
    match Board::<FoldClosed>::new(alloc, 33) {
        Ok((board, passes)) => reads_on::<Brand>(alloc, board, passes, rows, told) == Some(true),
        Err(_) => false,
    }
}

/// The same where no link fails.
fn reads_well(alloc: Global, held: [&[Held<'_>]; 3], told: Told<'_>) -> bool {
    reads(
        alloc,
        &[(held[0], WELL), (held[1], WELL), (held[2], WELL)],
        told,
    )
}

const NUMBERS: [([&[Held<'static>]; 3], Told<'static>); 6] = [
    ([&[], &[], &[]], Told::None),
    ([&[], &[Held::Mark(1, 4)], &[]], Told::Mark(1, 4)),
    // The greatest number counts, and not the position.
    (
        [
            &[Held::Mark(1, 8)],
            &[Held::Mark(2, 5)],
            &[Held::Mark(1, 9)],
        ],
        Told::Mark(2, 5),
    ),
    // Of several of that number it is the one at the least service,
    (
        [
            &[Held::Mark(3, 1)],
            &[Held::Mark(3, 2)],
            &[Held::Mark(3, 3)],
        ],
        Told::Mark(3, 1),
    ),
    // and there the first.
    (
        [
            &[Held::Mark(2, 1)],
            &[Held::Mark(3, 7), Held::Mark(3, 8), Held::Mark(1, 9)],
            &[Held::Mark(3, 5)],
        ],
        Told::Mark(3, 7),
    ),
    (
        [
            &[Held::Mark(0, 0)],
            &[],
            &[Held::Mark(4_294_967_295, 4_294_967_294)],
        ],
        Told::Mark(4_294_967_295, 4_294_967_294),
    ),
];

#[test]
fn the_mark_of_greatest_number(rt: HostRuntime) {
    for (held, told) in NUMBERS {
        assert!(rt; reads_well(rt.alloc(), held, told));
    }
}

/// A mark of number 9 but for its tag, its last byte, or its position, which is past the last one.
const OTHER_TAG: &[u8] =
    b"P\0\0\0\x09\0\0\0\x03\x11\x11\x11\x11\x11\x11\x11\x11\x11\x11\x11\x11\x11\x11\x11\x11\x11\x11\x11\x11\x11\x11\x11\x11\x11\x11\x11\x11\x11\x11\x11\x11";

const SHORT: &[u8] =
    b"R\0\0\0\x09\0\0\0\x03\x11\x11\x11\x11\x11\x11\x11\x11\x11\x11\x11\x11\x11\x11\x11\x11\x11\x11\x11\x11\x11\x11\x11\x11\x11\x11\x11\x11\x11\x11\x11";

const PAST: &[u8] =
    b"R\0\0\0\x09\xff\xff\xff\xff\x11\x11\x11\x11\x11\x11\x11\x11\x11\x11\x11\x11\x11\x11\x11\x11\x11\x11\x11\x11\x11\x11\x11\x11\x11\x11\x11\x11\x11\x11\x11\x11";

const FOREIGN: [([&[Held<'static>]; 3], Told<'static>); 3] = [
    (
        [
            &[Held::Bytes(b"")],
            &[Held::Bytes(OTHER_TAG)],
            &[Held::Bytes(SHORT)],
        ],
        Told::None,
    ),
    (
        [
            &[Held::Bytes(PAST), Held::Mark(1, 4)],
            &[Held::Bytes(b"R")],
            &[],
        ],
        Told::Mark(1, 4),
    ),
    (
        [
            &[Held::Mark(1, 4), Held::Bytes(SHORT)],
            &[Held::Bytes(OTHER_TAG), Held::Mark(2, 6), Held::Bytes(PAST)],
            &[],
        ],
        Told::Mark(2, 6),
    ),
];

#[test]
fn foreign_texts_are_no_marks(rt: HostRuntime) {
    for (held, told) in FOREIGN {
        assert!(rt; reads_well(rt.alloc(), held, told));
    }
}

const NINE: &[Held<'static>] = &[Held::Mark(9, 9)];

const TWO: &[Held<'static>] = &[Held::Mark(2, 2)];

/// What is on a service whose link fails does not count.
const FAILING: [(&[(&[Held<'static>], Fate<'static>)], Told<'static>); 5] = [
    (&[(NINE, LOST), (TWO, WELL), (&[], WELL)], Told::Mark(2, 2)),
    (&[(NINE, LOST), (&[], WELL), (&[], WELL)], Told::None),
    (
        &[(NINE, LOST), (TWO, WELL), (&[], LOST)],
        Told::NoMajority(&[0, 2]),
    ),
    (
        &[(NINE, WELL), (TWO, WELL), (NINE, WELL), (&[], LOST)],
        Told::Mark(9, 9),
    ),
    (
        &[(NINE, WELL), (TWO, LOST), (NINE, WELL), (&[], LOST)],
        Told::NoMajority(&[1, 3]),
    ),
];

#[test]
fn marks_where_links_fail(rt: HostRuntime) {
    for (rows, told) in FAILING {
        assert!(rt; reads(rt.alloc(), rows, told));
    }
}

/// The mark of number 1 and position 3.
const WRITTEN: &[u8] =
    b"R\0\0\0\x01\0\0\0\x03\x11\x11\x11\x11\x11\x11\x11\x11\x11\x11\x11\x11\x11\x11\x11\x11\x11\x11\x11\x11\x11\x11\x11\x11\x11\x11\x11\x11\x11\x11\x11\x11";

/// Whether the list of client 0 on the service has the mark that was written alone; where the link fails nothing comes.
fn has_written<W: Work + Drop, K: Keeper + Drop, L: Link<FoldClosed> + Drop>(
    alloc: Global,
    desk: &mut Desk<W, K, L>,
    service: u32,
    written: bool,
) -> bool
    requires { IsDesk (desk_view W.sees K.sees L.sees desk.old) }
    ensures { IsDesk (desk_view W.sees K.sees L.sees desk.new) }
{
    if service >= desk.services {
        return false;
    }
    match list_noted(alloc, desk, ServiceId(service), OWN_LIST, 0) {
        Ok(Some(texts)) => match texts.as_slice() {
            [text] => written && text.as_slice() == WRITTEN,
            _ => false,
        },
        Ok(None) => !written,
        Err(_) => false,
    }
}

/// Whether the services have the mark, by a letter for each: `w` it is written, `f` the link fails.
fn have_written<W: Work + Drop, K: Keeper + Drop, L: Link<FoldClosed> + Drop>(
    alloc: Global,
    desk: &mut Desk<W, K, L>,
    letters: &[u8],
) -> bool
    requires desk { IsDesk (desk_view W.sees K.sees L.sees desk.old) }
{
    for service in 0..desk.services {
        let written = letters.get(service as usize) == Some(&b'w');
        if !has_written(alloc, desk, service, written) {
            return false;
        }
    }
    true
}

fn is_written(answer: &Result<(), Refusal>, told: Told<'_>) -> bool {
    match (answer, told) {
        (Ok(()), Told::None) => true,
        (Err(Refusal::NoMajority { failed }), Told::NoMajority(services)) => are(failed, services),
        _ => false,
    }
}

fn writes_on<J: Naming>(
    alloc: Global,
    board: Common,
    passes: Vec<Know>,
    letters: &[u8],
    told: Told<'_>,
) -> Option<bool>
    requires board { board ≡ J.board }
    requires passes { ArePasses board 33 passes.items }
{
    let mut shelves = Vec::new(alloc);
    for letter in letters {
        let fate = if *letter == b'w' { WELL } else { LOST };
        shelves.push(Shelf::new(alloc, fate).ok()?).ok()?;
    }
    let mut desk = desk_on::<J>(alloc, board, passes, shelves)?;
    let answer = write_ref(alloc, &mut desk, &mark(1, 3));
    Some(is_written(&answer, told) && have_written(alloc, &mut desk, letters))
}

/// Whether a mark is written on such services with this answer, `None` where it is Ok, and is then there where the links do not fail.
fn writes(alloc: Global, letters: &str, told: Told<'_>) -> bool {
    match Board::<FoldClosed>::new(alloc, 33) {
        Ok((board, passes)) => {
            writes_on::<Brand>(alloc, board, passes, letters.as_bytes(), told) == Some(true)
        }
        Err(_) => false,
    }
}

const WRITINGS: [(&str, Told<'static>); 7] = [
    ("www", Told::None),
    ("wfw", Told::None),
    ("fwf", Told::NoMajority(&[0, 2])),
    ("fff", Told::NoMajority(&[0, 1, 2])),
    ("wwfw", Told::None),
    ("fwwf", Told::NoMajority(&[0, 3])),
    ("f", Told::NoMajority(&[0])),
];

#[test]
fn a_mark_is_written_on_each_service(rt: HostRuntime) {
    for (letters, told) in WRITINGS {
        assert!(rt; writes(rt.alloc(), letters, told));
    }
}
