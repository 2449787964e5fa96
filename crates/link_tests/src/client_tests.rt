//! The client of links, whose calls answer by two calls in turn, over a link in memory whose calls all pass, or are all lost.

ghost use Rattle.std.specs.Prelude.{◌≡◌, true};
ghost use Rattle.link_tests.specs.Untold.{IsAsking};
ghost use Rattle.ms_fault.specs.Faults.{shows_kept};
ghost use Rattle.ms_ken.specs.Known.{ArePasses};

use crate::call::{Answer, is_done, is_seen};
use crate::untold::{NAME, home};
use ms_core::{Common, FoldClosed, Know};
use ms_fault::{Fault, FaultLink};
use ms_ken::{Board, Naming};
use ms_link::client::{
    append_counted, append_then_list, drop_then_has, get_then_has, put_then_has, stale_then_put,
};
use ms_link::{Link, LinkError};
use ms_memory::MemoryLink;
use ms_record::ListId;
use std::alloc::Global;
use std::marker::Brand;
use std::sync::Wait;
use std::test::*;

const REFS: ListId = ListId(1);

/// What the client is asked: to append one text to one list, to put one text in generation 2 and to get it, to look in generation 1 and
/// put there, or to drop what lies below generation 2 and to look in generation 1.
#[derive(Clone, Copy)]
enum Ask {
    AppendThenList,
    AppendCounted,
    PutThenHas,
    GetThenHas,
    StaleThenPut,
    DropThenHas,
}

fn appended<L: Link<FoldClosed>>(
    alloc: Global,
    board: &Common,
    pass: &mut Know,
    link: &mut L,
) -> Result<bool, LinkError>
    requires { IsAsking board.now (L.sees link.old) pass.old }
    ensures { IsAsking board.now (L.sees link.new) pass.new }
{
    append_then_list(link, alloc, board, pass, REFS, b"ref")
}

fn counted<L: Link<FoldClosed>>(
    alloc: Global,
    board: &Common,
    pass: &mut Know,
    link: &mut L,
) -> Result<(), LinkError>
    requires { IsAsking board.now (L.sees link.old) pass.old }
    ensures { IsAsking board.now (L.sees link.new) pass.new }
{
    append_counted(link, alloc, board, pass, REFS, b"ref")
}

fn put<L: Link<FoldClosed>>(
    alloc: Global,
    board: &Common,
    pass: &mut Know,
    link: &mut L,
) -> Result<bool, LinkError>
    requires { IsAsking board.now (L.sees link.old) pass.old }
    ensures { IsAsking board.now (L.sees link.new) pass.new }
{
    put_then_has(link, alloc, board, pass, 2, &NAME, b"text")
}

fn got<L: Link<FoldClosed>>(
    alloc: Global,
    board: &Common,
    pass: &mut Know,
    link: &mut L,
) -> Result<bool, LinkError>
    requires { IsAsking board.now (L.sees link.old) pass.old }
    ensures { IsAsking board.now (L.sees link.new) pass.new }
{
    get_then_has(link, alloc, board, pass, 2, &NAME)
}

fn refused<L: Link<FoldClosed>>(
    alloc: Global,
    board: &Common,
    pass: &mut Know,
    link: &mut L,
) -> Result<bool, LinkError>
    requires { IsAsking board.now (L.sees link.old) pass.old }
    ensures { IsAsking board.now (L.sees link.new) pass.new }
{
    stale_then_put(link, alloc, board, pass, 1, &NAME, b"late")
}

fn dropped<L: Link<FoldClosed>>(
    alloc: Global,
    board: &Common,
    pass: &mut Know,
    link: &mut L,
) -> Result<bool, LinkError>
    requires { IsAsking board.now (L.sees link.old) pass.old }
    ensures { IsAsking board.now (L.sees link.new) pass.new }
{
    drop_then_has(link, alloc, board, pass, 2, 1, &NAME)
}

/// Whether the client is answered so.
fn is_answered<L: Link<FoldClosed>>(
    alloc: Global,
    board: &Common,
    pass: &mut Know,
    link: &mut L,
    ask: Ask,
    expected: Answer<'_>,
) -> bool
    requires { IsAsking board.now (L.sees link.old) pass.old }
    ensures { IsAsking board.now (L.sees link.new) pass.new }
{
    match ask {
        Ask::AppendThenList => is_seen(appended(alloc, board, pass, link), expected),
        Ask::AppendCounted => is_done(counted(alloc, board, pass, link), expected),
        Ask::PutThenHas => is_seen(put(alloc, board, pass, link), expected),
        Ask::GetThenHas => is_seen(got(alloc, board, pass, link), expected),
        Ask::StaleThenPut => is_seen(refused(alloc, board, pass, link), expected),
        Ask::DropThenHas => is_seen(dropped(alloc, board, pass, link), expected),
    }
}

/// Whether the client is answered so, in order.
fn are_answered<L: Link<FoldClosed> + Drop>(
    alloc: Global,
    board: &Common,
    mut pass: Know,
    mut link: L,
    steps: &[(Ask, Answer<'_>)],
) -> bool
    requires { IsAsking board.now (L.sees link) pass }
{
    for step in steps {
        if !is_answered(alloc, board, &mut pass, &mut link, step.0, step.1) {
            return false;
        }
    }
    true
}

fn client_on<J: Naming, R: Wait + Drop + Copy>(
    rt: R,
    alloc: Global,
    board: &Common,
    passes: Vec<Know>,
    fault: Fault,
    steps: &[(Ask, Answer<'_>)],
) -> Result<bool, Fail>
    requires board { board.now ≡ J.board }
    requires passes { ArePasses board.now 33 passes.items }
    requires kept { shows_kept fault ≡ true }
{
    let (home, pass) = home::<J>(alloc, board, passes)?;
    let link = FaultLink::new(alloc, MemoryLink::new(rt, home), Vec::new(alloc), fault);
    Ok(are_answered(alloc, board, pass, link, steps))
}

/// Whether the client is answered so on a new board, where each call meets the fault.
fn is_client<R: Wait + Drop + Copy>(
    rt: R,
    alloc: Global,
    fault: Fault,
    steps: &[(Ask, Answer<'_>)],
) -> Result<bool, Fail>
    requires { shows_kept fault ≡ true }
{
    let (board, passes) = Board::<FoldClosed>::new(alloc, 33)?;
    client_on::<Brand, _>(rt, alloc, &board, passes, fault, steps)
}

/// Generation 1 is looked at before and after it is dropped, and generation 2 before and after something is put there.
const PASSED: [(Ask, Answer<'static>); 8] = [
    (Ask::AppendThenList, Answer::Yes),
    (Ask::GetThenHas, Answer::Yes),
    (Ask::PutThenHas, Answer::Yes),
    (Ask::GetThenHas, Answer::Yes),
    (Ask::StaleThenPut, Answer::Yes),
    (Ask::DropThenHas, Answer::Yes),
    (Ask::StaleThenPut, Answer::Yes),
    (Ask::AppendCounted, Answer::Done),
];

const LOST: [(Ask, Answer<'static>); 6] = [
    (Ask::AppendThenList, Answer::Failed),
    (Ask::AppendCounted, Answer::Failed),
    (Ask::PutThenHas, Answer::Failed),
    (Ask::GetThenHas, Answer::Failed),
    (Ask::StaleThenPut, Answer::Failed),
    (Ask::DropThenHas, Answer::Failed),
];

#[test]
fn a_client_whose_calls_pass(rt: HostRuntime) -> Result<(), Fail> {
    assert!(&rt; is_client(rt, rt.alloc(), Fault::Pass, &PASSED)?);
    Ok(())
}

#[test]
fn a_client_whose_calls_are_lost(rt: HostRuntime) -> Result<(), Fail> {
    assert!(&rt; is_client(rt, rt.alloc(), Fault::Lose, &LOST)?);
    Ok(())
}
