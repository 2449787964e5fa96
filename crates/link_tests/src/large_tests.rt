//! A long list and a large text, through a link.

ghost use Rattle.std.specs.Prelude.{◌≡◌};
ghost use Rattle.link_tests.specs.Untold.{IsReady};
ghost use Rattle.ms_ken.specs.Known.{ArePasses};

use crate::untold::{append, get, home, list, put};
use ms_core::{Common, FoldClosed, Know};
use ms_fault::{Fault, FaultLink};
use ms_ken::{Board, Naming};
use ms_link::Link;
use ms_memory::MemoryLink;
use ms_record::ListId;
use std::alloc::Global;
use std::marker::Brand;
use std::sync::Wait;
use std::test::*;

const REFS: ListId = ListId(1);

/// Appends 2,000 texts, and answers how many the list has from place 1,990 on.
fn append_many<L: Link<FoldClosed> + Drop>(
    alloc: Global,
    board: &Common,
    mut pass: Know,
    mut link: L,
) -> u64
    requires board { board.now ≡ (L.sees link).board }
    requires ready { IsReady (L.sees link).board (L.sees link).service pass }
{
    for _number in 0..2_000u32 {
        if append(alloc, board, &mut pass, &mut link, REFS, b"ref").is_err() {
            return 0;
        }
    }
    match list(alloc, board, &mut pass, &mut link, REFS, 1_990) {
        Ok(texts) => texts.len(),
        Err(_) => 0,
    }
}

/// Puts a text and gets it again.
fn put_large<L: Link<FoldClosed> + Drop>(
    alloc: Global,
    board: &Common,
    mut pass: Know,
    mut link: L,
    text: &[u8],
) -> bool
    requires board { board.now ≡ (L.sees link).board }
    requires ready { IsReady (L.sees link).board (L.sees link).service pass }
{
    if put(alloc, board, &mut pass, &mut link, 1, text).is_err() {
        return false;
    }
    match get(alloc, board, &mut pass, &mut link, 1) {
        Ok(Some(found)) => found.as_slice() == text,
        _ => false,
    }
}

fn many_on<J: Naming, R: Wait + Drop + Copy>(
    rt: R,
    alloc: Global,
    board: &Common,
    passes: Vec<Know>,
) -> Result<u64, Fail>
    requires board { board.now ≡ J.board }
    requires passes { ArePasses board.now 33 passes.items }
{
    let (home, pass) = home::<J>(alloc, board, passes)?;
    let link = FaultLink::new(
        alloc,
        MemoryLink::new(rt, home),
        Vec::new(alloc),
        Fault::Pass,
    );
    Ok(append_many(alloc, board, pass, link))
}

fn large_on<J: Naming, R: Wait + Drop + Copy>(
    rt: R,
    alloc: Global,
    board: &Common,
    passes: Vec<Know>,
) -> Result<bool, Fail>
    requires board { board.now ≡ J.board }
    requires passes { ArePasses board.now 33 passes.items }
{
    let (home, pass) = home::<J>(alloc, board, passes)?;
    let text = vec![in alloc; 7u8; 1_048_576]?;
    Ok(put_large(
        alloc,
        board,
        pass,
        MemoryLink::new(rt, home),
        text.as_slice(),
    ))
}

#[test]
fn two_thousand_texts(rt: HostRuntime) -> Result<(), Fail> {
    let (board, passes) = Board::<FoldClosed>::new(rt.alloc(), 33)?;
    assert_eq!(&rt; many_on::<Brand, _>(rt, rt.alloc(), &board, passes)?, 10);
    Ok(())
}

#[test]
fn a_text_of_1_mib(rt: HostRuntime) -> Result<(), Fail> {
    let (board, passes) = Board::<FoldClosed>::new(rt.alloc(), 33)?;
    assert!(&rt; large_on::<Brand, _>(rt, rt.alloc(), &board, passes)?);
    Ok(())
}
