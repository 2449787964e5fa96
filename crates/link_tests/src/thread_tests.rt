//! Links, passes and the board in threads.

ghost use Rattle.std.specs.Prelude.{◌≡◌};
ghost use Rattle.std.specs.Arc.{arc_value};
ghost use Rattle.link_tests.specs.Untold.{IsReady};
ghost use Rattle.ms_ken.specs.Known.{ArePasses};

use crate::untold::{append, home, list};
use ms_base::Bytes;
use ms_core::{Common, FoldClosed, Know};
use ms_fault::{Fault, FaultLink};
use ms_ken::{Board, Naming};
use ms_link::{Link, LinkError};
use ms_memory::MemoryLink;
use ms_record::ListId;
use std::alloc::Global;
use std::marker::Brand;
use std::process::Abort;
use std::sync::{Arc, Wait};
use std::test::*;
use std::thread::{Threads, join};

const VOTES: ListId = ListId(0);

/// Appends a hundred texts, of which each has the mark and its number.
fn append_hundred<L: Link<FoldClosed> + Drop>(
    alloc: Global,
    board: &Common,
    mut pass: Know,
    mut link: L,
    mark: u8,
) -> bool
    requires board { board.now ≡ (L.sees link).board }
    requires ready { IsReady (L.sees link).board (L.sees link).service pass }
{
    for number in 0..100u8 {
        let text = [mark, number];
        if append(alloc, board, &mut pass, &mut link, VOTES, &text).is_err() {
            return false;
        }
    }
    true
}

/// Whether the texts of this mark are a hundred, in the order of their numbers.
fn is_hundred(texts: &[Bytes], mark: u8) -> bool {
    let mut next = 0u8;
    for text in texts {
        if let [first, number] = text.as_slice() {
            if *first == mark {
                if *number != next || next >= 100 {
                    return false;
                }
                next += 1;
            }
        }
    }
    next == 100
}

/// The pass of the configuration, which owns its word, a link with faults and the board go into one thread; a note and another link into a second.
fn threads_on<J: Naming + Send + Sync, R: Threads + Wait + Abort + Copy + Drop + Send + Sync>(
    rt: R,
    alloc: Global,
    board: Arc<Common, Global>,
    passes: Vec<Know>,
) -> Result<(), Fail>
    requires board { arc_value board ≡ J.board }
    requires passes { ArePasses (arc_value board) 33 passes.items }
{
    let (home, mut pass) = home::<J>(alloc, &board, passes)?;
    let two = board.note(&mut pass);
    let mut three = board.note(&mut pass);
    let here = Arc::try_clone(&board)?;
    let there = Arc::try_clone(&board)?;
    let first = FaultLink::new(
        alloc,
        MemoryLink::new(rt, Arc::try_clone(&home)?),
        Vec::new(alloc),
        Fault::Pass,
    );
    let second = MemoryLink::new(rt, Arc::try_clone(&home)?);
    let (a, b) = join(
        &rt,
        move || -> bool
            requires board { arc_value here ≡ J.board }
            requires link { (first.inner.board ≡ J.board) × (first.inner.service ≡ 0) }
            requires ready { IsReady J.board 0 pass }
        { append_hundred(alloc, &here, pass, first, 1) },
        move || -> bool
            requires board { arc_value there ≡ J.board }
            requires service { second ≡ 0 }
            requires ready { IsReady J.board 0 two }
        { append_hundred(alloc, &there, two, second, 2) },
    );
    if !a || !b {
        return Err(Fail::from(LinkError::NoMemory));
    }
    let mut link = MemoryLink::new(rt, home);
    let texts = list(alloc, &board, &mut three, &mut link, VOTES, 0)?;
    assert_eq!(&rt; texts.len(), 200);
    assert!(&rt; is_hundred(texts.as_slice(), 1));
    assert!(&rt; is_hundred(texts.as_slice(), 2));
    Ok(())
}

#[test]
fn two_threads_append(rt: HostRuntime) -> Result<(), Fail> {
    let (board, passes) = Board::<FoldClosed>::new(rt.alloc(), 33)?;
    threads_on::<Brand, _>(rt, rt.alloc(), Arc::new(rt.alloc(), board)?, passes)
}
