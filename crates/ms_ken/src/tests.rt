//! A board whose views are closed where the numbers of each owner's list rise.

ghost use Rattle.std.specs.Prelude.{◌≡◌, ◌<◌, [], ◌∷◌, Some, IsSome, None, IfSome, slice_get};
ghost use Rattle.ms_ken.specs.Known.{ArePasses, known};
ghost use Rattle.ms_ken.specs.Lists.{Begins, longer_lists, with_told};

use crate::{Board, Closed, Naming, Pass, rule};
use std::marker::Brand;
use std::test::*;
use std::thread::{Threads, join};

/// Strictly rising numbers in each owner's list.
pub struct Rising;

impl Closed for Rising {
    type Event = u64;

    ghost use Rattle.ms_ken.specs.Rising.{AllRising, rising_of_nothing, rising_of_longer};

    ghost closed = { AllRising };

    ghost of_nothing = { rising_of_nothing };

    ghost of_longer = { rising_of_longer };
}

fn told<C: Closed>(board: &Board<C>, mut pass: Pass<C>, event: &C::Event) -> Pass<C>
    requires board { pass.board ≡ board.now }
    requires owner { IsSome pass.word }
    requires closed { C.closed (with_told pass.lists pass.word event.now) }
    ensures { result ≡ record pass { lists = with_told pass.lists pass.word event.now } }
{
    board.tell(&mut pass, event);
    pass
}

/// Two threads tell on their words, and meet.
fn both_tell<C: Closed + Send + Sync, R: Threads + Sync>(
    rt: &R,
    board: &Board<C>,
    one: Pass<C>,
    other: Pass<C>,
    a: &C::Event,
    b: &C::Event,
) -> (Pass<C>, Pass<C>)
where
    C::Event: Send + Sync,
    requires boards { (one.board ≡ board.now) × (other.board ≡ board.now) }
    requires owners { IsSome one.word × IsSome other.word }
    requires one { C.closed (with_told one.lists one.word a.now) }
    requires other { C.closed (with_told other.lists other.word b.now) }
    ensures one { result.0 ≡ record one { lists = longer_lists (with_told one.lists one.word a.now) (with_told other.lists other.word b.now) } }
    ensures other { result.1 ≡ record other { lists = longer_lists (with_told other.lists other.word b.now) (with_told one.lists one.word a.now) } }
    ensures same { result.0.lists ≡ result.1.lists }
{
    let (mut one, mut other) = join(
        rt,
        move || -> Pass<C>
            requires board { one.board ≡ board.now }
            requires owner { IsSome one.word }
            requires closed { C.closed (with_told one.lists one.word a.now) }
            ensures { result ≡ record one { lists = with_told one.lists one.word a.entry.now } }
        { told(board, one, a) },
        move || -> Pass<C>
            requires board { other.board ≡ board.now }
            requires owner { IsSome other.word }
            requires closed { C.closed (with_told other.lists other.word b.now) }
            ensures { result ≡ record other { lists = with_told other.lists other.word b.entry.now } }
        { told(board, other, b) },
    );
    board.meet(&mut one, &mut other);
    (one, other)
}

/// Both find both lists.
fn five_and_seven<J: Naming, R: Threads + Sync>(
    rt: &R,
    board: &Board<Rising>,
    one: Pass<Rising>,
    other: Pass<Rising>,
) -> (Pass<Rising>, Pass<Rising>)
    requires board { board.now ≡ J.board }
    requires one { one ≡ known J.board (Some 0) ([] ∷ [] ∷ []) }
    requires other { other ≡ known J.board (Some 1) ([] ∷ [] ∷ []) }
    ensures one { result.0 ≡ known J.board (Some 0) ((5 ∷ []) ∷ (7 ∷ []) ∷ []) }
    ensures other { result.1 ≡ known J.board (Some 1) ((5 ∷ []) ∷ (7 ∷ []) ∷ []) }
{
    both_tell(rt, board, one, other, &5, &7)
}

/// The other takes a note from before the tell.
fn note_before_tell<C: Closed>(
    board: &Board<C>,
    one: &mut Pass<C>,
    other: &mut Pass<C>,
    event: &C::Event,
)
    requires boards { (one.old.board ≡ board.now) × (other.old.board ≡ board.now) }
    requires owner { IsSome one.old.word }
    requires closed { C.closed (with_told one.old.lists one.old.word event.now) }
    ensures told { one.new ≡ record one.old { lists = with_told one.old.lists one.old.word event.now } }
    ensures taken { other.new ≡ record other.old { lists = longer_lists other.old.lists one.old.lists } }
    ensures prefix { Begins one.old.lists one.new.lists }
{
    let note = board.note(one);
    board.tell(one, event);
    board.take(other, note);
}

/// The other is one tell behind.
fn behind(board: &Board<Rising>, one: &mut Pass<Rising>, other: &mut Pass<Rising>)
    requires one { one.old ≡ known board.now (Some 0) ([] ∷ [] ∷ []) }
    requires other { other.old ≡ known board.now (Some 1) ([] ∷ [] ∷ []) }
    ensures one { one.new ≡ known board.now (Some 0) ((5 ∷ 7 ∷ []) ∷ [] ∷ []) }
    ensures other { other.new ≡ known board.now (Some 1) ((5 ∷ []) ∷ [] ∷ []) }
{
    note_before_tell(board, one, other, &5);
    note_before_tell(board, one, other, &7);
}

#[test]
fn two_threads_meet(rt: HostRuntime) -> Result<(), Fail> {
    let (board, mut passes) = Board::<Rising>::new(rt.alloc(), 2)?;
    let Some(other) = passes.pop() else {
        unreachable!()
    };
    let Some(one) = passes.pop() else {
        unreachable!()
    };
    let (one, other) = five_and_seven::<Brand, _>(&rt, &board, one, other);
    one.recall();
    other.recall();
    Ok(())
}

#[test]
fn note_from_before_a_tell(rt: HostRuntime) -> Result<(), Fail> {
    let (board, mut passes) = Board::<Rising>::new(rt.alloc(), 2)?;
    let Some(mut other) = passes.pop() else {
        unreachable!()
    };
    let Some(mut one) = passes.pop() else {
        unreachable!()
    };
    behind(&board, &mut one, &mut other);
    board.meet(&mut one, &mut other);
    rule::<u64>();
    Ok(())
}

#[test]
fn thirty_three_owners(rt: HostRuntime) -> Result<(), Fail> {
    let (board, mut passes) = Board::<Rising>::new(rt.alloc(), 33)?;
    assert_eq!(rt; passes.len(), 33);
    let Some(mut last) = passes.pop() else {
        unreachable!()
    };
    board.tell(&mut last, &9);
    last.recall();
    Ok(())
}
