//! A board on which nothing is claimed, so that any event may follow; tables of calls on links over service 0.

ghost use Rattle.std.specs.Prelude.{◌≡◌, [], Some, IfOk, IfSome};
ghost use Rattle.std.specs.Arc.{arc_value};
ghost use Rattle.link_tests.specs.Untold.{IsReady, KnowsUntold};
ghost use Rattle.ms_ken.specs.Known.{ArePasses};
ghost use Rattle.ms_ken.specs.Lists.{list_at};

use crate::call::{Answer, Call, is_done, is_got, is_listed, is_seen};
use ms_base::limits::OBJECT_BYTES;
use ms_base::{Bytes, Name, ServiceId};
use ms_core::{Common, FoldClosed, Know};
use ms_fault::{Fault, FaultLink};
use ms_ken::{Board, Naming};
use ms_link::{Link, LinkError, Texts};
use ms_memory::{MemoryLink, MemoryService};
use ms_record::{Item, ListId};
use std::alloc::Global;
use std::marker::Brand;
use std::sync::{Arc, Wait};
use std::test::*;

pub(crate) const NAME: Name = Name([7; 32]);

/// Two links with faults, one inside the other, over a link to a service; calls on the outer one with their answers; and how many of
/// them it counts as failed.
#[derive(Clone, Copy)]
pub(crate) struct Case<'a> {
    pub(crate) inner: &'a [Fault],
    pub(crate) script: &'a [Fault],
    pub(crate) rest: Fault,
    pub(crate) steps: &'a [(Call<'a>, Answer<'a>)],
    pub(crate) faults: u64,
}

/// The passes of the configuration, which tells that nothing is claimed, and of service 0, which knows it.
pub(crate) fn begun(board: &Common, mut passes: Vec<Know>) -> Option<(Know, Know)>
    requires { ArePasses board.now 33 passes.items }
    ensures configuration { IfSome result (λ r. (r.0.board ≡ board.now) × KnowsUntold r.0.lists) }
    ensures service { IfSome result (λ r. (r.1.board ≡ board.now) × (r.1.word ≡ Some 0) × (list_at r.1.lists 0 ≡ []) × KnowsUntold r.1.lists) }
{
    let mut configuration = passes.pop()?;
    passes.truncate(1);
    let mut service = passes.pop()?;
    board.tell(&mut configuration, &Item::Untold);
    board.take(&mut service, board.note(&mut configuration));
    Some((configuration, service))
}

/// Service 0 behind its lock, and the pass of the configuration, which owns its word.
pub(crate) fn home<J: Naming>(
    alloc: Global,
    board: &Common,
    passes: Vec<Know>,
) -> Result<(Arc<MemoryService<J>, Global>, Know), Fail>
    requires board { board.now ≡ J.board }
    requires passes { ArePasses board.now 33 passes.items }
    ensures service { IfOk result (λ r. arc_value r.0 ≡ 0) }
    ensures pass { IfOk result (λ r. IsReady J.board 0 r.1) }
{
    let (pass, service) = begun(board, passes).ok_or("passes")?;
    let service = MemoryService::<J>::new(alloc, ServiceId(0), service)?;
    Ok((Arc::new(alloc, service)?, pass))
}

/// Appends a text, which is asked for where it is not too long. On this board any event may follow.
pub(crate) fn append<L: Link<FoldClosed>>(
    alloc: Global,
    board: &Common,
    pass: &mut Know,
    link: &mut L,
    list: ListId,
    text: &[u8],
) -> Result<(), LinkError>
    requires board { board.now ≡ (L.sees link.old).board }
    requires ready { IsReady (L.sees link.old).board (L.sees link.old).service pass.old }
    ensures ready { IsReady (L.sees link.new).board (L.sees link.new).service pass.new }
    ensures board { (L.sees link.new).board ≡ (L.sees link.old).board }
{
    if text.len() > OBJECT_BYTES as usize {
        return Err(LinkError::NoMemory);
    }
    link.append(alloc, board, pass, list, text)
}

pub(crate) fn put<L: Link<FoldClosed>>(
    alloc: Global,
    board: &Common,
    pass: &mut Know,
    link: &mut L,
    generation: u32,
    text: &[u8],
) -> Result<(), LinkError>
    requires board { board.now ≡ (L.sees link.old).board }
    requires ready { IsReady (L.sees link.old).board (L.sees link.old).service pass.old }
    ensures ready { IsReady (L.sees link.new).board (L.sees link.new).service pass.new }
    ensures board { (L.sees link.new).board ≡ (L.sees link.old).board }
{
    if text.len() > OBJECT_BYTES as usize {
        return Err(LinkError::NoMemory);
    }
    link.put(alloc, board, pass, generation, &NAME, text)
}

pub(crate) fn drop_below<L: Link<FoldClosed>>(
    alloc: Global,
    board: &Common,
    pass: &mut Know,
    link: &mut L,
    generation: u32,
) -> Result<(), LinkError>
    requires board { board.now ≡ (L.sees link.old).board }
    requires ready { IsReady (L.sees link.old).board (L.sees link.old).service pass.old }
    ensures ready { IsReady (L.sees link.new).board (L.sees link.new).service pass.new }
    ensures board { (L.sees link.new).board ≡ (L.sees link.old).board }
{
    link.drop_below(alloc, board, pass, generation)
}

pub(crate) fn list<L: Link<FoldClosed>>(
    alloc: Global,
    board: &Common,
    pass: &mut Know,
    link: &mut L,
    list: ListId,
    from: u64,
) -> Result<Texts, LinkError>
    requires board { board.now ≡ (L.sees link.old).board }
    requires ready { IsReady (L.sees link.old).board (L.sees link.old).service pass.old }
    ensures ready { IsReady (L.sees link.new).board (L.sees link.new).service pass.new }
    ensures board { (L.sees link.new).board ≡ (L.sees link.old).board }
{
    link.list(alloc, board, pass, list, from)
}

pub(crate) fn has<L: Link<FoldClosed>>(
    alloc: Global,
    board: &Common,
    pass: &mut Know,
    link: &mut L,
    generation: u32,
) -> Result<bool, LinkError>
    requires board { board.now ≡ (L.sees link.old).board }
    requires ready { IsReady (L.sees link.old).board (L.sees link.old).service pass.old }
    ensures ready { IsReady (L.sees link.new).board (L.sees link.new).service pass.new }
    ensures board { (L.sees link.new).board ≡ (L.sees link.old).board }
{
    link.has(alloc, board, pass, generation, &NAME)
}

pub(crate) fn get<L: Link<FoldClosed>>(
    alloc: Global,
    board: &Common,
    pass: &mut Know,
    link: &mut L,
    generation: u32,
) -> Result<Option<Bytes>, LinkError>
    requires board { board.now ≡ (L.sees link.old).board }
    requires ready { IsReady (L.sees link.old).board (L.sees link.old).service pass.old }
    ensures ready { IsReady (L.sees link.new).board (L.sees link.new).service pass.new }
    ensures board { (L.sees link.new).board ≡ (L.sees link.old).board }
{
    link.get(alloc, board, pass, generation, &NAME)
}

/// Whether the call is answered so.
fn answers<L: Link<FoldClosed>>(
    alloc: Global,
    board: &Common,
    pass: &mut Know,
    link: &mut L,
    call: Call<'_>,
    expected: Answer<'_>,
) -> bool
    requires board { board.now ≡ (L.sees link.old).board }
    requires ready { IsReady (L.sees link.old).board (L.sees link.old).service pass.old }
    ensures ready { IsReady (L.sees link.new).board (L.sees link.new).service pass.new }
    ensures board { (L.sees link.new).board ≡ (L.sees link.old).board }
{
    match call {
        Call::Append(number, byte) => {
            is_done(
                append(alloc, board, pass, link, ListId(number), &[byte]),
                expected,
            )
        }
        Call::List(number, from) => {
            is_listed(
                list(alloc, board, pass, link, ListId(number), from),
                expected,
            )
        }
        Call::Put(generation, text) => is_done(
            put(alloc, board, pass, link, generation, text),
            expected,
        ),
        Call::Has(generation) => is_seen(has(alloc, board, pass, link, generation), expected),
        Call::Get(generation) => is_got(get(alloc, board, pass, link, generation), expected),
        Call::Drop(generation) => is_done(
            drop_below(alloc, board, pass, link, generation),
            expected,
        ),
    }
}

/// Whether the calls are answered so, in order, and the link then counts so many faults.
pub(crate) fn plays<L: Link<FoldClosed> + Drop>(
    alloc: Global,
    board: &Common,
    mut pass: Know,
    mut link: L,
    steps: &[(Call<'_>, Answer<'_>)],
    faults: u64,
) -> bool
    requires board { board.now ≡ (L.sees link).board }
    requires ready { IsReady (L.sees link).board (L.sees link).service pass }
{
    for step in steps {
        if !answers(alloc, board, &mut pass, &mut link, step.0, step.1) {
            return false;
        }
    }
    link.faults() == faults && link.service() == ServiceId(0)
}

fn is_played_on<J: Naming, R: Wait + Drop + Copy>(
    rt: R,
    alloc: Global,
    board: &Common,
    passes: Vec<Know>,
    case: Case<'_>,
) -> Result<bool, Fail>
    requires board { board.now ≡ J.board }
    requires passes { ArePasses board.now 33 passes.items }
{
    let (home, pass) = home::<J>(alloc, board, passes)?;
    let script = Vec::from_slice(alloc, case.inner)?;
    let inner = FaultLink::new(alloc, MemoryLink::new(rt, home), script, Fault::Pass);
    let script = Vec::from_slice(alloc, case.script)?;
    let link = FaultLink::new(alloc, inner, script, case.rest);
    Ok(plays(alloc, board, pass, link, case.steps, case.faults))
}

/// Whether the case goes so on a new board.
pub(crate) fn is_played<R: Wait + Drop + Copy>(
    rt: R,
    alloc: Global,
    case: Case<'_>,
) -> Result<bool, Fail> {
    let (board, passes) = Board::<FoldClosed>::new(alloc, 33)?;
    is_played_on::<Brand, _>(rt, alloc, &board, passes, case)
}
