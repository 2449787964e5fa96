//! Proposals and catching up of clients at desks of their own, and what they come to.

ghost use Rattle.std.specs.Prelude.{◌≡◌, ◌≤◌, ◌<◌, ℕ, Some, length};
ghost use Rattle.ms_base.specs.declared.limits.TheConstants.{LAST_NUMBER, SERVICES};
ghost use Rattle.ms_ken.specs.Known.{ArePasses};
ghost use Rattle.ms_local.specs.Desks.{desk_view};
ghost use Rattle.ms_record.specs.declared.entry.Entry.{Entry as EntryData};
ghost use Rattle.bid_tests.specs.Bidding.{IsSeat};

use crate::bidding::{Bidder, entry_of, round_in, seat_of, setting_of, state_of, voters_of};
use crate::shelves::{Shelf, shelves_of};
use ms_base::FreeGate;
use ms_base::limits::LAST_NUMBER;
use ms_chain::Chain;
use ms_core::{Common, FoldClosed, Know};
use ms_ken::{Board, Naming};
use ms_link::Link;
use ms_local::{Desk, Keeper, Kept, Work};
use ms_propose::{Decided, catch_up, propose};
use ms_record::{Entry, Refusal, Setting, entry_name};
use std::alloc::Global;
use std::marker::Brand;

/// What a proposal came to: the answer, the client's kept round, the round that its keeper has, and what the services then hold.
#[derive(Drop)]
pub(crate) struct Proposed {
    pub(crate) answer: Result<Option<Decided>, Refusal>,
    pub(crate) round: u32,
    pub(crate) kept: u32,
    pub(crate) shelves: Vec<Shelf>,
}

/// What catching up came to: the answer, the chain, the kept round, and what the services then hold.
#[derive(Drop)]
pub(crate) struct CaughtUp {
    pub(crate) answer: Result<u32, Refusal>,
    pub(crate) chain: Chain,
    pub(crate) round: u32,
    pub(crate) shelves: Vec<Shelf>,
}

/// The first entry of the client, where it is wanted.
fn want_of(client: u32, is_wanted: bool, setting: &Setting) -> Option<Entry>
    ensures { (e : EntryData) → result ≡ Some e → e.client.0 ≡ client }
{
    if is_wanted {
        Some(entry_of(client, entry_name(&setting.genesis)))
    } else {
        None
    }
}

/// The client proposes its first entry at the position, or settles it.
fn propose_at<W: Work + Drop, K: Keeper + Drop, L: Link<FoldClosed> + Drop>(
    alloc: Global,
    desk: &mut Desk<W, K, L>,
    kept: &mut Kept,
    setting: &Setting,
    position: u32,
    is_wanted: bool,
) -> Result<Option<Decided>, Refusal>
    requires seat { IsSeat setting.now (desk_view W.sees K.sees L.sees desk.old) kept.old }
    requires some { 1 ≤ setting.now.services }
    requires few { setting.now.services ≤ SERVICES }
    requires position { 1 ≤ position }
{
    let want = want_of(desk.client.0, is_wanted, setting);
    let voters = voters_of(setting.services);
    propose(
        alloc, desk, kept, setting, &voters, position, want, &FreeGate,
    )
}

/// A client proposes over services of these shelves.
fn propose_new_on<J: Naming>(
    alloc: Global,
    board: Common,
    passes: Vec<Know>,
    shelves: Vec<Shelf>,
    bidder: Bidder<'_>,
    position: u32,
    is_wanted: bool,
) -> Option<Proposed>
    requires board { board ≡ J.board }
    requires passes { ArePasses board 33 passes.items }
{
    let services = shelves.len();
    if services == 0
        || services > 16
        || bidder.client > 1
        || bidder.round > LAST_NUMBER
        || position == 0
    {
        return None;
    }
    let setting = setting_of(services as u32);
    let mut kept = state_of(bidder.round);
    let mut desk = seat_of::<J>(alloc, board, passes, shelves, &setting, bidder, &kept)?;
    let answer = propose_at(alloc, &mut desk, &mut kept, &setting, position, is_wanted);
    let in_keeper = round_in(alloc, &mut desk.keep)?;
    Some(Proposed {
        answer,
        round: kept.round,
        kept: in_keeper,
        shelves: shelves_of::<J>(alloc, desk)?,
    })
}

/// What comes of it where a client proposes its first entry at the position, or settles it, over services of these shelves.
pub(crate) fn propose_new(
    alloc: Global,
    shelves: Vec<Shelf>,
    bidder: Bidder<'_>,
    position: u32,
    is_wanted: bool,
) -> Option<Proposed> {
    match Board::<FoldClosed>::new(alloc, 33) {
        Ok((board, passes)) => {
            propose_new_on::<Brand>(alloc, board, passes, shelves, bidder, position, is_wanted)
        }
        Err(_) => None,
    }
}

/// The client catches up with a new chain.
fn catch_up_at<W: Work + Drop, K: Keeper + Drop, L: Link<FoldClosed> + Drop>(
    alloc: Global,
    desk: &mut Desk<W, K, L>,
    kept: &mut Kept,
    setting: &Setting,
) -> Option<(Result<u32, Refusal>, Chain)>
    requires seat { IsSeat setting.now (desk_view W.sees K.sees L.sees desk.old) kept.old }
{
    let mut chain = Chain::new(alloc, setting).ok()?;
    let answer = catch_up(alloc, desk, kept, &mut chain, setting, &FreeGate);
    Some((answer, chain))
}

/// A client catches up over services of these shelves.
fn caught_up_on<J: Naming>(
    alloc: Global,
    board: Common,
    passes: Vec<Know>,
    shelves: Vec<Shelf>,
    bidder: Bidder<'_>,
) -> Option<CaughtUp>
    requires board { board ≡ J.board }
    requires passes { ArePasses board 33 passes.items }
{
    let services = shelves.len();
    if services == 0 || services > 16 || bidder.client > 1 || bidder.round > LAST_NUMBER {
        return None;
    }
    let setting = setting_of(services as u32);
    let mut kept = state_of(bidder.round);
    let mut desk = seat_of::<J>(alloc, board, passes, shelves, &setting, bidder, &kept)?;
    let (answer, chain) = catch_up_at(alloc, &mut desk, &mut kept, &setting)?;
    Some(CaughtUp {
        answer,
        chain,
        round: kept.round,
        shelves: shelves_of::<J>(alloc, desk)?,
    })
}

/// What comes of it where a client catches up over services of these shelves.
pub(crate) fn caught_up(
    alloc: Global,
    shelves: Vec<Shelf>,
    bidder: Bidder<'_>,
) -> Option<CaughtUp> {
    match Board::<FoldClosed>::new(alloc, 33) {
        Ok((board, passes)) => { caught_up_on::<Brand>(alloc, board, passes, shelves, bidder) }
        Err(_) => None,
    }
}
