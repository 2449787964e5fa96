//! Changes that are done later.

ghost use Rattle.std.specs.Prelude.{◌≡◌, ◌<◌, All};
ghost use Rattle.ms_fault.specs.Late.{IsDue, waiting};
ghost use Rattle.ms_link.specs.Links.{Stays};

use crate::change::{change_of, send};
use ms_core::{Common, FoldClosed, Know};
use ms_link::Link;
use ms_record::LogEvent;
use std::alloc::Global;

/// A change that was sent and is not done yet: what its sender knew, and the number of the call before which it is done.
#[derive(Drop)]
pub struct LateChange {
    pub note: Know,
    pub event: LogEvent,
    pub before: u64,
}

/// Does the change with the note that it was sent with, where it is done before this call.
fn do_due<L: Link<FoldClosed>>(
    link: &mut L,
    alloc: Global,
    board: &Common,
    change: &mut LateChange,
    call: u64,
)
    requires board { board.now ≡ (L.sees link.old).board }
    requires due { IsDue (L.sees link.old) change.old }
    ensures before { change.new.before ≡ change.old.before }
    ensures waits { call < change.old.before → change.new ≡ change.old }
    ensures idle { call < change.old.before → L.sees link.new ≡ L.sees link.old }
    ensures link { Stays (L.sees link.old) (L.sees link.new) }
{
    if change.before > call {
        return;
    }
    let _ = send(
        link,
        alloc,
        board,
        &mut change.note,
        change_of(&change.event),
    );
}

/// Does the changes that are done before this call, in the order in which they were sent.
pub(crate) fn catch_up<L: Link<FoldClosed>>(
    link: &mut L,
    late: &mut Vec<LateChange>,
    call: u64,
    alloc: Global,
    board: &Common,
)
    requires board { board.now ≡ (L.sees link.old).board }
    requires due { All (IsDue (L.sees link.old)) late.old.items }
    ensures due { All (IsDue (L.sees link.old)) late.new.items }
    ensures waiting { late.new.items ≡ waiting call late.old.items }
    ensures idle { waiting call late.old.items ≡ late.old.items → L.sees link.new ≡ L.sees link.old }
    ensures link { Stays (L.sees link.old) (L.sees link.new) }
{
    for change in late.iter_mut() {
        do_due(link, alloc, board, change, call);
    }
    late.retain(|change| change.before > call);
}
