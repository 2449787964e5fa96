//! The three calls that change a service.

ghost use Rattle.std.specs.Prelude.{◌≡◌, ◌≤◌, IfOk, length};
ghost use Rattle.ms_fault.specs.Changes.{event_of, size_of, Changes};
ghost use Rattle.ms_link.specs.Links.{IsOnBoard, MayAdd, Stays, Learns};
ghost use Rattle.ms_core.specs.Views.{IsClosed};

use ms_base::limits::OBJECT_BYTES;
use ms_base::{Bytes, Name, NoMemory};
use ms_core::{Common, FoldClosed, Know};
use ms_link::{Link, LinkError};
use ms_record::{ListId, LogEvent};
use std::alloc::Global;

/// A change that is asked for.
#[derive(Clone, Copy)]
pub enum Change<'a> {
    Append {
        list: ListId,
        text: &'a [u8],
    },
    Put {
        generation: u32,
        name: &'a Name,
        text: &'a [u8],
    },
    DropBelow {
        generation: u32,
    },
}

/// The change as an event that owns its text.
pub(crate) fn kept(alloc: Global, change: Change) -> Result<LogEvent, NoMemory>
    ensures { IfOk result (λ event. event ≡ event_of change.entry) }
{
    Ok(match change {
        Change::Append { list, text } => LogEvent::Rec {
            list,
            text: Bytes::of(alloc, text)?,
        },
        Change::Put {
            generation,
            name,
            text,
        } => LogEvent::Put {
            generation,
            name: *name,
            text: Bytes::of(alloc, text)?,
        },
        Change::DropBelow { generation } => LogEvent::Drop { floor: generation },
    })
}

/// The change that an event was.
pub(crate) fn change_of(event: &LogEvent) -> Change<'_>
    ensures { event_of result ≡ event.now }
{
    match event {
        LogEvent::Rec { list, text } => Change::Append {
            list: *list,
            text: text.as_slice(),
        },
        LogEvent::Put {
            generation,
            name,
            text,
        } => Change::Put {
            generation: *generation,
            name,
            text: text.as_slice(),
        },
        LogEvent::Drop { floor } => Change::DropBelow { generation: *floor },
    }
}

/// Asks a link for the change.
pub(crate) fn send<L: Link<FoldClosed>>(
    link: &mut L,
    alloc: Global,
    board: &Common,
    pass: &mut Know,
    change: Change,
) -> Result<(), LinkError>
    requires board { IsOnBoard (L.sees link.old) board.now pass.old }
    requires short { size_of (event_of change) ≤ OBJECT_BYTES }
    requires closed { MayAdd IsClosed (L.sees link.old) pass.old (event_of change) }
    ensures changes { Changes (L.sees link.old) (L.sees link.new) pass.old pass.new (event_of change.entry) result }
    ensures link { Stays (L.sees link.old) (L.sees link.new) }
    ensures pass { Learns pass.old pass.new }
{
    match change {
        Change::Append { list, text } => link.append(alloc, board, pass, list, text),
        Change::Put {
            generation,
            name,
            text,
        } => link.put(alloc, board, pass, generation, name, text),
        Change::DropBelow { generation } => link.drop_below(alloc, board, pass, generation),
    }
}
