//! The desk of a client: all that it works with, and what was done there.

ghost use Rattle.std.specs.Prelude.{◌≡◌, OnOk, OnErr};
ghost use Rattle.ms_local.specs.Desks.{IsDesk, desk_view, with_deed};
ghost use Rattle.ms_local.specs.declared.deed.Deed.TheVariants.{Begun};

use crate::deed::{Deed, Deeds};
use crate::outside::{Keeper, Work};
use ms_base::{ClientId, NoMemory};
use ms_core::{Common, FoldClosed, Know};
use ms_link::Link;
use std::alloc::Global;
use std::sync::Arc;

/// The links to all services, each at the place of its service's number. A lane is worked by one thread at a time.
#[derive(Drop)]
pub struct Lane<L> {
    pub links: Vec<L>,
}

/// A client's work folder, its keeper and its links, the board and what the client knows of it, the number of services, and the
/// deeds so far.
#[derive(Drop)]
pub struct Desk<W, K, L> {
    pub client: ClientId,
    pub board: Arc<Common, Global>,
    pub pass: Know,
    pub work: W,
    pub keep: K,
    pub lanes: Vec<Lane<L>>,
    pub services: u32,
    pub deeds: Deeds,
}

/// Notes that a line begins: 1 for a single command, the number of the line in a script. Refused, it changes nothing.
pub fn begin_line<W: Work + Drop, K: Keeper + Drop, L: Link<FoldClosed> + Drop>(
    desk: &mut Desk<W, K, L>,
    line: u32,
) -> Result<(), NoMemory>
    requires { IsDesk (desk_view W.sees K.sees L.sees desk.old) }
    ensures ok { OnOk result (desk_view W.sees K.sees L.sees desk.new ≡ with_deed (desk_view W.sees K.sees L.sees desk.old) (Begun line)) }
    ensures err { OnErr result (desk_view W.sees K.sees L.sees desk.new ≡ desk_view W.sees K.sees L.sees desk.old) }
    ensures desk { IsDesk (desk_view W.sees K.sees L.sees desk.new) }
{
    desk.deeds.push(Deed::Begun { line })
}
