//! The trait of links.

ghost use Rattle.std.specs.Prelude.{◌≡◌, ◌≤◌, length};
ghost use Rattle.ms_link.specs.Links.{LinkView, IsOnBoard, MayAdd, Stays, Learns, Tells, Puts, Lists, Has, Gets};
ghost use Rattle.ms_record.specs.declared.log.LogEvent.TheVariants.{Rec, Put as Stored, Drop as Dropped};

use crate::fault::LinkError;
use ms_base::limits::OBJECT_BYTES;
use ms_base::{Bytes, Items, Name, ServiceId};
use ms_ken::{Board, Closed, Pass};
use ms_record::{Item, ListId};
use std::alloc::Global;

/// The texts of a list, in order.
pub type Texts = Items<Bytes>;

/// A way to one service, which keeps append-only lists, and objects under their names in generations. The service drops
/// what lies below its *floor*: the greatest generation that a drop named, 0 at first.
///
/// Each call is told the board of its link and a pass of it. A change may be asked for only where, whatever else is known by
/// then, its event may stand at the end of the service's list (`docs/PROTOCOL.md`, closed views).
///
/// A link *tells its lists* where the events of its service are items of the board. The pass then knows the events that an
/// answer rests on. It *tells its objects* where `has` and `get` answer by these events too. Every call may answer
/// `NoMemory`.
pub trait Link<C: Closed<Event = Item>> {
    ghost sees: { Self → LinkView };

    /// The service that it leads to.
    fn service(&self) -> ServiceId
        ensures { result.0 ≡ (sees self.now).service };

    /// How many calls failed. At its type's end the count stands still.
    fn faults(&self) -> u64
        ensures { result ≡ (sees self.now).faults };

    /// Appends a text to a list of the service. `Failed` where the service could not be reached.
    fn append(
        &mut self,
        alloc: Global,
        board: &Board<C>,
        pass: &mut Pass<C>,
        list: ListId,
        text: &[u8],
    ) -> Result<(), LinkError>
        requires board { IsOnBoard (sees self.old) board.now pass.old }
        requires short { length text.now ≤ OBJECT_BYTES }
        requires closed { MayAdd C.closed (sees self.old) pass.old (Rec list text.now) }
        ensures tells { Tells (sees self.old) (sees self.new) pass.old pass.new (Rec list text.now) result }
        ensures link { Stays (sees self.old) (sees self.new) }
        ensures pass { Learns pass.old pass.new };

    /// The texts of a list of the service, from this place on, to an end that is at least as far as the pass knew.
    /// `Failed` where the service could not be reached.
    fn list(
        &mut self,
        alloc: Global,
        board: &Board<C>,
        pass: &mut Pass<C>,
        list: ListId,
        from: u64,
    ) -> Result<Texts, LinkError>
        requires board { IsOnBoard (sees self.old) board.now pass.old }
        ensures lists { Lists (sees self.old) (sees self.new) pass.new list.0 from result }
        ensures link { Stays (sees self.old) (sees self.new) }
        ensures pass { Learns pass.old pass.new };

    /// Keeps a text under a name in a generation. `Stale` where the generation lies below the service's floor; `Failed`
    /// where the service could not be reached.
    fn put(
        &mut self,
        alloc: Global,
        board: &Board<C>,
        pass: &mut Pass<C>,
        generation: u32,
        name: &Name,
        text: &[u8],
    ) -> Result<(), LinkError>
        requires board { IsOnBoard (sees self.old) board.now pass.old }
        requires short { length text.now ≤ OBJECT_BYTES }
        requires closed { MayAdd C.closed (sees self.old) pass.old (Stored generation name.now text.now) }
        ensures puts { Puts (sees self.old) (sees self.new) pass.old pass.new generation (Stored generation name.now text.now) result }
        ensures link { Stays (sees self.old) (sees self.new) }
        ensures pass { Learns pass.old pass.new };

    /// Whether a text is kept under a name in a generation. `Stale` where the generation lies below the service's floor;
    /// `Failed` where the service could not be reached.
    fn has(
        &mut self,
        alloc: Global,
        board: &Board<C>,
        pass: &mut Pass<C>,
        generation: u32,
        name: &Name,
    ) -> Result<bool, LinkError>
        requires board { IsOnBoard (sees self.old) board.now pass.old }
        ensures has { Has (sees self.old) (sees self.new) pass.new generation name.now result }
        ensures link { Stays (sees self.old) (sees self.new) }
        ensures pass { Learns pass.old pass.new };

    /// A text that is kept under a name in a generation. `Stale` where the generation lies below the service's floor; `Failed`
    /// where the service could not be reached.
    fn get(
        &mut self,
        alloc: Global,
        board: &Board<C>,
        pass: &mut Pass<C>,
        generation: u32,
        name: &Name,
    ) -> Result<Option<Bytes>, LinkError>
        requires board { IsOnBoard (sees self.old) board.now pass.old }
        ensures gets { Gets (sees self.old) (sees self.new) pass.new generation name.now result }
        ensures link { Stays (sees self.old) (sees self.new) }
        ensures pass { Learns pass.old pass.new };

    /// Drops what the service keeps in the generations below this one. `Failed` where the service could not be reached.
    fn drop_below(
        &mut self,
        alloc: Global,
        board: &Board<C>,
        pass: &mut Pass<C>,
        generation: u32,
    ) -> Result<(), LinkError>
        requires board { IsOnBoard (sees self.old) board.now pass.old }
        requires closed { MayAdd C.closed (sees self.old) pass.old (Dropped generation) }
        ensures tells { Tells (sees self.old) (sees self.new) pass.old pass.new (Dropped generation) result }
        ensures link { Stays (sees self.old) (sees self.new) }
        ensures pass { Learns pass.old pass.new };
}
