//! What two answers in turn come to, where links tell their lists and objects.

ghost use Rattle.std.specs.Prelude.{◌≡◌, ◌≤◌, ◌<◌, ◌↔◌, ℕ, length, true, Contains, Err, IfOk, IsTrue};
ghost use Rattle.ms_base.specs.Counts.{Rose};
ghost use Rattle.ms_link.specs.Links.{IsOnBoard, MayAdd, Stays, Learns};
ghost use Rattle.ms_link.specs.declared.fault.LinkError.TheVariants as errors;
ghost use Rattle.ms_record.specs.declared.log.LogEvent.TheVariants.{Rec, Put as Stored, Drop as Dropped};

use crate::fault::LinkError;
use crate::link::{Link, Texts};
use ms_base::limits::OBJECT_BYTES;
use ms_base::{Bytes, Name};
use ms_ken::{Board, Closed, Pass};
use ms_record::{Item, ListId};
use std::alloc::Global;

/// Whether one of the texts is this one.
fn has_text(texts: &Texts, text: &[u8]) -> bool
    ensures { IsTrue result ↔ Contains texts.now text.now }
{
    texts
        .as_slice()
        .iter()
        .any(|kept: &Bytes| kept.as_slice() == text)
}

/// Appends a text to a list, and answers whether the list then has it: it always does.
pub fn append_then_list<C: Closed<Event = Item>, L: Link<C>>(
    link: &mut L,
    alloc: Global,
    board: &Board<C>,
    pass: &mut Pass<C>,
    list: ListId,
    text: &[u8],
) -> Result<bool, LinkError>
    requires board { IsOnBoard (L.sees link.old) board.now pass.old }
    requires lists { (L.sees link.old).lists ≡ true }
    requires short { length text.now ≤ OBJECT_BYTES }
    requires closed { MayAdd C.closed (L.sees link.old) pass.old (Rec list text.now) }
    ensures there { IfOk result IsTrue }
    ensures link { Stays (L.sees link.old) (L.sees link.new) }
    ensures pass { Learns pass.old pass.new }
{
    link.append(alloc, board, pass, list, text)?;
    let texts = link.list(alloc, board, pass, list, 0)?;
    Ok(has_text(&texts, text))
}

/// Puts a text, and answers whether the service then has one under the name: it never says no.
pub fn put_then_has<C: Closed<Event = Item>, L: Link<C>>(
    link: &mut L,
    alloc: Global,
    board: &Board<C>,
    pass: &mut Pass<C>,
    generation: u32,
    name: &Name,
    text: &[u8],
) -> Result<bool, LinkError>
    requires board { IsOnBoard (L.sees link.old) board.now pass.old }
    requires lists { (L.sees link.old).lists ≡ true }
    requires objects { (L.sees link.old).objects ≡ true }
    requires short { length text.now ≤ OBJECT_BYTES }
    requires closed { MayAdd C.closed (L.sees link.old) pass.old (Stored generation name.now text.now) }
    ensures there { IfOk result IsTrue }
    ensures link { Stays (L.sees link.old) (L.sees link.new) }
    ensures pass { Learns pass.old pass.new }
{
    link.put(alloc, board, pass, generation, name, text)?;
    link.has(alloc, board, pass, generation, name)
}

/// Looks for a text, and puts one where the generation is below the floor. Answers whether the put was refused: it always is.
pub fn stale_then_put<C: Closed<Event = Item>, L: Link<C>>(
    link: &mut L,
    alloc: Global,
    board: &Board<C>,
    pass: &mut Pass<C>,
    generation: u32,
    name: &Name,
    text: &[u8],
) -> Result<bool, LinkError>
    requires board { IsOnBoard (L.sees link.old) board.now pass.old }
    requires lists { (L.sees link.old).lists ≡ true }
    requires objects { (L.sees link.old).objects ≡ true }
    requires short { length text.now ≤ OBJECT_BYTES }
    requires closed { MayAdd C.closed (L.sees link.old) pass.old (Stored generation name.now text.now) }
    ensures refused { IfOk result IsTrue }
    ensures link { Stays (L.sees link.old) (L.sees link.new) }
    ensures pass { Learns pass.old pass.new }
{
    let Err(error) = link.has(alloc, board, pass, generation, name) else {
        return Ok(true);
    };
    match error {
        LinkError::Stale { floor: _ } => {
            Ok(
                link.put(alloc, board, pass, generation, name, text)
                    .is_err(),
            )
        }
        LinkError::Failed | LinkError::NoMemory => Err(error),
    }
}

/// Drops what lies below a generation, and looks for a text there. Answers whether the look was refused: it always is.
pub fn drop_then_has<C: Closed<Event = Item>, L: Link<C>>(
    link: &mut L,
    alloc: Global,
    board: &Board<C>,
    pass: &mut Pass<C>,
    floor: u32,
    generation: u32,
    name: &Name,
) -> Result<bool, LinkError>
    requires board { IsOnBoard (L.sees link.old) board.now pass.old }
    requires lists { (L.sees link.old).lists ≡ true }
    requires objects { (L.sees link.old).objects ≡ true }
    requires below { generation < floor }
    requires closed { MayAdd C.closed (L.sees link.old) pass.old (Dropped floor) }
    ensures refused { IfOk result IsTrue }
    ensures link { Stays (L.sees link.old) (L.sees link.new) }
    ensures pass { Learns pass.old pass.new }
{
    link.drop_below(alloc, board, pass, floor)?;
    Ok(link.has(alloc, board, pass, generation, name).is_err())
}

/// Gets a text, and answers whether the service has one under the name: it never says no where a text was found.
pub fn get_then_has<C: Closed<Event = Item>, L: Link<C>>(
    link: &mut L,
    alloc: Global,
    board: &Board<C>,
    pass: &mut Pass<C>,
    generation: u32,
    name: &Name,
) -> Result<bool, LinkError>
    requires board { IsOnBoard (L.sees link.old) board.now pass.old }
    requires lists { (L.sees link.old).lists ≡ true }
    requires objects { (L.sees link.old).objects ≡ true }
    ensures there { IfOk result IsTrue }
    ensures link { Stays (L.sees link.old) (L.sees link.new) }
    ensures pass { Learns pass.old pass.new }
{
    if link.get(alloc, board, pass, generation, name)?.is_none() {
        return Ok(true);
    }
    link.has(alloc, board, pass, generation, name)
}

/// Appends a text. Where the answer is `Failed` the count of faults rose, and `Stale` never comes.
pub fn append_counted<C: Closed<Event = Item>, L: Link<C>>(
    link: &mut L,
    alloc: Global,
    board: &Board<C>,
    pass: &mut Pass<C>,
    list: ListId,
    text: &[u8],
) -> Result<(), LinkError>
    requires board { IsOnBoard (L.sees link.old) board.now pass.old }
    requires short { length text.now ≤ OBJECT_BYTES }
    requires closed { MayAdd C.closed (L.sees link.old) pass.old (Rec list text.now) }
    ensures rose { result ≡ Err errors.Failed → Rose (L.sees link.old).faults (L.sees link.new).faults }
    ensures never { (floor : ℕ) → result ≡ Err (errors.Stale floor) → ⊥ }
    ensures link { Stays (L.sees link.old) (L.sees link.new) }
    ensures pass { Learns pass.old pass.new }
{
    link.append(alloc, board, pass, list, text)
}
