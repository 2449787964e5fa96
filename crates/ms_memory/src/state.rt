//! What lies under a service's lock.

ghost use Rattle.std.specs.Prelude.{◌≡◌, ◌↔◌, ◌<◌, [], drop, length, Some, IfOk, IsSome, IsTrue};
ghost use Rattle.ms_record.specs.Floors.{IsFloor};
ghost use Rattle.ms_core.specs.Views.{IsClosed, configuration};
ghost use Rattle.ms_ken.specs.Lists.{list_at, MayFollow, with_told};
ghost use Rattle.ms_link.specs.Links.{Learns};
ghost use Rattle.ms_record.specs.declared.item.Item.TheVariants.{Log};
ghost use Rattle.ms_record.specs.Logs.{HasPut, texts_in, NoDropAbove};

use crate::shelf::Shelf;
use ms_base::{Bytes, Name, NoMemory, ServiceId};
use ms_core::{Common, Know};
use ms_ken::Naming;
use ms_link::{LinkError, Texts};
use ms_record::{Item, ListId, LogEvent};
use std::alloc::Global;
use std::marker::{Model, PhantomData};

/// A service: its lists and texts, and the pass in which its log stands. The log is the list of that pass for the service's
/// word, and takes no memory. To a contract it is its number and its log.
#[derive(Drop)]
pub struct ServiceState<J: Naming> {
    service: ServiceId,
    shelf: Shelf,
    pass: Know,
    of: PhantomData<J>,
}

impl<J: Naming> Model for ServiceState<J> {
    ghost use Rattle.ms_core.specs.Views.{log_in};
    ghost use Rattle.ms_memory.specs.Served.{Served, served, Agrees};

    ghost Value = { Served };

    ghost view = { λ s. served s.service.0 (log_in s.pass.lists s.service.0) };

    ghost invariant = { λ s. Agrees J.board s.service.0 s.shelf s.pass };
}

impl<J: Naming> ServiceState<J> {
    ghost use Rattle.ms_memory.specs.Served.{served, Adds, KnowsLog};
    ghost use Rattle.ms_memory.specs.Shelves.{IsFirstPut};

    /// A service to which nothing has happened.
    pub(crate) fn new(alloc: Global, service: ServiceId, pass: Know) -> ServiceState<J>
        requires board { pass.board ≡ J.board }
        requires word { pass.word ≡ Some service.0 }
        requires empty { list_at pass.lists service.0 ≡ [] }
        requires told { 0 < length (list_at pass.lists configuration) }
        ensures { result ≡ served service.0 [] }
    {
        ServiceState {
            service,
            shelf: Shelf::new(alloc),
            pass,
            of: PhantomData,
        }
    }

    /// Its number.
    pub fn service(&self) -> ServiceId
        ensures { result.0 ≡ self.now.service }
    {
        self.service
    }

    /// Adds a copy of the event to the log. `Stale` where it is a put below the floor.
    pub fn add(
        &mut self,
        alloc: Global,
        board: &Common,
        pass: &mut Know,
        event: &LogEvent,
    ) -> Result<(), LinkError>
        requires board { (board.now ≡ J.board) × (pass.old.board ≡ J.board) }
        requires closed { MayFollow IsClosed J.board.words pass.old.lists self.old.service (Log event.now) }
        ensures adds { Adds self.old self.new pass.old pass.new event.now result }
        ensures pass { Learns pass.old pass.new }
    {
        let event = copy_of(alloc, event)?;
        self.take(alloc, board, pass, event)
    }

    /// Adds the event to the log. `Stale` where it is a put below the floor.
    pub fn take(
        &mut self,
        alloc: Global,
        board: &Common,
        pass: &mut Know,
        event: LogEvent,
    ) -> Result<(), LinkError>
        requires board { (board.now ≡ J.board) × (pass.old.board ≡ J.board) }
        requires closed { MayFollow IsClosed J.board.words pass.old.lists self.old.service (Log event) }
        ensures adds { Adds self.old self.new pass.old pass.new event result }
        ensures pass { Learns pass.old pass.new }
    {
        board.meet(&mut self.pass, pass);
        if let LogEvent::Put { generation, .. } = &event {
            if *generation < self.shelf.floor {
                return Err(LinkError::Stale {
                    floor: self.shelf.floor,
                });
            }
        }
        self.shelf.reserve(alloc, &event)?;
        self.pass.recall();
        let event = told(board, &mut self.pass, event);
        board.take(pass, board.note(&mut self.pass));
        self.shelf.keep(event);
        Ok(())
    }

    /// The pass then knows the whole log, and what the configuration told. It takes no memory.
    pub fn show(&mut self, board: &Common, pass: &mut Know)
        requires board { (board.now ≡ J.board) × (pass.old.board ≡ J.board) }
        ensures same { self.new ≡ self.old }
        ensures log { KnowsLog self.old pass.new }
        ensures configuration { 0 < length (list_at pass.new.lists configuration) }
        ensures pass { Learns pass.old pass.new }
    {
        board.meet(&mut self.pass, pass);
    }

    /// Copies of a list's texts from a place on.
    pub fn texts(&self, alloc: Global, list: ListId, from: u64) -> Result<Texts, NoMemory>
        ensures { IfOk result (λ texts. texts ≡ drop from (texts_in list.0 self.now.log)) }
    {
        self.shelf.lists.texts(alloc, list, from)
    }

    /// The greatest floor below which the service dropped, 0 for none.
    pub fn floor(&self) -> u32
        ensures { IsFloor self.now.log result }
    {
        self.shelf.floor
    }

    /// Whether a text is kept under the name in the generation, which is not below the floor.
    pub fn has(&self, generation: u32, name: &Name) -> bool
        requires { NoDropAbove self.now.log generation }
        ensures { IsTrue result ↔ HasPut self.now.log generation name.now }
    {
        self.shelf.store.get(generation, name).is_some()
    }

    /// A copy of the text that is kept under the name in the generation, which is not below the floor: the first that was put.
    pub fn get(
        &self,
        alloc: Global,
        generation: u32,
        name: &Name,
    ) -> Result<Option<Bytes>, NoMemory>
        requires { NoDropAbove self.now.log generation }
        ensures { IfOk result (IsFirstPut self.now.log generation name.now) }
    {
        match self.shelf.store.get(generation, name) {
            Some(text) => Ok(Some(Bytes::of(alloc, text.as_slice())?)),
            None => Ok(None),
        }
    }
}

/// A copy of an event.
fn copy_of(alloc: Global, event: &LogEvent) -> Result<LogEvent, NoMemory>
    ensures { IfOk result (λ copy. copy ≡ event.now) }
{
    match event {
        LogEvent::Rec { list, text } => Ok(LogEvent::Rec {
            list: *list,
            text: Bytes::of(alloc, text.as_slice())?,
        }),
        LogEvent::Put {
            generation,
            name,
            text,
        } => Ok(LogEvent::Put {
            generation: *generation,
            name: *name,
            text: Bytes::of(alloc, text.as_slice())?,
        }),
        LogEvent::Drop { floor } => Ok(LogEvent::Drop { floor: *floor }),
    }
}

/// Tells the event, and gives it back.
fn told(board: &Common, pass: &mut Know, event: LogEvent) -> LogEvent
    requires board { pass.old.board ≡ board.now }
    requires owner { IsSome pass.old.word }
    requires closed { IsClosed (with_told pass.old.lists pass.old.word (Log event)) }
    ensures told { pass.new ≡ record pass.old { lists = with_told pass.old.lists pass.old.word (Log event) } }
    ensures event { result ≡ event }
{
    let item = Item::Log { event };
    board.tell(pass, &item);
    match item {
        Item::Log { event } => event,
        _ => unreachable!(),
    }
}
