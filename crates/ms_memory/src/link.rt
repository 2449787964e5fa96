//! A link to a service in memory.

ghost use Rattle.std.specs.Prelude.{◌≡◌, ℕ, IfOk};
ghost use Rattle.std.specs.Arc.{arc_value};
ghost use Rattle.ms_base.specs.Counts.{Rose};
ghost use Rattle.ms_record.specs.Floors.{IsFloor};
ghost use Rattle.ms_core.specs.Views.{IsClosed, log_in};
ghost use Rattle.ms_ken.specs.Lists.{MayFollow};
ghost use Rattle.ms_link.specs.Links.{Learns};
ghost use Rattle.ms_memory.specs.Served.{Changes};
ghost use Rattle.ms_record.specs.declared.item.Item.TheVariants.{Log};

use crate::service::MemoryService;
use ms_base::{Bytes, Name, NoMemory, ServiceId};
use ms_core::{Common, FoldClosed, Know};
use ms_ken::Naming;
use ms_link::{Link, LinkError, Texts};
use ms_record::{ListId, LogEvent};
use std::alloc::Global;
use std::marker::Model;
use std::sync::{Arc, Wait};

/// A link to a service in memory. It has the handle by which it may wait for the service's lock, and never fails. To a contract it
/// is its service's number.
#[derive(Drop)]
pub struct MemoryLink<R: Wait, J: Naming> {
    rt: R,
    home: Arc<MemoryService<J>, Global>,
}

impl<R: Wait, J: Naming> Model for MemoryLink<R, J> {
    ghost use Rattle.std.specs.Prelude.{ℕ};
    ghost use Rattle.std.specs.Arc.{arc_value};

    ghost Value = { ℕ };

    ghost view = { λ l. arc_value l.home };
}

impl<R: Wait, J: Naming> MemoryLink<R, J> {
    /// A link to this service.
    pub fn new(rt: R, home: Arc<MemoryService<J>, Global>) -> MemoryLink<R, J>
        ensures { result ≡ arc_value home }
    {
        MemoryLink { rt, home }
    }

    /// The service's floor, by the log that the pass then knows, under the lock. `NoMemory` where the lock's value had another number.
    fn floor(&self, board: &Common, pass: &mut Know) -> Result<u32, NoMemory>
        requires board { (board.now ≡ J.board) × (pass.old.board ≡ J.board) }
        ensures floor { IfOk result (IsFloor (log_in pass.new.lists self.now)) }
        ensures pass { Learns pass.old pass.new }
    {
        let mut guard = self.home.state.lock(&self.rt);
        let state = &mut *guard;
        if !self.home.has_number(state.service()) {
            return Err(NoMemory);
        }
        state.show(board, pass);
        Ok(state.floor())
    }

    /// Adds the event to the service's log, under its lock. `NoMemory` also where the lock's value had another number.
    fn change(
        &self,
        alloc: Global,
        board: &Common,
        pass: &mut Know,
        event: LogEvent,
    ) -> Result<(), LinkError>
        requires board { (board.now ≡ J.board) × (pass.old.board ≡ J.board) }
        requires closed { MayFollow IsClosed J.board.words pass.old.lists self.now (Log event) }
        ensures changes { Changes self.now pass.old pass.new event result }
        ensures pass { Learns pass.old pass.new }
    {
        let mut guard = self.home.state.lock(&self.rt);
        let state = &mut *guard;
        if !self.home.has_number(state.service()) {
            return Err(LinkError::NoMemory);
        }
        state.take(alloc, board, pass, event)
    }
}

impl<R: Wait, J: Naming> Link<FoldClosed> for MemoryLink<R, J> {
    ghost use Rattle.std.specs.Prelude.{true};

    ghost sees = { λ l. record { board = J.board; service = l; faults = 0; lists = true; objects = true } };

    fn service(&self) -> ServiceId {
        self.home.service()
    }

    fn faults(&self) -> u64 {
        0
    }

    fn append(
        &mut self,
        alloc: Global,
        board: &Common,
        pass: &mut Know,
        list: ListId,
        text: &[u8],
    ) -> Result<(), LinkError> {
        let text = Bytes::of(alloc, text)?;
        self.change(alloc, board, pass, LogEvent::Rec { list, text })
    }

    fn list(
        &mut self,
        alloc: Global,
        board: &Common,
        pass: &mut Know,
        list: ListId,
        from: u64,
    ) -> Result<Texts, LinkError> {
        let mut guard = self.home.state.lock(&self.rt);
        let state = &mut *guard;
        if !self.home.has_number(state.service()) {
            return Err(LinkError::NoMemory);
        }
        state.show(board, pass);
        Ok(state.texts(alloc, list, from)?)
    }

    fn put(
        &mut self,
        alloc: Global,
        board: &Common,
        pass: &mut Know,
        generation: u32,
        name: &Name,
        text: &[u8],
    ) -> Result<(), LinkError> {
        let floor = self.floor(board, pass)?;
        if generation < floor {
            return Err(LinkError::Stale { floor });
        }
        let event = LogEvent::Put {
            generation,
            name: *name,
            text: Bytes::of(alloc, text)?,
        };
        self.change(alloc, board, pass, event)
    }

    fn has(
        &mut self,
        alloc: Global,
        board: &Common,
        pass: &mut Know,
        generation: u32,
        name: &Name,
    ) -> Result<bool, LinkError> {
        let mut guard = self.home.state.lock(&self.rt);
        let state = &mut *guard;
        if !self.home.has_number(state.service()) {
            return Err(LinkError::NoMemory);
        }
        state.show(board, pass);
        let floor = state.floor();
        if generation < floor {
            return Err(LinkError::Stale { floor });
        }
        Ok(state.has(generation, name))
    }

    fn get(
        &mut self,
        alloc: Global,
        board: &Common,
        pass: &mut Know,
        generation: u32,
        name: &Name,
    ) -> Result<Option<Bytes>, LinkError> {
        let mut guard = self.home.state.lock(&self.rt);
        let state = &mut *guard;
        if !self.home.has_number(state.service()) {
            return Err(LinkError::NoMemory);
        }
        state.show(board, pass);
        let floor = state.floor();
        if generation < floor {
            return Err(LinkError::Stale { floor });
        }
        Ok(state.get(alloc, generation, name)?)
    }

    fn drop_below(
        &mut self,
        alloc: Global,
        board: &Common,
        pass: &mut Know,
        generation: u32,
    ) -> Result<(), LinkError> {
        self.change(alloc, board, pass, LogEvent::Drop { floor: generation })
    }
}

/// A link in memory never fails: `Failed` comes only where the count of faults rose, and its count stays 0. It does nothing.
pub fn never_fails<R: Wait, J: Naming>()
    ensures { (old new : ℕ) → Rose (⟦<MemoryLink<R, J> as Link<FoldClosed>>⟧.sees old).faults (⟦<MemoryLink<R, J> as Link<FoldClosed>>⟧.sees new).faults → ⊥ }
{}
