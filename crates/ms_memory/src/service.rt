//! A service that threads share.

ghost use Rattle.std.specs.Prelude.{◌≡◌, ◌↔◌, ◌<◌, [], length, Some, IfOk, IsOk, IsTrue};
ghost use Rattle.ms_core.specs.Views.{configuration};
ghost use Rattle.ms_ken.specs.Lists.{list_at};
ghost use Rattle.ms_link.specs.Links.{Learns};

use crate::state::ServiceState;
use ms_base::{NoMemory, ServiceId};
use ms_core::{Common, Know};
use ms_ken::Naming;
use std::alloc::Global;
use std::marker::Model;
use std::sync::{Mutex, Wait};

/// A service behind a lock, which threads share. To a contract it is its number.
#[derive(Drop)]
pub struct MemoryService<J: Naming> {
    pub(crate) service: ServiceId,
    pub(crate) state: Mutex<ServiceState<J>>,
}

impl<J: Naming> Model for MemoryService<J> {
    ghost use Rattle.std.specs.Prelude.{ℕ};

    ghost Value = { ℕ };

    ghost view = { λ s. s.service.0 };
}

impl<J: Naming> MemoryService<J> {
    /// A service to which nothing has happened, with the pass that owns its word.
    pub fn new(alloc: Global, service: ServiceId, pass: Know) -> Result<MemoryService<J>, NoMemory>
        requires board { pass.board ≡ J.board }
        requires word { pass.word ≡ Some service.0 }
        requires empty { list_at pass.lists service.0 ≡ [] }
        requires told { 0 < length (list_at pass.lists configuration) }
        ensures made { IsOk result }
        ensures service { IfOk result (λ home. home ≡ service.0) }
    {
        Ok(MemoryService {
            service,
            state: Mutex::new(ServiceState::new(alloc, service, pass)),
        })
    }

    /// Its number.
    pub fn service(&self) -> ServiceId
        ensures { result.0 ≡ self.now }
    {
        self.service
    }

    /// Whether the number that was found under the lock is the service's.
    pub(crate) fn has_number(&self, found: ServiceId) -> bool
        ensures { IsTrue result ↔ (found.0 ≡ self.now) }
    {
        found == self.service
    }

    /// Under the lock the pass and the service's pass meet: each then knows what both knew, and so what the configuration told. It takes no memory.
    pub fn show<R: Wait>(&self, rt: &R, board: &Common, pass: &mut Know)
        requires board { (board.now ≡ J.board) × (pass.old.board ≡ J.board) }
        ensures configuration { 0 < length (list_at pass.new.lists configuration) }
        ensures pass { Learns pass.old pass.new }
    {
        self.state.lock(rt).show(board, pass);
    }
}
