//! What services that gave no bytes of an object have shown.

ghost use Rattle.std.specs.Prelude.{◌≡◌, ◌++◌, ◌∷◌, [], List, OnOk};
ghost use Rattle.ms_fetch.specs.Fetching.{IsAsked, Tells};
ghost use Rattle.ms_fetch.specs.Lacks.{Lacking, greater_floor};

use crate::ask::Lack;
use ms_base::{Items, Name, NoMemory, ServiceId};
use ms_record::{ReasonRow, Reasons, Refusal};
use std::alloc::Global;

/// The greatest floor that a service showed, and the reasons of the others.
#[derive(Drop)]
pub(crate) struct Asked {
    pub floor: Option<u32>,
    pub reasons: Reasons,
}

impl Asked {
    /// Of no service.
    pub(crate) fn new(alloc: Global) -> Asked
        ensures { IsAsked [] result.floor result.reasons }
    {
        Asked {
            floor: None,
            reasons: Items::new(alloc),
        }
    }

    /// One service more.
    pub(crate) fn note(&mut self, service: ServiceId, lack: Lack) -> Result<(), NoMemory>
        ensures { OnOk result ((lacks : List Lacking) → IsAsked lacks self.old.floor self.old.reasons
            → IsAsked (lacks ++ (record { service = service; lack = lack }) ∷ []) self.new.floor self.new.reasons) }
    {
        match lack {
            Lack::Unread { reason } => self.reasons.push(ReasonRow { service, reason }),
            Lack::Stale { floor } => {
                self.floor = Some(greater(self.floor, floor));
                Ok(())
            }
        }
    }

    /// Why no service gave the bytes of the name.
    pub(crate) fn refusal(self, name: &Name) -> Refusal
        ensures { (lacks : List Lacking) → IsAsked lacks self.floor self.reasons → Tells name.now lacks result }
    {
        match self.floor {
            Some(floor) => Refusal::Collected { floor },
            None => Refusal::LostObject {
                name: *name,
                reasons: self.reasons,
            },
        }
    }
}

/// The greater of two floors, one of which may be missing.
fn greater(floor: Option<u32>, other: u32) -> u32
    ensures { result ≡ greater_floor floor other }
{
    match floor {
        Some(floor) if floor > other => floor,
        _ => other,
    }
}
