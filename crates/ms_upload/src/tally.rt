//! How many services accepted an object, and which of them failed.

ghost use Rattle.std.specs.Prelude.{◌≡◌, ◌<◌, ◌+◌, ◌++◌, ◌∷◌, [], List, length};
ghost use Rattle.ms_base.specs.declared.limits.TheConstants.{SERVICES};
ghost use Rattle.ms_upload.specs.Tallies.{IsTally};
ghost use Rattle.ms_upload.specs.Visits.{Visit, floor_in};

use crate::visit::Met;
use ms_base::ServiceId;
use ms_bid::Flags;

/// What is counted of the visits of an object.
#[derive(Clone, Copy)]
pub(crate) struct Tally {
    /// The services that had it.
    pub present: u32,
    /// Those that took it.
    pub puts: u32,
    /// Those whose link failed.
    pub failed: Flags,
}

impl Tally {
    /// Of no visit.
    pub(crate) fn new() -> Tally
        ensures { IsTally [] result }
    {
        let failed = Flags::none();
        Tally {
            present: 0,
            puts: 0,
            failed,
        }
    }

    /// One visit more.
    pub(crate) fn note(&mut self, service: ServiceId, met: Met)
        requires service { service.0 < SERVICES }
        requires few { self.old.present + self.old.puts < SERVICES }
        requires wide { length self.old.failed ≡ 16 }
        ensures { (visits : List Visit) → IsTally visits self.old → IsTally (visits ++ (record { service = service; met = met }) ∷ []) self.new }
    {
        match met {
            Met::Present => self.present += 1,
            Met::Taken => self.puts += 1,
            Met::AskFailed => self.failed.add(service),
            Met::PutFailed => self.failed.add(service),
            Met::AskStale { .. } => {}
            Met::PutStale { .. } => {}
        }
    }
}

/// The floor that the service answered with, where it did.
pub(crate) fn floor_of(met: Met) -> Option<u32>
    ensures { result ≡ floor_in met }
{
    match met {
        Met::AskStale { floor } => Some(floor),
        Met::PutStale { floor } => Some(floor),
        _ => None,
    }
}
