//! What all clients agree on from the start.

ghost use Rattle.std.specs.Prelude.{◌≡◌, ◌≤◌};
ghost use Rattle.ms_base.specs.declared.limits.TheConstants.{CLIENTS, SERVICES};
ghost use Rattle.ms_record.specs.Settings.{IsFirstPlan, IsSetting, first_setting};

use crate::entry::Entry;
use crate::plan::Plan;
use ms_base::{ClientId, Name};

/// The numbers of services and clients, 1 to 16 each, and the genesis, the master at position 0.
///
/// The genesis is a plan entry of generation 1 and format 1 with the services from 0 in their order.
#[derive(Clone, Copy, Debug, PartialEq, Eq)]
pub struct Setting {
    pub services: u32,
    pub clients: u32,
    pub genesis: Entry,
}

impl Setting {
    /// The setting of a first plan; its genesis names what is before it and its version, and is of client 0.
    pub fn first(services: u32, clients: u32, before: Name, version: Name, plan: Plan) -> Setting
        ensures is { result ≡ first_setting services clients before version plan }
        ensures fits { 1 ≤ services → services ≤ SERVICES → 1 ≤ clients → clients ≤ CLIENTS → IsFirstPlan services plan → IsSetting result }
    {
        let _ = plan.rows();
        let genesis = Entry {
            before,
            client: ClientId(0),
            number: 0,
            version,
            plan: Some(plan),
        };
        Setting {
            services,
            clients,
            genesis,
        }
    }
}
