//! Sets of services.

ghost use Rattle.std.specs.Prelude.{◌≡◌, ◌<◌, ◌≤◌, ◌↔◌, ◌++◌, ◌∷◌, [], ℕ, Contains, IsTrue, length};
ghost use Rattle.ms_record.specs.Chains.{voters_of};
ghost use Rattle.ms_record.specs.Services.{AreServices, numbers_of};
ghost use Rattle.ms_record.specs.Votes.{services_below};

use crate::plan::{MOST_ROWS, Plan};
use ms_base::ServiceId;
use ms_base::limits::SERVICES;
use std::marker::Model;

/// Some services of a workspace, at most 16. It takes no memory but its own.
#[derive(Clone, Copy)]
pub struct ServiceSet {
    services: [ServiceId; MOST_ROWS],
    count: usize,
}

impl Model for ServiceSet {
    ghost use Rattle.std.specs.Prelude.{ℕ, List};

    ghost Value = { List ℕ };

    ghost use Rattle.ms_record.specs.ServicesInside.{IsKept, seen, fields_of, fields_back};

    ghost view = { seen };

    ghost invariant = { IsKept };

    ghost inverse = { fields_of };

    ghost inverse_ok = { fields_back };
}

impl ServiceSet {
    /// The services of a plan: those that vote where it is in force.
    pub fn of_plan(plan: &Plan) -> ServiceSet
        ensures are { result ≡ voters_of plan.now }
        ensures some { 1 ≤ length result }
    {
        let rows = plan.rows();
        let mut services = [ServiceId(0); MOST_ROWS];
        for i in 0..rows.len() {
            services[i] = rows[i].service;
        }
        ServiceSet {
            services,
            count: rows.len(),
        }
    }

    /// The set without a service.
    pub fn none() -> ServiceSet
        ensures { result ≡ [] }
    {
        ServiceSet {
            services: [ServiceId(0); MOST_ROWS],
            count: 0,
        }
    }

    /// Puts in a service that is above all that it has.
    pub fn add(&mut self, service: ServiceId)
        requires above { (s : ℕ) → Contains self.old s → s < service.0 }
        requires known { service.0 < SERVICES }
        ensures { self.new ≡ self.old ++ service.0 ∷ [] }
    {
        self.services[self.count] = service;
        self.count += 1;
    }

    /// The first so many services.
    pub fn all(services: u32) -> ServiceSet
        requires { services ≤ SERVICES }
        ensures are { result ≡ services_below services }
        ensures many { length result ≡ services }
    {
        let mut all = [ServiceId(0); MOST_ROWS];
        for i in 0..services {
            all[i as usize] = ServiceId(i);
        }
        ServiceSet {
            services: all,
            count: services as usize,
        }
    }

    /// Whether the service is one of them.
    pub fn has(&self, service: ServiceId) -> bool
        ensures { IsTrue result ↔ Contains self.now service.0 }
    {
        for own in self.as_slice() {
            if own.0 == service.0 {
                return true;
            }
        }
        false
    }

    /// How many there are.
    pub fn len(&self) -> usize
        ensures count { result ≡ length self.now }
        ensures few { result ≤ SERVICES }
    {
        self.count
    }

    /// The services, rising.
    pub fn as_slice(&self) -> &[ServiceId]
        ensures are { numbers_of result.now ≡ self.now }
        ensures rules { AreServices self.now }
    {
        &self.services[..self.count]
    }
}
