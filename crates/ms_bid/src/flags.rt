//! Sets of services that grow.

ghost use Rattle.std.specs.Prelude.{◌≡◌, ◌↔◌, ℕ, ◌<◌, Contains, length, replicate, slice_set, true, false};
ghost use Rattle.ms_bid.specs.Ends.{flag_at};

use ms_base::ServiceId;
use ms_record::ServiceSet;
use std::marker::Model;

/// The services of a workspace are numbered below this.
pub(crate) const MOST_SERVICES: usize = 16;

/// By the numbers of services, of which of them something is true.
#[derive(Clone, Copy, Debug)]
pub struct Flags {
    flags: [bool; MOST_SERVICES],
}

impl Model for Flags {
    ghost use Rattle.std.specs.Prelude.{◌≡◌, List, Bool, length};

    ghost Value = { List Bool };

    ghost view = { λ f. f.flags };

    ghost invariant = { λ f. length f.flags ≡ 16 };

    ghost inverse = { λ flags. record { flags = flags } };
}

impl Flags {
    /// True of none.
    pub fn none() -> Flags
        ensures { result ≡ replicate 16 false }
    {
        Flags {
            flags: [false; MOST_SERVICES],
        }
    }

    /// Whether it is true of the service.
    pub fn has(&self, service: ServiceId) -> bool
        ensures is { result ≡ flag_at self.now service.0 }
        ensures many { length self.now ≡ 16 }
    {
        let place = service.0 as usize;
        place < MOST_SERVICES && self.flags[place]
    }

    /// It is true of the service from here on.
    pub fn add(&mut self, service: ServiceId)
        requires { service.0 < length self.old }
        ensures { self.new ≡ slice_set self.old service.0 true }
    {
        self.flags[service.0 as usize] = true;
    }

    /// The services of which it is true.
    pub fn services(&self) -> ServiceSet
        ensures { (s : ℕ) → Contains result s ↔ (flag_at self.now s ≡ true) }
    {
        let _flags = &self.flags;
        let mut services = ServiceSet::none();
        for number in 0..MOST_SERVICES as u32 {
            let service = ServiceId(number);
            if self.has(service) {
                services.add(service);
            }
        }
        services
    }
}
