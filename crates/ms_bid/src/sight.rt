//! What readings of vote lists show of a bid.

ghost use Rattle.std.specs.Prelude.{◌≡◌, ℕ, ◌<◌, length, replicate, slice_set, None, Some};
ghost use Rattle.ms_bid.specs.Shown.{shows, sight_at};

use crate::flags::MOST_SERVICES;
use ms_base::ServiceId;
use ms_record::Sight;
use std::marker::Model;

/// What a bidder looks for: its promised Prepare, or, when its offer is declared, its taken Accept.
#[derive(Clone, Copy, Debug)]
pub enum Sought {
    Promise,
    Taken,
}

/// Whether the sight shows it.
fn is_shown(sought: Sought, sight: &Option<Sight>) -> bool
    ensures { result ≡ shows sought sight.now }
{
    match sight {
        Some(seen) => match sought {
            Sought::Promise => seen.promised,
            Sought::Taken => seen.taken,
        },
        None => false,
    }
}

/// By the numbers of services, what was seen of each, if anything was.
#[derive(Drop)]
pub struct Sights {
    sights: [Option<Sight>; MOST_SERVICES],
}

impl Model for Sights {
    ghost use Rattle.std.specs.Prelude.{◌≡◌, List, Option, length};
    ghost use Rattle.ms_record.specs.declared.sight.Sight.{Sight};

    ghost Value = { List (Option Sight) };

    ghost view = { λ s. s.sights };

    ghost invariant = { λ s. length s.sights ≡ 16 };
}

impl Sights {
    /// Nothing was seen.
    pub fn none() -> Sights
        ensures { result ≡ replicate 16 None }
    {
        Sights {
            sights: [None; MOST_SERVICES],
        }
    }

    /// What was seen of the services, in their order.
    pub fn as_slice(&self) -> &[Option<Sight>]
        ensures are { result.now ≡ self.now }
        ensures many { length self.now ≡ 16 }
    {
        &self.sights
    }

    /// Whether it was seen of the service.
    pub fn show(&self, sought: Sought, service: ServiceId) -> bool
        ensures { result ≡ shows sought (sight_at self.now service.0) }
    {
        let place = service.0 as usize;
        place < MOST_SERVICES && is_shown(sought, &self.sights[place])
    }

    /// This is what was seen of the service, in place of an earlier sight.
    pub fn add(&mut self, service: ServiceId, sight: Sight)
        requires { service.0 < length self.old }
        ensures { self.new ≡ slice_set self.old service.0 (Some sight) }
    {
        self.sights[service.0 as usize] = Some(sight);
    }
}
