//! Values that several tests share.

use crate::{Ballot, Entry, Plan, PlanRow};
use ms_base::{ClientId, Name, ServiceId};
use std::alloc::Global;

/// The name of nothing before, and a version.
pub const ZEROS: Name = Name([0; 32]);

pub const ONES: Name = Name([17; 32]);

/// The bytes of these digits, one piece after the other.
pub fn bytes(alloc: Global, parts: &[&str]) -> Result<Vec<u8>, &'static str> {
    let mut digits = String::new(alloc);
    for part in parts {
        digits.push_str(part).ok().ok_or("memory")?;
    }
    hex::decode(alloc, digits.as_bytes()).ok().ok_or("digits")
}

pub fn row(service: u32, capacity: u64) -> PlanRow {
    PlanRow {
        service: ServiceId(service),
        capacity,
    }
}

/// The push of client 0 with number 1.
pub fn push() -> Entry {
    Entry {
        before: ZEROS,
        client: ClientId(0),
        number: 1,
        version: ONES,
        plan: None,
    }
}

pub fn ballot(round: u32, client: u32) -> Ballot {
    Ballot {
        round,
        client: ClientId(client),
    }
}
/// The plan of the configuration, in this generation.
pub fn conf_plan(generation: u32) -> Option<Plan> {
    Plan::new(
        generation,
        1,
        2,
        1000,
        &[row(0, 1000), row(1, 1000), row(2, 1000)],
    )
}
