//! Points at which a test may hold the program.

use crate::names::{ClientId, ServiceId};

/// A moment that a gate is told of.
#[derive(Clone, Copy, Debug, PartialEq, Eq)]
pub enum Point {
    /// Before an append of a bid.
    Append {
        client: ClientId,
        service: ServiceId,
    },
    /// A lane drew a job.
    Drawn {
        lane: u32,
        job: u64,
    },
    /// A client's line was answered.
    Answered {
        client: ClientId,
        line: u32,
    },
}

/// May wait at a point. Nothing is claimed of it.
pub trait Gate {
    fn reach(&self, point: Point);
}

/// Never waits.
#[derive(Clone, Copy, Debug)]
pub struct FreeGate;

impl Gate for FreeGate {
    fn reach(&self, _point: Point) {}
}
