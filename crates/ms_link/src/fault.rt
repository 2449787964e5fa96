//! Why a call on a service gave no answer.

ghost use Rattle.std.specs.Prelude.{◌≡◌};
ghost use Rattle.ms_link.specs.declared.fault.LinkError.TheVariants as errors;

use ms_base::{Failed, NoMemory};
use std::alloc::{AllocError, AllocFailed};
use thiserror::Error;

/// Why a call on a service gave no answer.
#[derive(Clone, Copy, Debug, PartialEq, Eq, Error)]
pub enum LinkError {
    /// The link failed: its count of faults rose. What was asked for may have happened, or happen later, or never.
    #[error("the service could not be reached")]
    Failed,
    /// The generation that was asked for lies below the service's floor, which is this one.
    #[error("the service has dropped all generations below {floor}")]
    Stale { floor: u32 },
    /// Memory ran out.
    #[error("memory ran out")]
    NoMemory,
}

impl From<Failed> for LinkError {
    ghost from_gives = { λ _ e. e ≡ errors.Failed };

    fn from(_error: Failed) -> LinkError {
        LinkError::Failed
    }
}

impl From<NoMemory> for LinkError {
    ghost from_gives = { λ _ e. e ≡ errors.NoMemory };

    fn from(_error: NoMemory) -> LinkError {
        LinkError::NoMemory
    }
}

impl From<AllocError> for LinkError {
    ghost from_gives = { λ _ e. e ≡ errors.NoMemory };

    fn from(_error: AllocError) -> LinkError {
        LinkError::NoMemory
    }
}

impl<T: Drop> From<AllocFailed<T>> for LinkError {
    ghost from_gives = { λ _ e. e ≡ errors.NoMemory };

    fn from(_error: AllocFailed<T>) -> LinkError {
        LinkError::NoMemory
    }
}
