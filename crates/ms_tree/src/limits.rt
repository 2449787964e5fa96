//! Why a file is refused.

ghost use Rattle.std.specs.Prelude.{◌≡◌};
ghost use Rattle.ms_tree.specs.declared.limits.FilesError.TheVariants as errors;
ghost use Rattle.ms_tree.specs.Limits.{within};

use ms_base::{NoMemory, Quantity};
use std::alloc::{AllocError, AllocFailed};

/// Why a file is refused.
#[derive(Clone, Copy, Debug, PartialEq, Eq)]
pub enum FilesError {
    /// The path breaks the path rule.
    BadPath,
    /// A quantity would have this value, which passes its limit.
    Limit { what: Quantity, value: u64 },
    /// The path is a directory of another, or another is a directory of it.
    Clash,
    /// Memory ran out.
    NoMemory,
}

impl From<NoMemory> for FilesError {
    ghost from_gives = { λ _ e. e ≡ errors.NoMemory };

    fn from(_error: NoMemory) -> FilesError {
        FilesError::NoMemory
    }
}

impl From<AllocError> for FilesError {
    ghost from_gives = { λ _ e. e ≡ errors.NoMemory };

    fn from(_error: AllocError) -> FilesError {
        FilesError::NoMemory
    }
}

impl<T: Drop> From<AllocFailed<T>> for FilesError {
    ghost from_gives = { λ _ e. e ≡ errors.NoMemory };

    fn from(_error: AllocFailed<T>) -> FilesError {
        FilesError::NoMemory
    }
}

/// Refuses a value above its limit.
pub fn within(what: Quantity, value: u64, most: u64) -> Result<(), FilesError>
    ensures { result ≡ within what value most }
{
    if value > most {
        return Err(FilesError::Limit { what, value });
    }
    Ok(())
}
