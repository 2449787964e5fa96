//! Why a text is no object, and why a store holds no tree.

ghost use Rattle.std.specs.Prelude.{◌≡◌};
ghost use Rattle.ms_object.specs.declared.fault.ObjectError.TheVariants as objects;
ghost use Rattle.ms_object.specs.declared.fault.GatherError.TheVariants as trees;

use ms_base::{Name, NoMemory, Quantity};
use std::alloc::{AllocError, AllocFailed};

/// Why a text gives no object.
#[derive(Clone, Copy, Debug, PartialEq, Eq)]
pub enum ObjectError {
    /// The text has this many bytes, more than 33,554,432.
    TooLarge { bytes: u64 },
    /// No object is spelled so.
    NotAnObject,
    /// Memory ran out.
    NoMemory,
}

impl From<NoMemory> for ObjectError {
    ghost from_gives = { λ _ e. e ≡ objects.NoMemory };

    fn from(_error: NoMemory) -> ObjectError {
        ObjectError::NoMemory
    }
}

impl From<AllocError> for ObjectError {
    ghost from_gives = { λ _ e. e ≡ objects.NoMemory };

    fn from(_error: AllocError) -> ObjectError {
        ObjectError::NoMemory
    }
}

impl<T: Drop> From<AllocFailed<T>> for ObjectError {
    ghost from_gives = { λ _ e. e ≡ objects.NoMemory };

    fn from(_error: AllocFailed<T>) -> ObjectError {
        ObjectError::NoMemory
    }
}

/// Why a store gives no files of a tree.
#[derive(Clone, Copy, Debug, PartialEq, Eq)]
pub enum GatherError {
    /// The store has nothing of this name.
    Missing { name: Name },
    /// The text of this name is not of the kind that names it.
    WrongKind { name: Name },
    /// A quantity has this value, which passes its limit.
    Limit { what: Quantity, value: u64 },
    /// Memory ran out.
    NoMemory,
}

impl From<NoMemory> for GatherError {
    ghost from_gives = { λ _ e. e ≡ trees.NoMemory };

    fn from(_error: NoMemory) -> GatherError {
        GatherError::NoMemory
    }
}

impl From<AllocError> for GatherError {
    ghost from_gives = { λ _ e. e ≡ trees.NoMemory };

    fn from(_error: AllocError) -> GatherError {
        GatherError::NoMemory
    }
}

impl<T: Drop> From<AllocFailed<T>> for GatherError {
    ghost from_gives = { λ _ e. e ≡ trees.NoMemory };

    fn from(_error: AllocFailed<T>) -> GatherError {
        GatherError::NoMemory
    }
}
