//! The traits of the outside, each with a count of its faults.

ghost use Rattle.std.specs.Prelude.{◌≡◌, ◌<◌, ◌≤◌, length, take, ⊤, IfOk, IsErr, OnErr, OnOk};
ghost use Rattle.std.specs.Io.KnownBytes.{Appends, Consumes, Keeps, IsAtEnd};
ghost use Rattle.ms_base.specs.declared.outside.ReadError.TheVariants as errors;
ghost use Rattle.ms_base.specs.declared.outside.OutsideError.TheVariants as outside_errors;
ghost use Rattle.ms_base.specs.Counts.{Causes, one_more};
ghost use Rattle.ms_base.specs.Outside.{SourceView, SinkView, InputsView, shows_end, StaysTold};
ghost use Rattle.ms_base.specs.Reading.{GivesInput, StaysUnlessFailed};

use crate::bytes::{Bytes, NoMemory};
use crate::limits::INPUT_BYTES;
use std::alloc::{AllocError, AllocFailed, Global};
use thiserror::Error;

/// The outside failed. The count of faults of the object that was called rose.
#[derive(Clone, Copy, Debug, PartialEq, Eq)]
pub struct Failed;

/// Why a call on the outside gave no answer.
#[derive(Clone, Copy, Debug, PartialEq, Eq, Error)]
pub enum OutsideError {
    #[error("the outside failed")]
    Failed,
    #[error("memory ran out")]
    NoMemory,
}

impl From<Failed> for OutsideError {
    ghost from_gives = { λ _ e. e ≡ outside_errors.Failed };

    fn from(_error: Failed) -> OutsideError {
        OutsideError::Failed
    }
}

impl From<NoMemory> for OutsideError {
    ghost from_gives = { λ _ e. e ≡ outside_errors.NoMemory };

    fn from(_error: NoMemory) -> OutsideError {
        OutsideError::NoMemory
    }
}

impl From<AllocError> for OutsideError {
    ghost from_gives = { λ _ e. e ≡ outside_errors.NoMemory };

    fn from(_error: AllocError) -> OutsideError {
        OutsideError::NoMemory
    }
}

/// Why a text was not read. `bytes` is one above the limit.
#[derive(Clone, Copy, Debug, PartialEq, Eq, Error)]
pub enum ReadError {
    #[error("the text could not be read")]
    Failed,
    #[error("the text is longer than {} bytes", .bytes.saturating_sub(1))]
    TooLong { bytes: u64 },
    #[error("memory ran out")]
    NoMemory,
}

impl From<NoMemory> for ReadError {
    ghost from_gives = { λ _ e. e ≡ errors.NoMemory };

    fn from(_error: NoMemory) -> ReadError {
        ReadError::NoMemory
    }
}

impl From<AllocError> for ReadError {
    ghost from_gives = { λ _ e. e ≡ errors.NoMemory };

    fn from(_error: AllocError) -> ReadError {
        ReadError::NoMemory
    }
}

impl<T: Drop> From<AllocFailed<T>> for ReadError {
    ghost from_gives = { λ _ e. e ≡ errors.NoMemory };

    fn from(_error: AllocFailed<T>) -> ReadError {
        ReadError::NoMemory
    }
}

/// Where bytes come from.
pub trait Source {
    ghost seen: { Self → SourceView };

    /// Reads some bytes to the front of `into`, and answers how many; 0 at the end.
    fn read(&mut self, into: &mut [u8]) -> Result<usize, Failed>
        ensures count { IfOk result (λ n. n ≤ length into.old) }
        ensures bytes { IfOk result (λ n. Consumes (seen self.old).left (seen self.new).left (take n into.new)) }
        ensures end { IfOk result (λ n. n ≡ 0 → 0 < length into.old → IsAtEnd (seen self.new).left) }
        ensures ended { (seen self.new).ended ≡ shows_end (length into.old) result }
        ensures none { OnErr result (Keeps (seen self.old).left (seen self.new).left) }
        ensures told { StaysTold (seen self.old).left (seen self.new).left }
        ensures cause { Causes (IsErr result) (seen self.old).faults (seen self.new).faults }
        ensures steady { OnOk result ((seen self.new).faults ≡ (seen self.old).faults) };

    fn faults(&self) -> u64
        ensures { result ≡ (seen self.now).faults };
}

/// Where bytes go.
pub trait Sink {
    ghost seen: { Self → SinkView };

    /// Writes some bytes of the front of `from`, and answers how many: at least one where there is one.
    fn write(&mut self, from: &[u8]) -> Result<usize, Failed>
        ensures count { IfOk result (λ n. n ≤ length from.now) }
        ensures some { IfOk result (λ n. 0 < length from.now → 0 < n) }
        ensures bytes { IfOk result (λ n. Appends (seen self.old).contents (seen self.new).contents (take n from.now)) }
        ensures none { OnErr result (Keeps (seen self.old).contents (seen self.new).contents) }
        ensures told { StaysTold (seen self.old).contents (seen self.new).contents }
        ensures cause { Causes (IsErr result) (seen self.old).faults (seen self.new).faults }
        ensures steady { OnOk result ((seen self.new).faults ≡ (seen self.old).faults) };

    fn faults(&self) -> u64
        ensures { result ≡ (seen self.now).faults };
}

/// The greatest number of bytes of an input.
pub const MOST_INPUT: u64 = INPUT_BYTES;

/// Texts by their names.
pub trait Inputs {
    ghost seen: { Self → InputsView };

    // What a reading keeps, for traits that see more of these inputs.
    ghost keeps: { Self → Self → Type 0 } = { λ _ _. ⊤ };

    /// The text of that name, read to its end.
    fn input(&mut self, alloc: Global, name: &str) -> Result<Bytes, ReadError>
        ensures gives { GivesInput name.now MOST_INPUT (seen self.old) (seen self.new) result }
        ensures same { (seen self.new).texts ≡ (seen self.old).texts }
        ensures reads { (seen self.new).reads ≡ one_more (seen self.old).reads }
        ensures kept { keeps self.old self.new }
        ensures later { (seen self.old).faults ≤ (seen self.new).faults }
        ensures steady { StaysUnlessFailed (seen self.old).faults (seen self.new).faults result };

    fn faults(&self) -> u64
        ensures { result ≡ (seen self.now).faults };
}
