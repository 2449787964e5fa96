//! The readers and writers of std, with a count of their faults. What they tell of their bytes is told.

ghost use Rattle.std.specs.Prelude.{◌≡◌, false};

use crate::outside::{Failed, Sink, Source};
use std::io::{Read, Write};

/// A reader of std as a source: standard input, or an open file.
#[derive(Drop)]
pub struct StdSource<R> {
    from: R,
    ended: bool,
    faults: u64,
}

impl<R> StdSource<R> {
    pub fn new(from: R) -> StdSource<R>
        ensures reader { result.from ≡ from }
        ensures start { (result.faults ≡ 0) × (result.ended ≡ false) }
    {
        StdSource {
            from,
            ended: false,
            faults: 0,
        }
    }
}

impl<R: Read + Drop> Source for StdSource<R> {
    ghost seen = { λ s. record { left = R.remaining s.from; ended = s.ended; faults = s.faults } };

    fn read(&mut self, into: &mut [u8]) -> Result<usize, Failed> {
        match self.from.read(into) {
            Ok(count) => {
                self.ended = count == 0 && !into.is_empty();
                Ok(count)
            }
            Err(_) => {
                self.ended = false;
                self.faults = self.faults.saturating_add(1);
                Err(Failed)
            }
        }
    }

    fn faults(&self) -> u64 {
        self.faults
    }
}

/// A writer of std as a sink: standard output, or an open file.
#[derive(Drop)]
pub struct StdSink<W> {
    to: W,
    faults: u64,
}

impl<W> StdSink<W> {
    pub fn new(to: W) -> StdSink<W>
        ensures writer { result.to ≡ to }
        ensures start { result.faults ≡ 0 }
    {
        StdSink { to, faults: 0 }
    }
}

impl<W: Write + Drop> Sink for StdSink<W> {
    ghost seen = { λ s. record { contents = W.contents s.to; faults = s.faults } };

    fn write(&mut self, from: &[u8]) -> Result<usize, Failed> {
        match self.to.write(from) {
            Ok(count) if count > 0 || from.is_empty() => Ok(count),
            _ => {
                self.faults = self.faults.saturating_add(1);
                Err(Failed)
            }
        }
    }

    fn faults(&self) -> u64 {
        self.faults
    }
}
