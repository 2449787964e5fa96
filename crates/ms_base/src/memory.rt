//! The outside in memory, which fails at the calls that it is told.

ghost use Rattle.std.specs.Prelude.{◌≡◌, ◌<◌, ◌≤◌, ◌+◌, ◌++◌, false, [], length, take, drop, min, Some, None, Ok, Err, IfSome, MatchOption, IsErr, IsTrue, ◌↔◌, slice_get, OnErr, OnOk, IfOk, is_err};
ghost use Rattle.std.specs.Option.{option_map};
ghost use Rattle.ms_base.specs.Counts.{Causes};
ghost use Rattle.ms_base.specs.Memory.{OrWant, after_call, first_calls, given_input, has_failed, inputs_of, is_due, pairs_of, sink_of, source_of};
ghost use Rattle.ms_base.specs.Reading.{GivesInput, StaysUnlessFailed};
ghost use Rattle.ms_base.specs.Outside.{shows_end, text_named};
ghost use Rattle.ms_base.specs.declared.outside.ReadError.TheVariants as errors;

use crate::bytes::Bytes;
use crate::outside::{Failed, Inputs, MOST_INPUT, ReadError, Sink, Source};
use crate::script::Script;
use std::alloc::Global;
use std::marker::Model;

/// A text that is given in steps.
#[derive(Drop)]
pub struct VecSource {
    text: Bytes,
    at: usize,
    step: u64,
    ended: bool,
    script: Script,
}

impl Model for VecSource {
    ghost use Rattle.std.specs.Prelude.{◌<◌, ◌≤◌, length, drop};
    ghost use Rattle.ms_base.specs.Memory.{Feed};

    ghost Value = { Feed };

    ghost view = { λ s. record { left = drop s.at s.text; step = s.step; ended = s.ended; calls = s.script } };

    ghost invariant = { λ s. (s.at ≤ length s.text) × (0 < s.step) };
}

impl VecSource {
    /// Gives at most `step` bytes a call; the calls of the numbers in `fails` fail.
    pub fn new(text: Bytes, step: u64, fails: Vec<u64>) -> VecSource
        requires { 0 < step }
        ensures { result ≡ record { left = text; step = step; ended = false; calls = first_calls fails.items } }
    {
        VecSource {
            text,
            at: 0,
            step,
            ended: false,
            script: Script::new(fails),
        }
    }
}

impl Source for VecSource {
    ghost seen = { source_of };

    fn read(&mut self, into: &mut [u8]) -> Result<usize, Failed>
        ensures count { IfOk result (λ n. n ≤ length into.old) }
        ensures bytes { IfOk result (λ n. self.old.left ≡ take n into.new ++ self.new.left) }
        ensures end { IfOk result (λ n. n ≡ 0 → 0 < length into.old → self.new.left ≡ []) }
        ensures ended { self.new.ended ≡ shows_end (length into.old) result }
        ensures none { OnErr result (self.new.left ≡ self.old.left) }
        ensures cause { Causes (IsErr result) self.old.calls.faults self.new.calls.faults }
        ensures steady { OnOk result (self.new.calls.faults ≡ self.old.calls.faults) }
        // The calls that fail are those of the script.
        ensures fails { IsErr result ↔ IsTrue (is_due self.old.calls) }
        ensures calls { self.new.calls ≡ after_call (is_due self.old.calls) self.old.calls }
        ensures step { self.new.step ≡ self.old.step }
        ensures moves { IfOk result (λ n. n ≡ min (min self.old.step (length self.old.left)) (length into.old)) }
    {
        self.ended = false;
        if self.script.call() {
            return Err(Failed);
        }
        let left = &self.text.as_slice()[self.at..];
        let most = self.step.min(left.len() as u64) as usize;
        let count = most.min(into.len());
        into[..count].copy_from_slice(&left[..count]);
        self.at += count;
        self.ended = count == 0 && !into.is_empty();
        Ok(count)
    }

    fn faults(&self) -> u64 {
        self.script.faults()
    }
}

/// What is written, taken in steps.
#[derive(Drop)]
pub struct VecSink {
    text: Vec<u8>,
    step: u64,
    script: Script,
}

impl Model for VecSink {
    ghost use Rattle.std.specs.Prelude.{◌<◌};
    ghost use Rattle.ms_base.specs.Memory.{Taken};

    ghost Value = { Taken };

    ghost view = { λ s. record { text = s.text.items; step = s.step; calls = s.script } };

    ghost invariant = { λ s. 0 < s.step };
}

impl VecSink {
    /// Takes at most `step` bytes a call; the calls of the numbers in `fails` fail, and so do
    /// those that find no memory.
    pub fn new(alloc: Global, step: u64, fails: Vec<u64>) -> VecSink
        requires { 0 < step }
        ensures { result ≡ record { text = []; step = step; calls = first_calls fails.items } }
    {
        VecSink {
            text: Vec::new(alloc),
            step,
            script: Script::new(fails),
        }
    }

    /// What was written.
    pub fn text(&self) -> &[u8]
        ensures { result.now ≡ self.now.text }
    {
        &self.text
    }
}

impl Sink for VecSink {
    ghost seen = { sink_of };

    fn write(&mut self, from: &[u8]) -> Result<usize, Failed>
        ensures count { IfOk result (λ n. n ≤ length from.now) }
        ensures some { IfOk result (λ n. 0 < length from.now → 0 < n) }
        ensures bytes { IfOk result (λ n. self.new.text ≡ self.old.text ++ take n from.now) }
        ensures none { OnErr result (self.new.text ≡ self.old.text) }
        ensures cause { Causes (IsErr result) self.old.calls.faults self.new.calls.faults }
        ensures steady { OnOk result (self.new.calls.faults ≡ self.old.calls.faults) }
        // The calls of the script fail, and those that find no memory.
        ensures due { IsTrue (is_due self.old.calls) → IsErr result }
        ensures calls { self.new.calls ≡ after_call (is_err result) self.old.calls }
        ensures step { self.new.step ≡ self.old.step }
        ensures moves { IfOk result (λ n. n ≡ min self.old.step (length from.now)) }
    {
        if self.script.call() {
            return Err(Failed);
        }
        let count = self.step.min(from.len() as u64) as usize;
        if self.text.extend_from_slice(&from[..count]).is_err() {
            self.script.fail();
            return Err(Failed);
        }
        Ok(count)
    }

    fn faults(&self) -> u64 {
        self.script.faults()
    }
}

/// A text and its name.
#[derive(Drop)]
pub struct InputText {
    pub name: Bytes,
    pub text: Bytes,
}

/// Texts by their names, the first of a name counting.
#[derive(Drop)]
pub struct MemoryInputs {
    inputs: Vec<InputText>,
    ended: bool,
    script: Script,
}

impl Model for MemoryInputs {
    ghost use Rattle.ms_base.specs.Memory.{Named};

    ghost Value = { Named };

    ghost use Rattle.ms_base.specs.Memory.{pairs_of};

    ghost view = { λ s. record { texts = pairs_of s.inputs.items; ended = s.ended; calls = s.script } };
}

impl MemoryInputs {
    /// The calls of the numbers in `fails` fail.
    pub fn new(inputs: Vec<InputText>, fails: Vec<u64>) -> MemoryInputs
        ensures { result ≡ record { texts = pairs_of inputs.items; ended = false; calls = first_calls fails.items } }
    {
        MemoryInputs {
            inputs,
            ended: false,
            script: Script::new(fails),
        }
    }
}

/// The place of the first text of a name.
fn place_of(inputs: &[InputText], name: &[u8]) -> Option<usize>
    ensures is { MatchOption result (text_named (pairs_of inputs.now) name.now ≡ None)
        (λ i. text_named (pairs_of inputs.now) name.now ≡ option_map (λ input. input.text) (slice_get inputs.now i)) }
    ensures within { IfSome result (λ i. i < length inputs.now) }
{
    for i in 0..inputs.len() {
        if inputs[i].name.as_slice() == name {
            return Some(i);
        }
    }
    None
}

impl Inputs for MemoryInputs {
    ghost seen = { inputs_of };

    ghost keeps = { λ old new. new.texts ≡ old.texts };

    fn input(&mut self, alloc: Global, name: &str) -> Result<Bytes, ReadError>
        ensures gives { GivesInput name.now MOST_INPUT (inputs_of self.old) (inputs_of self.new) result }
        ensures same { self.new.texts ≡ self.old.texts }
        ensures later { self.old.calls.faults ≤ self.new.calls.faults }
        ensures steady { StaysUnlessFailed self.old.calls.faults self.new.calls.faults result }
        // The calls of the script fail, and those of a name that is not there.
        ensures exact { OrWant (given_input MOST_INPUT self.old name.now) result }
        ensures calls { self.new.calls ≡ after_call (has_failed result) self.old.calls }
    {
        self.ended = false;
        if self.script.call() {
            return Err(ReadError::Failed);
        }
        let Some(place) = place_of(&self.inputs, name.as_bytes()) else {
            self.script.fail();
            return Err(ReadError::Failed);
        };
        let text = self.inputs[place].text.as_slice();
        if text.len() as u64 > MOST_INPUT {
            return Err(ReadError::TooLong {
                bytes: MOST_INPUT + 1,
            });
        }
        let copy = Bytes::of(alloc, text)?;
        self.ended = true;
        Ok(copy)
    }

    fn faults(&self) -> u64 {
        self.script.faults()
    }
}
