//! Whole texts through sources, sinks and inputs in memory and over std, some of which fail.

ghost use Rattle.std.specs.Prelude.{◌<◌};

use crate::fields::{
    fields_are_spelled, push_bytes, push_name, push_u8, push_u32, push_u64, read_bytes,
    read_client, read_name, read_u8, read_u32, read_u64, spelled_fields_are_read,
};
use crate::limits::INPUT_BYTES;
use crate::{
    Bytes, ClientId, FreeGate, Gate, InputText, Inputs, Items, MemoryInputs, Name, NoMemory, Point,
    ReadError, ServiceId, Sink, Source, StdSink, StdSource, VecSink, VecSource, read_all,
    write_all,
};
use std::alloc::Global;
use std::io::{Result as IoResult, Write};
use std::test::*;

/// A source of a text in steps, whose calls of these numbers fail.
fn source(alloc: Global, text: &[u8], step: u64, fails: &[u64]) -> Result<VecSource, NoMemory>
    requires { 0 < step }
{
    let fails = Vec::from_slice(alloc, fails)?;
    Ok(VecSource::new(Bytes::of(alloc, text)?, step, fails))
}

/// Whether all of the text comes in steps of this size, and no fault is counted.
fn comes_whole(alloc: Global, text: &[u8], step: u64) -> bool
    requires { 0 < step }
{
    let Ok(mut from) = source(alloc, text, step, &[]) else {
        return false;
    };
    match read_all(alloc, &mut from, INPUT_BYTES) {
        Ok(read) => read.as_slice() == text && from.faults() == 0,
        Err(_) => false,
    }
}

#[test]
fn all_bytes_come_in_any_steps(rt: HostRuntime) {
    for step in 1..9 {
        assert!(rt; comes_whole(rt.alloc(), b"hello\n", step));
    }
}

/// Whether reading this text at this limit says that it is too long.
fn is_too_long(alloc: Global, text: &[u8], limit: u64) -> bool
    requires { limit < 4294967296 }
{
    let Ok(mut from) = source(alloc, text, 65_536, &[]) else {
        return false;
    };
    match read_all(alloc, &mut from, limit) {
        Err(ReadError::TooLong { bytes }) => bytes == limit + 1,
        _ => false,
    }
}

#[test]
fn a_text_above_the_limit_is_refused(rt: HostRuntime) {
    assert!(rt; is_too_long(rt.alloc(), b"hello\n", 5));
}

#[test]
fn nothing_is_short_enough(rt: HostRuntime) {
    assert!(rt; comes_whole(rt.alloc(), b"", 4));
}

/// Whether a source that fails once in mid-stream is read on behind the fault.
fn goes_on_behind_a_fault(alloc: Global) -> bool {
    let Ok(mut from) = source(alloc, b"hello\n", 2, &[1]) else {
        return false;
    };
    let failed = matches!(read_all(alloc, &mut from, 9), Err(ReadError::Failed));
    let counted = from.faults() == 1;
    match read_all(alloc, &mut from, 9) {
        Ok(text) => failed && counted && text.as_slice() == b"llo\n".as_slice(),
        Err(_) => false,
    }
}

#[test]
fn a_fault_in_mid_stream_is_counted(rt: HostRuntime) {
    assert!(rt; goes_on_behind_a_fault(rt.alloc()));
}

/// Whether the sink that fails at these calls holds this text after `hello` was written.
fn holds_of_hello(alloc: Global, fails: &[u64], text: &[u8]) -> bool {
    let Ok(fails) = Vec::from_slice(alloc, fails) else {
        return false;
    };
    let mut out = VecSink::new(alloc, 2, fails);
    let written = write_all(&mut out, b"hello").is_ok();
    out.text() == text && written == (out.faults() == 0)
}

#[test]
fn all_is_written_in_steps(rt: HostRuntime) {
    assert!(rt; holds_of_hello(rt.alloc(), &[], b"hello"));
}

#[test]
fn a_front_is_written_before_a_fault(rt: HostRuntime) {
    assert!(rt; holds_of_hello(rt.alloc(), &[1], b"he"));
}

/// Inputs of one name with two texts, whose calls of these numbers fail.
fn inputs(alloc: Global, fails: &[u64]) -> Result<MemoryInputs, NoMemory> {
    let fails = Vec::from_slice(alloc, fails)?;
    let mut texts = Vec::new(alloc);
    for text in [b"1", b"2"] {
        let name = Bytes::of(alloc, b"f")?;
        let text = Bytes::of(alloc, text)?;
        texts.push(InputText { name, text })?;
    }
    Ok(MemoryInputs::new(texts, fails))
}

/// Whether the inputs give the first text of the name.
fn gives_the_first(alloc: Global, inputs: &mut MemoryInputs) -> bool {
    match inputs.input(alloc, "f") {
        Ok(text) => text.as_slice() == b"1".as_slice(),
        Err(_) => false,
    }
}

#[test]
fn the_first_text_of_a_name_counts(rt: HostRuntime) {
    let mut inputs = inputs(rt.alloc(), &[]).expect(&rt, "memory");
    assert!(rt; gives_the_first(rt.alloc(), &mut inputs));
}

#[test]
fn no_text_has_that_name(rt: HostRuntime) {
    let mut inputs = inputs(rt.alloc(), &[]).expect(&rt, "memory");
    assert!(rt; matches!(inputs.input(rt.alloc(), "g"), Err(ReadError::Failed)));
}

#[test]
fn a_first_call_that_fails(rt: HostRuntime) {
    let mut inputs = inputs(rt.alloc(), &[0]).expect(&rt, "memory");
    assert!(rt; !gives_the_first(rt.alloc(), &mut inputs));
    assert!(rt; gives_the_first(rt.alloc(), &mut inputs));
    assert_eq!(rt; inputs.faults(), 1);
}

/// A text of so many bytes.
fn zeros(alloc: Global, count: usize) -> Result<Vec<u8>, NoMemory> {
    Ok(vec![in alloc; 0u8; count]?)
}

/// Whether a reader of std of so many bytes is read to its end.
fn reads_through_std(alloc: Global, count: usize) -> bool {
    let Ok(text) = zeros(alloc, count) else {
        return false;
    };
    let mut from = StdSource::new(text.as_slice());
    match read_all(alloc, &mut from, INPUT_BYTES) {
        Ok(read) => read.as_slice().len() == count && from.faults() == 0,
        Err(_) => false,
    }
}

#[test]
fn two_hundred_thousand_bytes_through_std(rt: HostRuntime) {
    assert!(rt; reads_through_std(rt.alloc(), 200_000));
}

#[test]
fn a_byte_above_the_limit_of_inputs(rt: HostRuntime) {
    assert!(rt; !reads_through_std(rt.alloc(), 16_777_217));
}

/// A writer that takes two bytes a call, and nothing from its sixth byte on.
#[derive(Drop)]
struct Short {
    text: Vec<u8>,
}

impl Write for Short {
    fn write(&mut self, from: &[u8]) -> IoResult<usize> {
        let room = 6usize.saturating_sub(self.text.len());
        let count = from.len().min(2).min(room);
        match self.text.extend_from_slice(&from[..count]) {
            Ok(()) => Ok(count),
            Err(_) => Ok(0),
        }
    }

    fn flush(&mut self) -> IoResult<()> {
        Ok(())
    }
}

/// Whether a text is written whole, and how many faults are counted then.
fn writes_short(alloc: Global, text: &[u8], faults: u64) -> bool {
    let mut out = StdSink::new(Short {
        text: Vec::new(alloc),
    });
    write_all(&mut out, text).is_ok() == (faults == 0) && out.faults() == faults
}

#[test]
fn short_writes_go_on(rt: HostRuntime) {
    assert!(rt; writes_short(rt.alloc(), b"hello", 0));
}

#[test]
fn a_writer_that_takes_nothing_is_a_fault(rt: HostRuntime) {
    assert!(rt; writes_short(rt.alloc(), b"hello, you", 1));
}

/// Whether items come back as they were put.
fn keeps_items(alloc: Global) -> bool {
    let mut numbers = Items::new(alloc);
    let pushed = numbers.push(7u64).is_ok() && numbers.len() == 1;
    let back = Items::from_vec(numbers.into_vec());
    pushed && back.get(0).copied() == Some(7) && back.as_slice().len() == 1
}

#[test]
fn lists_are_lists(rt: HostRuntime) {
    assert!(rt; keeps_items(rt.alloc()));
}

#[test]
fn a_free_gate_is_passed(rt: HostRuntime) {
    let gate = FreeGate;
    gate.reach(Point::Append {
        client: ClientId(0),
        service: ServiceId(0),
    });
    let _ = rt;
}

/// Whether fields of each kind are spelled big-endian.
fn fields_spell(alloc: Global) -> bool {
    let mut out = Vec::new(alloc);
    let pushed = push_u8(&mut out, 66).is_ok()
        && push_bytes(&mut out, b"!").is_ok()
        && push_u32(&mut out, 258).is_ok()
        && push_u64(&mut out, 259).is_ok()
        && push_name(&mut out, &Name([7; 32])).is_ok();
    pushed && out.len() == 46 && out.starts_with(b"B!\0\0\x01\x02\0\0\0\0\0\0\x01\x03\x07")
}

#[test]
fn fields_are_big_endian(rt: HostRuntime) {
    fields_are_spelled();
    spelled_fields_are_read();
    assert!(rt; fields_spell(rt.alloc()));
}

#[test]
fn numbers_are_read_big_endian(rt: HostRuntime) {
    assert!(rt; matches!(read_u32(b"\0\0\x01\x02"), Some((258, []))));
    assert!(rt; matches!(read_u64(b"\0\0\0\0\0\0\x01\x03"), Some((259, []))));
}

#[test]
fn a_client_is_below_sixteen(rt: HostRuntime) {
    assert!(rt; matches!(read_client(b"\0\0\0\x0f"), Some((ClientId(15), []))));
    assert!(rt; read_client(b"\0\0\0\x10").is_none());
}

#[test]
fn bytes_are_read_from_the_front(rt: HostRuntime) {
    assert!(rt; matches!(read_u8(b"ab"), Some((b'a', [b'b']))));
    assert!(rt; matches!(read_bytes(1, b"ab"), Some(([b'a'], [b'b']))));
    assert!(rt; read_name(b"ab").is_none());
}
