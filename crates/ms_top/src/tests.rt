//! The top call over texts in memory. The names were computed by an independent SHA-256.

use crate::top::{audit, hash_listing, run};
use ms_base::{Bytes, FreeGate, Gate, InputText, MemoryInputs, NoMemory, Point, VecSink};
use std::alloc::Global;
use std::cell::Cell;
use std::test::*;

const HEAD_OF_1: &str =
    "metasync-dump 1 1 0000000000000000000000000000000000000000000000000000000000000000\n";

const HEAD_OF_3: &str =
    "metasync-dump 1 3 0000000000000000000000000000000000000000000000000000000000000000\n";

const HEAD_OF_4: &str =
    "metasync-dump 1 4 0000000000000000000000000000000000000000000000000000000000000000\n";

const HEAD_OF_17: &str =
    "metasync-dump 1 17 0000000000000000000000000000000000000000000000000000000000000000\n";

/// The push of client 0 with number 1, on the genesis.
const X: &str = "5500000000000000000000000000000000000000000000000000000000000000000000000000000001\
1111111111111111111111111111111111111111111111111111111111111111\n";

/// The push of client 1 with number 1, on the genesis.
const Y: &str = "5500000000000000000000000000000000000000000000000000000000000000000000000100000001\
1111111111111111111111111111111111111111111111111111111111111111\n";

/// The fields of an Accept before its entry: position, round and client.
const ACCEPT_1_1_0: &str = "41000000010000000100000000";

const ACCEPT_1_2_1: &str = "41000000010000000200000001";

const PREPARE_1_1_0: &str = "50000000010000000100000000\n";

const PREPARE_1_2_1: &str = "50000000010000000200000001\n";

const GENESIS_ALONE: &str =
    "0 0000000000000000000000000000000000000000000000000000000000000000\nend 0\n";

const X_AT_1: &str = "0 0000000000000000000000000000000000000000000000000000000000000000\n\
1 dade1170d120195e0d69f61b486f4a2f54804bae811baad194b7aa9729458623 push 0 1 \
1111111111111111111111111111111111111111111111111111111111111111\nend 1\n";

const SPLIT_AT_1: &str = "split 1 dade1170d120195e0d69f61b486f4a2f54804bae811baad194b7aa9729458623 \
cedba8d8e18bda70d647eb183e94d30404ceea5247d62594c70d1ae6a7dc26e2\n";

/// A text in parts, the lines that answer it, and the status.
pub(crate) type Case = (&'static [&'static str], &'static str, u8);

/// Dumps.
const DUMPS: [Case; 11] = [
    (&[HEAD_OF_3], GENESIS_ALONE, 0),
    (&[HEAD_OF_3, "0 00"], GENESIS_ALONE, 0),
    (
        &[HEAD_OF_4, "0 ", ACCEPT_1_1_0, X, "1 ", ACCEPT_1_1_0, X],
        GENESIS_ALONE,
        0,
    ),
    (
        &[
            HEAD_OF_3,
            "0 ",
            PREPARE_1_2_1,
            "0 ",
            ACCEPT_1_1_0,
            X,
            "1 ",
            ACCEPT_1_1_0,
            X,
        ],
        GENESIS_ALONE,
        0,
    ),
    (
        &[HEAD_OF_3, "0 ", ACCEPT_1_1_0, X, "1 ", ACCEPT_1_2_1, X],
        GENESIS_ALONE,
        0,
    ),
    (
        &[HEAD_OF_3, "0 ", ACCEPT_1_2_1, X, "1 ", ACCEPT_1_2_1, X],
        X_AT_1,
        0,
    ),
    (
        &[
            HEAD_OF_3,
            "0 ",
            PREPARE_1_1_0,
            "0 ",
            ACCEPT_1_1_0,
            X,
            "1 ",
            ACCEPT_1_1_0,
            X,
            "1 -\n1 ff\n",
        ],
        X_AT_1,
        0,
    ),
    (
        &[HEAD_OF_1, "0 ", ACCEPT_1_1_0, X, "0 ", ACCEPT_1_2_1, Y],
        SPLIT_AT_1,
        10,
    ),
    (&[], "bad input 1\n", 2),
    (&[HEAD_OF_17], "bad input 1\n", 2),
    (&[HEAD_OF_3, "0 00\n0 00\r\n"], "bad input 3\n", 2),
];

/// Listings. The last but two passes a limit: a part of 201 bytes.
const LISTINGS: [Case; 9] = [
    (
        &[],
        "files 0\nobjects 1\nroot 093f931703155bc6bf1c13039ffdb49856410b2b359c93cab8e52059073ecef9\n",
        0,
    ),
    // a!, a.txt, a/x and a0: in the order of their bytes as paths, not of their labels
    (
        &["6130 -\n612f78 32\n612e747874 31\n6121 31\n"],
        "files 4\nobjects 7\nroot b8b0a52e0debb67016128be48ae614ec5948edd3fb55b78db28d33fdada7b138\n",
        0,
    ),
    (&["612f2e2e -\n"], "bad input 1\n", 2),
    (&["61 -\n61 -\n"], "bad input 2\n", 2),
    (&["61 -\n612f62 -\n"], "bad input 2\n", 2),
    (&["61 -\n\n62 -\n"], "bad input 2\n", 2),
    (&[PART_OF_201, " -\n"], "limit part 201\n", 11),
    (&["ff -\n"], "bad input 1\n", 2),
    (&["61 -\r\n"], "bad input 1\n", 2),
];

/// The letter `a` 201 times.
const PART_OF_201: &str =
    "616161616161616161616161616161616161616161616161616161616161616161616161616161616161616161616161616161616161616161616161616161616161616161616161616161616161616161616161616161616161616161616161616161616161616161616161616161616161616161616161616161616161616161616161616161616161616161616161616161616161616161616161616161616161616161616161616161616161616161616161616161616161616161616161616161616161616161";

/// Words that are no command.
const NO_COMMANDS: [&[&str]; 4] = [
    &["audit"],
    &["push", "ann", "--lanes", "5"],
    &["audit", "-x"],
    &[],
];

/// Commands over an input that is not there.
const ABSENT: [&[&str]; 3] = [&["audit", "e"], &["drill", "e"], &["hash", "e"]];

/// Commands over the input `d`.
const PRESENT: [&[&str]; 3] = [&["audit", "d"], &["drill", "d"], &["hash", "d"]];

/// The parts, one after the other.
fn joined(alloc: Global, parts: &[&str]) -> Result<Bytes, NoMemory> {
    let mut text = Vec::new(alloc);
    for part in parts {
        text.extend_from_slice(part.as_bytes())?;
    }
    Ok(Bytes::from_vec(text))
}

/// The text under the name `d`; the calls of these numbers fail.
pub(crate) fn named(alloc: Global, text: Bytes, fails: Vec<u64>) -> Result<MemoryInputs, NoMemory> {
    let mut texts = Vec::new(alloc);
    texts.push(InputText {
        name: Bytes::of(alloc, b"d")?,
        text,
    })?;
    Ok(MemoryInputs::new(texts, fails))
}

/// The text of these parts, under the name `d`.
pub(crate) fn inputs(alloc: Global, parts: &[&str]) -> Result<MemoryInputs, NoMemory> {
    named(alloc, joined(alloc, parts)?, Vec::new(alloc))
}

fn words_of(alloc: Global, words: &[&str]) -> Result<Vec<String>, NoMemory> {
    let mut all = Vec::new(alloc);
    for word in words {
        all.push(String::from_str(alloc, word)?)?;
    }
    Ok(all)
}

/// Whether these words, over these inputs, are answered by the lines and the status.
pub(crate) fn answers_over(
    alloc: Global,
    words: &[&str],
    inputs: Result<MemoryInputs, NoMemory>,
    lines: &str,
    wanted: u8,
) -> bool {
    let (Ok(words), Ok(mut inputs)) = (words_of(alloc, words), inputs) else {
        return false;
    };
    let mut out = VecSink::new(alloc, 1000, Vec::new(alloc));
    let status = run(alloc, &words, &mut inputs, &mut out, &FreeGate);
    out.text() == lines.as_bytes() && status == wanted
}

/// Whether these words, over the text of these parts, are answered by the lines and the status.
pub(crate) fn answers(
    alloc: Global,
    words: &[&str],
    parts: &[&str],
    lines: &str,
    wanted: u8,
) -> bool {
    answers_over(alloc, words, inputs(alloc, parts), lines, wanted)
}

/// Whether the audit of the dump is answered so, by the call and by the words.
fn audits(alloc: Global, case: &Case) -> bool {
    let (parts, lines, wanted) = *case;
    let Ok(mut inputs) = inputs(alloc, parts) else {
        return false;
    };
    let mut out = VecSink::new(alloc, 1000, Vec::new(alloc));
    let status = audit(alloc, "d", &mut inputs, &mut out);
    out.text() == lines.as_bytes()
        && status == wanted
        && answers(alloc, &["audit", "d"], parts, lines, wanted)
}

#[test]
fn audits_of_dumps(rt: HostRuntime) {
    for case in &DUMPS {
        assert!(rt; audits(rt.alloc(), case));
    }
}

/// Whether the hash of the listing is answered so, by the call and by the words.
fn hashes(alloc: Global, case: &Case) -> bool {
    let (parts, lines, wanted) = *case;
    let Ok(mut inputs) = inputs(alloc, parts) else {
        return false;
    };
    let mut out = VecSink::new(alloc, 1000, Vec::new(alloc));
    let status = hash_listing(alloc, "d", &mut inputs, &mut out);
    out.text() == lines.as_bytes()
        && status == wanted
        && answers(alloc, &["hash", "d"], parts, lines, wanted)
}

#[test]
fn hashes_of_listings(rt: HostRuntime) {
    for case in &LISTINGS {
        assert!(rt; hashes(rt.alloc(), case));
    }
}

#[test]
fn words_outside_the_grammar(rt: HostRuntime) {
    for words in &NO_COMMANDS {
        assert!(rt; answers(rt.alloc(), words, &[HEAD_OF_3], "usage\n", 1));
    }
}

/// The answers of two runs over the same inputs, of which the call with this number fails.
fn runs_twice(alloc: Global, fails: u64) -> Result<[u8; 2], NoMemory> {
    let words = words_of(alloc, &["audit", "d"])?;
    let text = joined(alloc, &[HEAD_OF_3])?;
    let mut inputs = named(alloc, text, Vec::from_slice(alloc, &[fails])?)?;
    let mut out = VecSink::new(alloc, 1000, Vec::new(alloc));
    let first = run(alloc, &words, &mut inputs, &mut out, &FreeGate);
    let second = run(alloc, &words, &mut inputs, &mut out, &FreeGate);
    Ok([first, second])
}

#[test]
fn a_fault_of_the_input_is_that_of_its_run(rt: HostRuntime) {
    let alloc = rt.alloc();
    assert!(rt; runs_twice(alloc, 0) == Ok([3, 0]));
    assert!(rt; runs_twice(alloc, 1) == Ok([0, 3]));
}

#[test]
fn inputs_that_are_not_there(rt: HostRuntime) {
    for words in &ABSENT {
        assert!(rt; answers(rt.alloc(), words, &[HEAD_OF_3], "fault input\n", 3));
    }
}

/// Whether the words are refused over an input of one byte too many.
fn is_too_long(alloc: Global, words: &[&str]) -> bool {
    let Ok(text) = vec![in alloc; 0u8; 16_777_217] else {
        return false;
    };
    let inputs = named(alloc, Bytes::from_vec(text), Vec::new(alloc));
    answers_over(alloc, words, inputs, "limit input 16777217\n", 11)
}

#[test]
fn inputs_of_one_byte_too_many(rt: HostRuntime) {
    for words in &PRESENT {
        assert!(rt; is_too_long(rt.alloc(), words));
    }
}

/// Whether a sink whose second call fails has a front of the lines.
fn writes_a_front(alloc: Global) -> Result<bool, NoMemory> {
    let mut inputs = inputs(alloc, &[HEAD_OF_3])?;
    let mut out = VecSink::new(alloc, 2, Vec::from_slice(alloc, &[1])?);
    Ok(audit(alloc, "d", &mut inputs, &mut out) == 3 && out.text() == b"0 ".as_slice())
}

#[test]
fn a_fault_of_the_sink_leaves_a_front(rt: HostRuntime) {
    assert!(rt; writes_a_front(rt.alloc()) == Ok(true));
}

/// Counts the points that it is told of.
#[derive(Drop)]
struct CountingGate {
    reached: Cell<u64>,
}

impl Gate for CountingGate {
    fn reach(&self, _point: Point) {
        self.reached.set(self.reached.get().saturating_add(1));
    }
}

/// How many points a gate is told of in an audit.
fn points_of_an_audit(alloc: Global) -> Result<u64, NoMemory> {
    let gate = CountingGate {
        reached: Cell::new(0),
    };
    let words = words_of(alloc, &["audit", "d"])?;
    let mut inputs = inputs(alloc, &[HEAD_OF_3])?;
    let mut out = VecSink::new(alloc, 1000, Vec::new(alloc));
    run(alloc, &words, &mut inputs, &mut out, &gate);
    Ok(gate.reached.get())
}

#[test]
fn an_audit_waits_for_nobody(rt: HostRuntime) {
    assert!(rt; points_of_an_audit(rt.alloc()) == Ok(0));
}
