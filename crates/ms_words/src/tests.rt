//! Commands from words, and the lines of reports. The names were computed by an independent SHA-256.

use crate::{Command, Report, Verb, WordsError, print_report, read_words, status};
use ms_base::{ClientId, Items, Name, NoMemory, Quantity, ServiceId};
use ms_record::{
    Ballot, Entry, Key, Place, Plan, PlanRow, Reason, ReasonRow, Refusal, Rival, ServiceSet, Why,
    wrong_line,
};
use std::alloc::Global;
use std::test::*;

/// Words that are written with `|` between them; an empty text has none.
fn words_of(alloc: Global, text: &str) -> Result<Vec<String>, NoMemory> {
    let mut all = Vec::new(alloc);
    if text.is_empty() {
        return Ok(all);
    }
    for word in text.split('|') {
        all.push(String::from_str(alloc, word)?)?;
    }
    Ok(all)
}

/// Whether the words are the command of this verb on this file.
fn is_command(alloc: Global, text: &str, verb: Verb, name: &str) -> bool {
    let Ok(words) = words_of(alloc, text) else {
        return false;
    };
    let (read, file) = match read_words(alloc, &words) {
        Ok(Command::Audit { file }) => (Verb::Audit, file),
        Ok(Command::Drill { file }) => (Verb::Drill, file),
        Ok(Command::Hash { file }) => (Verb::Hash, file),
        Err(_) => return false,
    };
    read == verb && file.as_str() == name
}

#[test]
fn audit_takes_one_file(rt: HostRuntime) {
    assert!(rt; is_command(rt.alloc(), "audit|a b", Verb::Audit, "a b"));
}

#[test]
fn drill_takes_one_file(rt: HostRuntime) {
    assert!(rt; is_command(rt.alloc(), "drill|a", Verb::Drill, "a"));
}

#[test]
fn hash_takes_one_file(rt: HostRuntime) {
    assert!(rt; is_command(rt.alloc(), "hash|/a/b", Verb::Hash, "/a/b"));
}

/// Words outside the grammar.
const NO_COMMANDS: [&str; 13] = [
    "",
    "audit",
    "audit|-x",
    "audit|a|b",
    "Audit|a",
    "audit |a",
    "push|ann|--lanes|5",
    "hash",
    "drill",
    "drill|-a",
    "hash|-",
    "hashes|a",
    "|",
];

fn is_usage(alloc: Global, text: &str) -> bool {
    match words_of(alloc, text) {
        Ok(words) => matches!(read_words(alloc, &words), Err(WordsError::Usage)),
        Err(_) => false,
    }
}

#[test]
fn words_outside_the_grammar(rt: HostRuntime) {
    for text in NO_COMMANDS {
        assert!(rt; is_usage(rt.alloc(), text));
    }
}

/// Whether the report has these lines and this status.
fn tells(alloc: Global, report: &Report, lines: &str, wanted: u8) -> bool {
    let mut text = Vec::new(alloc);
    print_report(report, &mut text).is_ok()
        && text.as_slice() == lines.as_bytes()
        && status(report) == wanted
}

#[test]
fn lines_of_a_chain(rt: HostRuntime) {
    let push = Entry {
        before: Name([0; 32]),
        client: ClientId(0),
        number: 1,
        version: Name([17; 32]),
        plan: None,
    };
    let row = PlanRow {
        service: ServiceId(0),
        capacity: 1,
    };
    let plan = Plan::new(3, 1, 1, 1, &[row]);
    assert!(rt; plan.is_some());
    let turn = Entry {
        client: ClientId(15),
        number: 4_294_967_295,
        plan,
        ..push
    };
    let mut entries = Items::new(rt.alloc());
    assert!(rt; entries.push(push).is_ok());
    assert!(rt; entries.push(turn).is_ok());
    let report = Report::Audit {
        genesis: Name([0; 32]),
        entries,
    };
    let lines = "0 0000000000000000000000000000000000000000000000000000000000000000\n\
        1 dade1170d120195e0d69f61b486f4a2f54804bae811baad194b7aa9729458623 push 0 1 1111111111111111111111111111111111111111111111111111111111111111\n\
        2 c4c285314f09ed9d9adc0c7971fbed77fdcc922349f8a095480f471812c64bbb plan 15 4294967295 1111111111111111111111111111111111111111111111111111111111111111 3\n\
        end 2\n";
    assert!(rt; tells(rt.alloc(), &report, lines, 0));
}

#[test]
fn lines_of_a_drill(rt: HostRuntime) {
    let mut known = Items::new(rt.alloc());
    assert!(rt; known.push(0).is_ok());
    assert!(rt; known.push(4_294_967_294).is_ok());
    let report = Report::Drill {
        genesis: Name([0; 32]),
        entries: Items::new(rt.alloc()),
        known,
    };
    let lines = "0 0000000000000000000000000000000000000000000000000000000000000000\nend 0\n\
        client 0 knows 0\nclient 1 knows 4294967294\n";
    assert!(rt; tells(rt.alloc(), &report, lines, 0));
}

#[test]
fn lines_of_a_tree(rt: HostRuntime) {
    let report = Report::Hash {
        files: 100_000,
        objects: 18_446_744_073_709_551_615,
        root: Name([171; 32]),
    };
    let lines = "files 100000\nobjects 18446744073709551615\n\
        root abababababababababababababababababababababababababababababababab\n";
    assert!(rt; tells(rt.alloc(), &report, lines, 0));
}

/// The line and the status of each refusal below.
const REFUSALS: [(&str, u8); 17] = [
    ("usage\n", 1),
    ("bad config 5\n", 2),
    ("bad input 4294967295\n", 2),
    ("fault keep\n", 3),
    ("no majority 1 15\n", 5),
    (
        "contended\nservice 3 round 4294967295 client 15\nservice 0 round 1 client 0\n",
        6,
    ),
    ("unlisted 2\n", 17),
    ("no memory\n", 8),
    (
        "split 2 1111111111111111111111111111111111111111111111111111111111111111 \
        abababababababababababababababababababababababababababababababab\n",
        10,
    ),
    ("limit input 16777217\n", 11),
    ("event 18 turned\n", 16),
    (
        "lost 1111111111111111111111111111111111111111111111111111111111111111\n\
        service 2 failed\nservice 0 absent\n\
        service 15 altered abababababababababababababababababababababababababababababababab\n",
        7,
    ),
    ("damaged state\n", 9),
    (
        "damaged abababababababababababababababababababababababababababababababab\n",
        9,
    ),
    ("collected 4294967294\n", 13),
    (
        "too few 1111111111111111111111111111111111111111111111111111111111111111 1 15\n",
        14,
    ),
    (
        "broken abababababababababababababababababababababababababababababababab\n",
        18,
    ),
];

fn ballot(round: u32, client: u32) -> Ballot {
    Ballot {
        round,
        client: ClientId(client),
    }
}

fn rival(service: u32, round: u32, client: u32) -> Rival {
    Rival {
        service: ServiceId(service),
        top: ballot(round, client),
    }
}

/// Services 1 and 15.
fn two() -> ServiceSet {
    let mut failed = ServiceSet::none();
    failed.add(ServiceId(1));
    failed.add(ServiceId(15));
    failed
}

fn reason(service: u32, reason: Reason) -> ReasonRow {
    ReasonRow {
        service: ServiceId(service),
        reason,
    }
}

/// The refusals of commands that read and place objects.
fn object_refusal_at(place: usize, reasons: Vec<ReasonRow>) -> Refusal {
    match place {
        11 => Refusal::LostObject {
            name: Name([17; 32]),
            reasons: Items::from_vec(reasons),
        },
        12 => Refusal::LocalDamaged { key: Key::State },
        13 => Refusal::LocalDamaged {
            key: Key::Object {
                name: Name([171; 32]),
            },
        },
        14 => Refusal::Collected {
            floor: 4_294_967_294,
        },
        15 => Refusal::TooFew {
            name: Name([17; 32]),
            failed: two(),
        },
        _ => Refusal::Broken {
            name: Name([171; 32]),
        },
    }
}

fn refusal_at(place: usize, rivals: Vec<Rival>) -> Refusal {
    match place {
        0 => Refusal::Usage,
        1 => wrong_line(Place::Config, 5),
        2 => wrong_line(Place::Input, 4_294_967_295),
        3 => Refusal::OutsideFault { place: Place::Keep },
        4 => Refusal::NoMajority { failed: two() },
        5 => Refusal::Contended {
            rivals: Items::from_vec(rivals),
        },
        6 => Refusal::Unlisted {
            service: ServiceId(2),
            ballot: ballot(7, 3),
        },
        7 => Refusal::NoMemory,
        8 => Refusal::Split {
            position: 2,
            first: Name([17; 32]),
            second: Name([171; 32]),
        },
        9 => Refusal::Limit {
            what: Quantity::Input,
            value: 16_777_217,
        },
        _ => Refusal::NotEnabled {
            event: 18,
            why: Why::Turned,
        },
    }
}

fn refusal_tells(alloc: Global, place: usize, told: (&str, u8)) -> bool {
    let mut rivals = Vec::new(alloc);
    if rivals.push(rival(3, 4_294_967_295, 15)).is_err() || rivals.push(rival(0, 1, 0)).is_err() {
        return false;
    }
    let refusal = refusal_at(place, rivals);
    tells(alloc, &Report::Refused { refusal }, told.0, told.1)
}

fn object_refusal_tells(alloc: Global, place: usize, told: (&str, u8)) -> bool {
    let rows = [
        reason(2, Reason::Failed),
        reason(0, Reason::Absent),
        reason(
            15,
            Reason::Altered {
                found: Name([171; 32]),
            },
        ),
    ];
    let Ok(reasons) = Vec::from_slice(alloc, &rows) else {
        return false;
    };
    let refusal = object_refusal_at(place, reasons);
    tells(alloc, &Report::Refused { refusal }, told.0, told.1)
}

#[test]
fn lines_of_refusals_on_objects(rt: HostRuntime) {
    for place in 11..REFUSALS.len() {
        assert!(rt; object_refusal_tells(rt.alloc(), place, REFUSALS[place]));
    }
}

#[test]
fn lines_of_refusals(rt: HostRuntime) {
    for place in 0..11 {
        assert!(rt; refusal_tells(rt.alloc(), place, REFUSALS[place]));
    }
}
