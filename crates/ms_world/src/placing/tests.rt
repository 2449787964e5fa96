//! Folders of which it is known whether they are placed.

ghost use Rattle.std.specs.Prelude.{IfOk, OnOk, All};
ghost use Rattle.ms_world.specs.PutTexts.{ArePutsNamed};

use super::is_placed;
use crate::service::Log;
use ms_base::{Bytes, NoMemory, ServiceId};
use ms_object::name_of;
use ms_record::{LogEvent, Plan, PlanRow};
use std::alloc::Global;
use std::test::*;

/// A service, a generation, and the number of a text that was put there.
type Given = (usize, u32, usize);

const BLOB: &[u8] = b"Babc";

/// A file of 3 bytes, up to the name of its blob.
const FILE: &[u8] = b"F\x00\x00\x00\x00\x00\x00\x00\x03\x00\x00\x00\x01";

/// A directory of the file `a`, up to its name.
const DIR: &[u8] = b"D\x00\x00\x00\x01f\x01a";

/// The version of client 0 with number 0 and no parents, up to its root.
const VERSION: &[u8] = b"V\x00\x00\x00\x00\x00\x00\x00\x00\x00";

/// Replicas, what was put of a blob, its file, its directory and its version, and whether that is placed.
const CASES: [(u32, &[Given], bool); 8] = [
    (1, &[(0, 1, 0), (0, 1, 1), (0, 1, 2), (0, 1, 3)], true),
    (1, &[(2, 1, 0), (0, 1, 1), (2, 1, 2), (0, 1, 3)], true),
    // no blob
    (1, &[(0, 1, 1), (0, 1, 2), (0, 1, 3)], false),
    // no directory
    (1, &[(0, 1, 0), (0, 1, 1), (0, 1, 3)], false),
    // the blob at a service that the plan does not name
    (1, &[(1, 1, 0), (0, 1, 1), (0, 1, 2), (0, 1, 3)], false),
    // the blob in another generation
    (1, &[(0, 2, 0), (0, 1, 1), (0, 1, 2), (0, 1, 3)], false),
    // the blob twice at one service
    (
        2,
        &[
            (0, 1, 0),
            (0, 1, 1),
            (0, 1, 2),
            (0, 1, 3),
            (0, 1, 0),
            (1, 1, 0),
            (2, 1, 1),
            (2, 1, 2),
            (2, 1, 3),
        ],
        false,
    ),
    (
        2,
        &[
            (0, 1, 0),
            (0, 1, 1),
            (0, 1, 2),
            (0, 1, 3),
            (2, 1, 0),
            (2, 1, 1),
            (2, 1, 2),
            (2, 1, 3),
        ],
        true,
    ),
];

/// Each text at service 0.
const ALL: [Given; 4] = [(0, 1, 0), (0, 1, 1), (0, 1, 2), (0, 1, 3)];

/// The front, and the name of the last text behind it, as the next text.
fn add(texts: &mut Vec<Bytes>, front: &[u8]) -> Result<(), NoMemory> {
    let mut text = Vec::from_slice(*texts.allocator(), front)?;
    if let Some(named) = texts.last() {
        text.extend_from_slice(&name_of(named.as_slice()).0)?;
    }
    texts.push(Bytes::from_vec(text))?;
    Ok(())
}

/// A text for each front, which names the text before it.
fn texts_of(alloc: Global, fronts: &[&[u8]]) -> Result<Vec<Bytes>, NoMemory> {
    let mut texts = Vec::new(alloc);
    for front in fronts {
        add(&mut texts, front)?;
    }
    Ok(texts)
}

/// Puts a text under its name.
fn put(log: &mut Log, generation: u32, text: Bytes) -> Result<(), NoMemory>
    ensures { ArePutsNamed log.old → OnOk result (ArePutsNamed log.new) }
{
    log.push(LogEvent::Put {
        generation,
        name: name_of(text.as_slice()),
        text,
    })
}

/// The log of a service.
fn log_of(alloc: Global, texts: &[Bytes], given: &[Given], service: usize) -> Result<Log, NoMemory>
    ensures { IfOk result ArePutsNamed }
{
    let mut log = Log::new(alloc);
    for (at, generation, number) in given {
        let Some(text) = texts.get(*number) else {
            continue;
        };
        if *at != service {
            continue;
        }
        put(&mut log, *generation, Bytes::of(alloc, text.as_slice())?)?;
    }
    Ok(log)
}

/// The logs of three services.
fn logs_of(alloc: Global, texts: &[Bytes], given: &[Given]) -> Result<Vec<Log>, NoMemory>
    ensures { IfOk result (λ logs. All ArePutsNamed logs.items) }
{
    let mut logs = Vec::new(alloc);
    for service in 0..3 {
        logs.push(log_of(alloc, texts, given, service)?)?;
    }
    Ok(logs)
}

/// A plan of generation 1 at the services 0 and 2.
fn plan_of(replicas: u32) -> Option<Plan> {
    let rows = [0, 2].map(|service| PlanRow {
        service: ServiceId(service),
        capacity: 1,
    });
    Plan::new(1, 1, replicas, 1, &rows)
}

/// Whether the last text is placed.
fn answer(alloc: Global, plan: &Plan, texts: &[Bytes], given: &[Given]) -> Result<bool, NoMemory> {
    let Some(version) = texts.last() else {
        return Ok(false);
    };
    let logs = logs_of(alloc, texts, given)?;
    is_placed(alloc, &logs, plan, &name_of(version.as_slice()))
}

#[test]
fn a_folder_of_one_file(rt: HostRuntime) -> Result<(), Fail> {
    let alloc = rt.alloc();
    let texts = texts_of(alloc, &[BLOB, FILE, DIR, VERSION])
        .ok()
        .ok_or("memory")?;
    for (replicas, given, placed) in CASES {
        let plan = plan_of(replicas).ok_or("a plan")?;
        let answered = answer(alloc, &plan, &texts, given).ok().ok_or("memory")?;
        assert_eq!(rt; answered, placed);
    }
    Ok(())
}

#[test]
fn texts_of_another_kind(rt: HostRuntime) -> Result<(), Fail> {
    let alloc = rt.alloc();
    let plan = plan_of(1).ok_or("a plan")?;
    for (fronts, placed) in [
        ([BLOB, FILE, DIR, VERSION], true),
        // the root is a file, and a blob
        ([BLOB, DIR, FILE, VERSION], false),
        ([FILE, DIR, BLOB, VERSION], false),
        // a directory's row names a blob
        ([FILE, BLOB, DIR, VERSION], false),
        // no version
        ([VERSION, BLOB, FILE, DIR], false),
    ] {
        let texts = texts_of(alloc, &fronts).ok().ok_or("memory")?;
        let answered = answer(alloc, &plan, &texts, &ALL).ok().ok_or("memory")?;
        assert_eq!(rt; answered, placed);
    }
    Ok(())
}
