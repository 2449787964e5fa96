//! Drills over texts in memory. The expected lines were computed by `bench/drill_reference.py`.

use crate::tests::{Case, answers, answers_over, inputs, named};
use crate::top::drill;
use ms_base::{Bytes, MemoryInputs, NoMemory, VecSink};
use std::alloc::Global;
use std::test::*;

/// One service and one client agree on a push of the empty folder.
const ONE_SERVICE: &str = "metasync-drill 1 1 1 1\nstart 0\nplace 0 1 4400000000\n\
place 0 1 56000000000000000100093f931703155bc6bf1c13039ffdb49856410b2b359c93cab8e52059073ecef9\n\
bid 0 1 1 5dcd779c992ce8abd8d1d159273fbb738b716051a07d5b005f2e672f18a67455\ndeliver 0\nread 0 0 3\noffer 0\n\
deliver 1\ndeliver 1\nread 0 0 5\nlearn 0\n";

const ONE_SERVICE_TOLD: &str =
    "0 44ebb44cc06eea957b7551f688dcf920a89239cae3a7867c469add64036f2579\n\
1 4ab950372736ee82fef4e652b16a152aaa1ca46b2a9e98a028ef065265974a3b push 0 1 5dcd779c992ce8abd8d1d159273fbb738b716051a07d5b005f2e672f18a67455\n\
end 1\nclient 0 knows 1\n";

/// Then all is placed in generation 2, and the client offers to turn to it.
const TURN: &str = "place 0 2 4400000000\n\
place 0 2 56000000000000000100093f931703155bc6bf1c13039ffdb49856410b2b359c93cab8e52059073ecef9\nturn 0 2 2 2 1 0\n\
deliver 2\nread 0 0 8\noffer 0\n";

const TURN_TOLD: &str = "0 44ebb44cc06eea957b7551f688dcf920a89239cae3a7867c469add64036f2579\n\
1 4ab950372736ee82fef4e652b16a152aaa1ca46b2a9e98a028ef065265974a3b push 0 1 5dcd779c992ce8abd8d1d159273fbb738b716051a07d5b005f2e672f18a67455\n\
2 9d094ad3437c65830b1aa50a48efc720a03e01a39dbcbc12e53b17e699068698 plan 0 2 5dcd779c992ce8abd8d1d159273fbb738b716051a07d5b005f2e672f18a67455 2\n\
end 2\nclient 0 knows 1\n";

/// An empty folder of format 2, and a version of it with number 2.
const FORMAT_2: &str = "place 0 1 4500000000\n\
place 0 1 5700000000000000020090175564e84299ca421d8771ec884c261b6f216a2cf0b6cacbecff84a450751a\n";

/// The client migrates to that version, and the plan is chosen.
const MIGRATE: &str =
    "migrate 0 2 2 f80df0118d5d9057282346f0e4717450d24464920cc55eebd2c2915fbcea44e4\ndeliver 2\n\
read 0 0 8\noffer 0\ndeliver 3\nread 0 0 9\nlearn 0\n";

/// Then a push of format 2 is chosen.
const PUSH_2: &str =
    "place 0 1 5700000000000000030090175564e84299ca421d8771ec884c261b6f216a2cf0b6cacbecff84a450751a\n\
bid 0 3 3 c225112482635dd5404b1e9a7ac703651fa1a14a81701902790ca947ee8e6ed9\ndeliver 4\nread 0 0 11\noffer 0\ndeliver 5\n\
read 0 0 12\nlearn 0\n";

const PUSH_2_TOLD: &str = "0 44ebb44cc06eea957b7551f688dcf920a89239cae3a7867c469add64036f2579\n\
1 4ab950372736ee82fef4e652b16a152aaa1ca46b2a9e98a028ef065265974a3b push 0 1 5dcd779c992ce8abd8d1d159273fbb738b716051a07d5b005f2e672f18a67455\n\
2 00538f294194fab88b7cb3d3278bdca2a9f12fac83c670c1030360bfa6c2ca81 plan 0 2 f80df0118d5d9057282346f0e4717450d24464920cc55eebd2c2915fbcea44e4 1\n\
3 4ab17a4a22354338ec1b85bed2349ed445bef56f2d91fd16d775cc205596ee99 push 0 3 c225112482635dd5404b1e9a7ac703651fa1a14a81701902790ca947ee8e6ed9\n\
end 3\nclient 0 knows 3\n";

/// The version of format 1, once more.
const PUSH_1: &str = "bid 0 3 3 5dcd779c992ce8abd8d1d159273fbb738b716051a07d5b005f2e672f18a67455\n";

const MIGRATE_AGAIN: &str =
    "migrate 0 3 3 f80df0118d5d9057282346f0e4717450d24464920cc55eebd2c2915fbcea44e4\n";

/// The version of format 2, before the migration.
const PUSH_TOO_SOON: &str =
    "bid 0 2 2 f80df0118d5d9057282346f0e4717450d24464920cc55eebd2c2915fbcea44e4\n";

/// Client 1 bids over client 0, whose Accepts come too late; both learn what client 1 offered.
const OVERTAKEN: &str = "metasync-drill 1 3 2 1\nstart 0\nstart 1\nplace 0 1 4400000000\n\
place 0 1 56000000000000000100093f931703155bc6bf1c13039ffdb49856410b2b359c93cab8e52059073ecef9\n\
bid 0 1 1 5dcd779c992ce8abd8d1d159273fbb738b716051a07d5b005f2e672f18a67455\n\
bid 1 1 2 5dcd779c992ce8abd8d1d159273fbb738b716051a07d5b005f2e672f18a67455\ndeliver 0\ndeliver 1\nread 0 0 3\n\
read 0 1 1\noffer 0\ndeliver 3\ndeliver 4\ndeliver 6\ndeliver 7\nread 1 0 4\nread 1 1 2\noffer 1\ndeliver 9\n\
deliver 10\nread 1 0 6\nread 1 1 4\nlearn 1\nread 0 0 6\nread 0 1 4\nlearn 0\n";

const OVERTAKEN_TOLD: &str = "0 8dafeee32b60ad97c4eb37e4657bc895ceec4ccdd5b307d563840b7581b1530a\n\
1 67106597056353127321643e81fb2b98fd778440af08d9ac1b49e5bc16e4ae09 push 1 2 5dcd779c992ce8abd8d1d159273fbb738b716051a07d5b005f2e672f18a67455\n\
end 1\nclient 0 knows 1\nclient 1 knows 1\n";

/// Client 0 stops with one of its Accepts taken and the others never delivered; client 1 settles its push.
const STOPPED: &str = "metasync-drill 1 3 2 1\nstart 0\nplace 0 1 4400000000\n\
place 0 1 56000000000000000100093f931703155bc6bf1c13039ffdb49856410b2b359c93cab8e52059073ecef9\n\
bid 0 1 1 5dcd779c992ce8abd8d1d159273fbb738b716051a07d5b005f2e672f18a67455\ndeliver 0\ndeliver 1\nread 0 0 3\n\
read 0 1 1\noffer 0\ndeliver 3\nstop 0\nstart 1\nbid 1 2 -\ndeliver 6\ndeliver 7\nread 1 0 5\nread 1 1 2\noffer 1\n\
deliver 9\ndeliver 10\nread 1 0 6\nread 1 1 3\nlearn 1\n";

const STOPPED_TOLD: &str = "0 8dafeee32b60ad97c4eb37e4657bc895ceec4ccdd5b307d563840b7581b1530a\n\
1 d30f5f2af2fff6f217eb9c00c8bbdf94393a1ae1164d98440f95613409cb7435 push 0 1 5dcd779c992ce8abd8d1d159273fbb738b716051a07d5b005f2e672f18a67455\n\
end 1\nclient 0 knows 0\nclient 1 knows 1\n";

/// A bid of client 0 that one of three services has promised.
const BEGUN: &str =
    "metasync-drill 1 3 2 1\nstart 0\nbid 0 1 -\ndeliver 0\ndeliver 1\nread 0 0 1\n";

const HEAD: &str = "metasync-drill 1 1 1 1\n";

/// Schedules.
const SCHEDULES: [Case; 39] = [
    (&[ONE_SERVICE], ONE_SERVICE_TOLD, 0),
    (&[ONE_SERVICE, TURN, "drop 0 2\n"], "event 18 turned\n", 16),
    (&[ONE_SERVICE, TURN, "deliver 3\ndrop 0 2\n"], TURN_TOLD, 0),
    (
        &[
            ONE_SERVICE,
            TURN,
            "deliver 3\ndrop 0 2\nplace 0 1 4400000000\n",
        ],
        "event 20 generation\n",
        16,
    ),
    (&[ONE_SERVICE, FORMAT_2, MIGRATE, PUSH_2], PUSH_2_TOLD, 0),
    (
        &[ONE_SERVICE, FORMAT_2, MIGRATE, PUSH_1],
        "event 21 placed\n",
        16,
    ),
    (
        &[ONE_SERVICE, FORMAT_2, MIGRATE, MIGRATE_AGAIN],
        "event 21 plan\n",
        16,
    ),
    (
        &[ONE_SERVICE, FORMAT_2, PUSH_TOO_SOON],
        "event 14 placed\n",
        16,
    ),
    (&[OVERTAKEN], OVERTAKEN_TOLD, 0),
    (&[STOPPED], STOPPED_TOLD, 0),
    (&[BEGUN, "read 0 1 1\noffer 0\n"], "event 7 nothing\n", 16),
    (&[BEGUN, "offer 0\n"], "event 6 promises\n", 16),
    (&[HEAD, "stop 0\n"], "event 1 off\n", 16),
    (&[HEAD, "start 1\n"], "event 1 client\n", 16),
    (&[HEAD, "start 0\nstart 0\n"], "event 2 on\n", 16),
    (&[HEAD, "start 0\nbid 0 0 -\n"], "event 2 round\n", 16),
    (
        &[HEAD, "start 0\nbid 0 4294967295 -\n"],
        "event 2 round\n",
        16,
    ),
    (&[HEAD, "start 0\nturn 0 1 1 1 1 1\n"], "event 2 plan\n", 16),
    (
        &[HEAD, "start 0\nturn 0 1 1 1 1 0\n"],
        "event 2 placed\n",
        16,
    ),
    (&[HEAD, "deliver 0\n"], "event 1 request\n", 16),
    (&[HEAD, "start 0\nread 0 1 0\n"], "event 2 service\n", 16),
    (&[HEAD, "start 0\nread 0 0 1\n"], "event 2 prefix\n", 16),
    (&[HEAD, "start 0\noffer 0\n"], "event 2 bid\n", 16),
    (&[HEAD, "start 0\nlearn 0\n"], "event 2 chosen\n", 16),
    (&[HEAD, "place 1 1 00\n"], "event 1 service\n", 16),
    (&[HEAD, "place 0 0 00\n"], "event 1 generation\n", 16),
    (&[HEAD, "drop 0 2\n"], "event 1 turned\n", 16),
    (&[HEAD, "drop 1 0\n"], "event 1 service\n", 16),
    (&[""], "bad input 1\n", 2),
    (&["metasync-drill 1 3 2 4\n"], "bad input 1\n", 2),
    (&["metasync-drill 1 17 2 1\n"], "bad input 1\n", 2),
    (&["metasync-drill 1 1 1 1 \n"], "bad input 1\n", 2),
    (&["metasync-drill 1 1 1 1\nstart\n"], "bad input 2\n", 2),
    (
        &["metasync-drill 1 1 1 1\nstart 0\nplace 0 1 -\n"],
        "bad input 3\n",
        2,
    ),
    (
        &["metasync-drill 1 1 1 1\nturn 0 1 1 1 1 0,0\n"],
        "bad input 2\n",
        2,
    ),
    (
        &["metasync-drill 1 1 1 1\nturn 0 1 1 1 2 0\n"],
        "bad input 2\n",
        2,
    ),
    (
        &["metasync-drill 1 1 1 1\ndeliver 18446744073709551616\n"],
        "bad input 2\n",
        2,
    ),
    (
        &["metasync-drill 1 1 1 1\nbid 0 01 -\n"],
        "bad input 2\n",
        2,
    ),
    (&["metasync-drill 1 1 1 1\n\n"], "bad input 2\n", 2),
];

/// Whether the schedule is answered so, by the call and by the words.
fn drills(alloc: Global, case: &Case) -> bool {
    let (parts, lines, wanted) = *case;
    let Ok(mut inputs) = inputs(alloc, parts) else {
        return false;
    };
    let mut out = VecSink::new(alloc, 1000, Vec::new(alloc));
    let status = drill(alloc, "d", &mut inputs, &mut out);
    out.text() == lines.as_bytes()
        && status == wanted
        && answers(alloc, &["drill", "d"], parts, lines, wanted)
}

#[test]
fn drills_of_schedules(rt: HostRuntime) {
    for case in &SCHEDULES {
        assert!(rt; drills(rt.alloc(), case));
    }
}

/// How many empty lines follow the head, the line that answers them, and the status.
const EMPTY_LINES: [(usize, &str, u8); 2] = [
    (10_000, "bad input 2\n", 2),
    (10_001, "limit events 10001\n", 11),
];

/// So many empty lines behind the head.
fn empty_lines(alloc: Global, count: usize) -> Result<MemoryInputs, NoMemory> {
    let lines = vec![in alloc; b'\n'; count]?;
    let mut text = Vec::from_slice(alloc, HEAD.as_bytes())?;
    text.extend_from_slice(&lines)?;
    named(alloc, Bytes::from_vec(text), Vec::new(alloc))
}

/// Whether that many empty lines are answered so.
fn counts_events(alloc: Global, case: &(usize, &str, u8)) -> bool {
    let (count, line, wanted) = *case;
    let inputs = empty_lines(alloc, count);
    answers_over(alloc, &["drill", "d"], inputs, line, wanted)
}

#[test]
fn events_are_counted_first(rt: HostRuntime) {
    for case in &EMPTY_LINES {
        assert!(rt; counts_events(rt.alloc(), case));
    }
}
