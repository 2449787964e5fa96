//! Texts and names whose values were known before.

use crate::test_values::*;
use crate::{Entry, Record, entry_name, parse_entry, parse_record, write_entry, write_record};
use ms_base::Name;
use std::alloc::Global;
use std::test::*;

/// The push of client 0 with number 1: its tag and the name before, its numbers, its version.
const PUSH: &str =
    "5500000000000000000000000000000000000000000000000000000000000000000000000000000001";

const PUSH_OF_CLIENT_16: &str =
    "5500000000000000000000000000000000000000000000000000000000000000000000001000000001";

const VERSION: &str = "1111111111111111111111111111111111111111111111111111111111111111";

/// The plan of a configuration of three services with unit 1,000 and replicas 2, up to its rows.
const PLAN: &str = "00000001000000010000000200000000000003e800000003";

/// Three services with 1,000 bytes each.
const ROWS: &str = "0000000000000000000003e80000000100000000000003e80000000200000000000003e8";

/// The plan of one service with unit 1,000, up to its row.
const SMALL_PLAN: &str = "00000001000000010000000100000000000003e800000001";

/// A plan entry of client 0 with number 0, up to its version.
const PLAN_ENTRY: &str =
    "4c00000000000000000000000000000000000000000000000000000000000000000000000000000000";

/// A plan entry whose numbers are as great as they may be.
const GREATEST: &str =
    "4c000102030405060708090a0b0c0d0e0f101112131415161718191a1b1c1d1e1f0000000ffffffffffffefdfcfbfaf9f8f7f6f5f4f3f2f1f0efeeedecebeae9e8e7e6e5e4e3e2e1e0fffffffe00000001000000018000000000000000000000020000000380000000000000000000000fffffffffffffffff";

/// Texts that are no records.
const NO_RECORDS: [&str; 11] = [
    // nothing
    "",
    // a tag alone
    "50",
    // a byte missing
    "500000000100000003000000",
    // a trailing byte
    "5000000001000000030000000000",
    // another tag
    "51000000010000000300000000",
    // position 0
    "50000000000000000300000000",
    // position 4,294,967,295
    "50ffffffff0000000300000000",
    // round 0
    "50000000010000000000000000",
    // round 4,294,967,295
    "5000000001ffffffff00000000",
    // client 16
    "50000000010000000300000010",
    // no entry behind an Accept
    "41000000010000000100000001",
];

/// What stands before a push in texts that are no records.
const NO_ACCEPTS: [&str; 6] = [
    // a Prepare
    "50000000010000000300000000",
    // nothing
    "",
    // a tag alone
    "41",
    // round 0
    "41000000010000000000000001",
    // client 16
    "41000000010000000100000010",
    // a byte too many
    "4100000001000000010000000100",
];

/// Texts that are no plans, each but for three rows at its end.
const NO_PLANS: [&str; 12] = [
    // generation 0
    "00000000000000010000000200000000000003e800000003",
    // generation 4,294,967,295
    "ffffffff000000010000000200000000000003e800000003",
    // format 0
    "00000001000000000000000200000000000003e800000003",
    // format 3
    "00000001000000030000000200000000000003e800000003",
    // replicas 0
    "00000001000000010000000000000000000003e800000003",
    // replicas above the rows
    "00000001000000010000000400000000000003e800000003",
    // unit 0
    "000000010000000100000002000000000000000000000003",
    // no rows
    "00000001000000010000000100000000000003e800000000",
    // 17 rows
    "00000001000000010000000200000000000003e800000011",
    // a row fewer than counted
    "00000001000000010000000200000000000003e800000004",
    // a row more than counted
    "00000001000000010000000200000000000003e800000002",
    // a byte missing in front
    "000001000000010000000200000000000003e800000003",
];

/// Texts that are no rows of a plan of one service with unit 1,000.
const NO_ROWS: [&str; 6] = [
    // nothing
    "",
    // a byte missing
    "0000000000000000000003",
    // a trailing byte
    "0000000000000000000003e800",
    // service 16
    "0000001000000000000003e8",
    // no copy
    "0000000000000000000003e7",
    // 17 copies
    "000000000000000000004268",
];

/// Texts in three pieces that are no entries.
const NO_ENTRIES: [[&str; 3]; 7] = [
    // nothing
    ["", "", ""],
    // a trailing byte
    [PUSH, VERSION, "00"],
    [PUSH_OF_CLIENT_16, VERSION, ""],
    // a byte missing
    [
        PUSH,
        "11111111111111111111111111111111111111111111111111111111111111",
        "",
    ],
    // a push and more
    [PUSH, VERSION, PLAN_ENTRY],
    // no plan
    [PLAN_ENTRY, VERSION, ""],
    // another tag
    ["50", VERSION, VERSION],
];

fn record(alloc: Global, parts: &[&str]) -> Option<Record> {
    parse_record(&bytes(alloc, parts).ok()?)
}

fn entry(alloc: Global, parts: &[&str]) -> Option<Entry> {
    parse_entry(&bytes(alloc, parts).ok()?)
}

/// Whether the bytes of these digits are no record.
fn is_refused(alloc: Global, parts: &[&str]) -> bool {
    match bytes(alloc, parts) {
        Ok(text) => parse_record(&text).is_none(),
        Err(_) => false,
    }
}

/// Whether the bytes of these digits are no entry.
fn is_no_entry(alloc: Global, parts: &[&str]) -> bool {
    match bytes(alloc, parts) {
        Ok(text) => parse_entry(&text).is_none(),
        Err(_) => false,
    }
}

fn name(digits: &[u8]) -> Option<Name> {
    Some(Name(<[u8; 32] as hex::FromHex>::from_hex(digits).ok()?))
}

#[test]
fn a_prepare_has_thirteen_bytes(rt: HostRuntime) {
    let ballot_read = ballot(3, 0);
    assert_eq!(rt;
        record(rt.alloc(), &["50000000010000000300000000"]),
        Some(Record::Prepare {
            position: 1,
            ballot: ballot_read
        })
    );
    let last = 4_294_967_294;
    let ballot_read = ballot(last, 15);
    assert_eq!(rt;
        record(rt.alloc(), &["50fffffffefffffffe0000000f"]),
        Some(Record::Prepare {
            position: last,
            ballot: ballot_read
        })
    );
}

#[test]
fn an_accept_ends_with_its_entry(rt: HostRuntime) {
    let accept = Record::Accept {
        position: 1,
        ballot: ballot(1, 1),
        entry: push(),
    };
    assert_eq!(rt;
        record(rt.alloc(), &["41000000010000000100000001", PUSH, VERSION]),
        Some(accept)
    );
    assert_eq!(rt; accept.position(), 1);
    assert_eq!(rt; accept.ballot(), ballot(1, 1));
}

#[test]
fn a_push_and_its_name(rt: HostRuntime) -> Result<(), Fail> {
    let entry = entry(rt.alloc(), &[PUSH, VERSION]).ok_or("a push")?;
    assert!(rt; entry.is_same(&push()));
    assert_eq!(rt;
        Some(entry_name(&entry)),
        name(b"dade1170d120195e0d69f61b486f4a2f54804bae811baad194b7aa9729458623")
    );
    Ok(())
}

#[test]
fn a_plan_entry_and_its_name(rt: HostRuntime) -> Result<(), Fail> {
    let entry = entry(rt.alloc(), &[PLAN_ENTRY, VERSION, PLAN, ROWS]).ok_or("a plan entry")?;
    assert!(rt; !entry.is_same(&push()));
    assert_eq!(rt; entry.plan, conf_plan(1));
    assert_eq!(rt;
        Some(entry_name(&entry)),
        name(b"b06ece859bf57ea6b2ef01db682ee0270c2fb63c8ea15a0d403db5f506206059")
    );
    Ok(())
}

/// Whether these are the bytes of the digits.
fn spells(alloc: Global, text: &[u8], digits: &[&str]) -> bool {
    match bytes(alloc, digits) {
        Ok(wanted) => text == wanted.as_slice(),
        Err(_) => false,
    }
}

#[test]
fn records_and_entries_are_written(rt: HostRuntime) -> Result<(), Fail> {
    let alloc = rt.alloc();
    let mut out = Vec::new(alloc);
    let prepare = Record::Prepare {
        position: 1,
        ballot: ballot(3, 0),
    };
    assert!(rt; write_record(&prepare, &mut out).is_ok());
    assert!(rt; spells(alloc, &out, &["50000000010000000300000000"]));
    let accept = Record::Accept {
        position: 1,
        ballot: ballot(1, 1),
        entry: push(),
    };
    assert!(rt; write_record(&accept, &mut out).is_ok());
    assert!(rt;
        spells(
            alloc,
            &out,
            &[
                "50000000010000000300000000",
                "41000000010000000100000001",
                PUSH,
                VERSION
            ]
        )
    );
    let mut out = Vec::new(alloc);
    let entry = entry(alloc, &[PLAN_ENTRY, VERSION, PLAN, ROWS]).ok_or("a plan entry")?;
    assert!(rt; write_entry(&entry, &mut out).is_ok());
    assert!(rt; spells(alloc, &out, &[PLAN_ENTRY, VERSION, PLAN, ROWS]));
    Ok(())
}

#[test]
fn the_greatest_values_are_read(rt: HostRuntime) -> Result<(), Fail> {
    let entry = entry(rt.alloc(), &[GREATEST]).ok_or("a plan entry")?;
    assert_eq!(rt; entry.number, 4_294_967_295);
    let plan = entry.plan.ok_or("a plan")?;
    assert_eq!(rt;
        plan.rows(),
        [row(3, 1 << 63), row(15, u64::MAX)].as_slice()
    );
    assert_eq!(rt;
        Some(entry_name(&entry)),
        name(b"a0d5178ac4f6b8a1e16cc0d399b392801871480836ff88135e6ff53d0965bf60")
    );
    Ok(())
}

#[test]
fn texts_that_are_no_records(rt: HostRuntime) {
    for text in NO_RECORDS {
        assert!(rt; is_refused(rt.alloc(), &[text]));
    }
}

#[test]
fn texts_that_are_no_accepts(rt: HostRuntime) {
    for head in NO_ACCEPTS {
        assert!(rt; is_refused(rt.alloc(), &[head, PUSH, VERSION]));
    }
}

#[test]
fn a_trailing_byte_is_no_record(rt: HostRuntime) {
    let accept = "41000000010000000100000001";
    assert!(rt; is_refused(rt.alloc(), &[accept, PUSH, VERSION, "00"]));
}

#[test]
fn a_trailing_byte_is_no_entry(rt: HostRuntime) {
    for parts in NO_ENTRIES {
        assert!(rt; is_no_entry(rt.alloc(), &parts));
    }
}

#[test]
fn texts_that_break_a_plan_rule_are_no_entries(rt: HostRuntime) {
    for plan in NO_PLANS {
        assert!(rt; is_no_entry(rt.alloc(), &[PLAN_ENTRY, VERSION, plan, ROWS]));
    }
}

#[test]
fn texts_that_break_a_rule_of_rows_are_no_entries(rt: HostRuntime) {
    for rows in NO_ROWS {
        assert!(rt; is_no_entry(rt.alloc(), &[PLAN_ENTRY, VERSION, SMALL_PLAN, rows]));
    }
}
