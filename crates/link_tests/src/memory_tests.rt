//! What a service in memory answers through links that pass each call on.

use crate::call::{Answer, Call};
use crate::untold::{Case, is_played};
use ms_fault::Fault;
use std::test::*;

/// Texts of several lists.
const APPENDS: Case<'static> = Case {
    inner: &[],
    script: &[],
    rest: Fault::Pass,
    steps: &[
        (Call::Append(0, 1), Answer::Done),
        (Call::Append(1, 9), Answer::Done),
        (Call::Append(0, 2), Answer::Done),
        (Call::Append(0, 3), Answer::Done),
        (Call::List(0, 1), Answer::Gives(&[2, 3])),
        (Call::List(0, 4), Answer::Gives(&[])),
        (Call::List(1, 0), Answer::Gives(&[9])),
        (Call::List(2, 0), Answer::Gives(&[])),
    ],
    faults: 0,
};

/// Two texts under one name.
const PUTS: Case<'static> = Case {
    inner: &[],
    script: &[],
    rest: Fault::Pass,
    steps: &[
        (Call::Has(1), Answer::No),
        (Call::Put(1, b"first"), Answer::Done),
        (Call::Put(1, b"second"), Answer::Done),
        (Call::Has(1), Answer::Yes),
        (Call::Get(1), Answer::Gives(b"first")),
        (Call::Has(2), Answer::No),
        (Call::Get(2), Answer::Nothing),
    ],
    faults: 0,
};

/// Two drops, the lower one behind the greater.
const DROPS: Case<'static> = Case {
    inner: &[],
    script: &[],
    rest: Fault::Pass,
    steps: &[
        (Call::Append(0, 1), Answer::Done),
        (Call::Put(1, b"old"), Answer::Done),
        (Call::Put(2, b"new"), Answer::Done),
        (Call::Drop(2), Answer::Done),
        (Call::Drop(1), Answer::Done),
        (Call::Put(1, b"late"), Answer::Stale(2)),
        (Call::Has(1), Answer::Stale(2)),
        (Call::Get(1), Answer::Stale(2)),
        (Call::Get(2), Answer::Gives(b"new")),
        (Call::List(0, 0), Answer::Gives(&[1])),
    ],
    faults: 0,
};

/// A list above 15 and generations above 10.
const HIGH: Case<'static> = Case {
    inner: &[],
    script: &[],
    rest: Fault::Pass,
    steps: &[
        (Call::Append(16, 7), Answer::Done),
        (Call::List(16, 0), Answer::Gives(&[7])),
        (Call::List(15, 0), Answer::Gives(&[])),
        (Call::Put(11, b"x"), Answer::Done),
        (Call::Has(11), Answer::Yes),
        (Call::Get(11), Answer::Gives(b"x")),
        (Call::Has(10), Answer::No),
        (Call::Drop(11), Answer::Done),
        (Call::Has(10), Answer::Stale(11)),
        (Call::Get(11), Answer::Gives(b"x")),
    ],
    faults: 0,
};

#[test]
fn a_list_from_a_place(rt: HostRuntime) -> Result<(), Fail> {
    assert!(&rt; is_played(rt, rt.alloc(), APPENDS)?);
    Ok(())
}

#[test]
fn the_first_text_that_was_put(rt: HostRuntime) -> Result<(), Fail> {
    assert!(&rt; is_played(rt, rt.alloc(), PUTS)?);
    Ok(())
}

#[test]
fn put_below_the_floor(rt: HostRuntime) -> Result<(), Fail> {
    assert!(&rt; is_played(rt, rt.alloc(), DROPS)?);
    Ok(())
}

#[test]
fn list_16_and_generation_11(rt: HostRuntime) -> Result<(), Fail> {
    assert!(&rt; is_played(rt, rt.alloc(), HIGH)?);
    Ok(())
}
