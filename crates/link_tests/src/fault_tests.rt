//! What links with faults answer.

use crate::call::{Answer, Call};
use crate::untold::{Case, is_played};
use ms_fault::Fault;
use std::test::*;

/// Appends under four faults.
const SCRIPTED_APPENDS: Case<'static> = Case {
    inner: &[],
    script: &[
        Fault::Lose,
        Fault::ActThenFail,
        Fault::Repeat,
        Fault::Late { after: 1 },
    ],
    rest: Fault::Pass,
    steps: &[
        (Call::Append(0, 1), Answer::Failed),
        (Call::Append(0, 2), Answer::Failed),
        (Call::Append(0, 3), Answer::Done),
        (Call::Append(0, 4), Answer::Failed),
        (Call::Append(0, 5), Answer::Done),
        (Call::List(0, 0), Answer::Gives(&[2, 3, 3, 4, 5])),
    ],
    faults: 3,
};

/// Puts and drops that are done and fail, or are done twice.
const SCRIPTED_CHANGES: Case<'static> = Case {
    inner: &[],
    script: &[
        Fault::ActThenFail,
        Fault::Repeat,
        Fault::Pass,
        Fault::ActThenFail,
        Fault::Pass,
        Fault::Repeat,
    ],
    rest: Fault::Pass,
    steps: &[
        (Call::Put(1, b"a"), Answer::Failed),
        (Call::Put(2, b"b"), Answer::Done),
        (Call::Get(1), Answer::Gives(b"a")),
        (Call::Drop(2), Answer::Failed),
        (Call::Has(1), Answer::Stale(2)),
        (Call::Drop(3), Answer::Done),
        (Call::Has(2), Answer::Stale(3)),
        (Call::Put(2, b"c"), Answer::Stale(3)),
    ],
    faults: 2,
};

/// The empty directory, and no bytes.
const ALTERED: Case<'static> = Case {
    inner: &[],
    script: &[],
    rest: Fault::Alter,
    steps: &[
        (Call::Get(1), Answer::Nothing),
        (Call::Put(1, b"D\x00\x00\x00\x00"), Answer::Done),
        (Call::Get(1), Answer::Gives(b"D\x00\x00\x00\x01")),
        (Call::Has(1), Answer::Yes),
        (Call::Put(2, b""), Answer::Done),
        (Call::Get(2), Answer::Gives(b"\x00")),
    ],
    faults: 0,
};

/// A link that forgets what was put.
const GONE: Case<'static> = Case {
    inner: &[],
    script: &[],
    rest: Fault::Gone,
    steps: &[
        (Call::Put(1, b"a"), Answer::Done),
        (Call::Get(1), Answer::Nothing),
        (Call::Has(1), Answer::No),
    ],
    faults: 0,
};

/// A put and a drop that are late by two calls and by one, and reads that fail.
const LATE_CHANGES: Case<'static> = Case {
    inner: &[],
    script: &[
        Fault::Late { after: 2 },
        Fault::Pass,
        Fault::Lose,
        Fault::Pass,
        Fault::ActThenFail,
        Fault::Lose,
        Fault::Late { after: 0 },
    ],
    rest: Fault::Pass,
    steps: &[
        (Call::Put(1, b"a"), Answer::Failed),
        (Call::Has(1), Answer::No),
        (Call::Has(1), Answer::Failed),
        (Call::Has(1), Answer::Yes),
        (Call::Get(1), Answer::Failed),
        (Call::List(0, 0), Answer::Failed),
        (Call::Drop(2), Answer::Failed),
        (Call::Has(1), Answer::Stale(2)),
        (Call::Drop(2), Answer::Done),
    ],
    faults: 5,
};

/// Each change is done twice, over a link that loses its first three calls: a failure of the first time is not seen.
const REPEATS: Case<'static> = Case {
    inner: &[Fault::Lose, Fault::Lose, Fault::Lose],
    script: &[],
    rest: Fault::Repeat,
    steps: &[
        (Call::Append(0, 1), Answer::Failed),
        (Call::Append(0, 2), Answer::Done),
        (Call::List(0, 0), Answer::Gives(&[2])),
    ],
    faults: 1,
};

/// Over a link that loses its first four calls: reads whose answers are lost are asked inside, those that are lost or find nothing are not.
const ASKED: Case<'static> = Case {
    inner: &[Fault::Lose, Fault::Lose, Fault::Lose, Fault::Lose],
    script: &[
        Fault::ActThenFail,
        Fault::ActThenFail,
        Fault::ActThenFail,
        Fault::Lose,
        Fault::Lose,
        Fault::Lose,
        Fault::Gone,
        Fault::Gone,
    ],
    rest: Fault::Pass,
    steps: &[
        (Call::Has(1), Answer::Failed),
        (Call::Get(1), Answer::Failed),
        (Call::List(0, 0), Answer::Failed),
        (Call::Has(1), Answer::Failed),
        (Call::Get(1), Answer::Failed),
        (Call::List(0, 0), Answer::Failed),
        (Call::Has(1), Answer::No),
        (Call::Get(1), Answer::Nothing),
        (Call::Has(1), Answer::Failed),
        (Call::Has(1), Answer::No),
    ],
    faults: 7,
};

/// Appends that are late by three calls, by one and by one, so that two of them are done before one call; and two under faults that do not speak of appends.
const ORDER: Case<'static> = Case {
    inner: &[],
    script: &[
        Fault::Late { after: 3 },
        Fault::Late { after: 1 },
        Fault::Late { after: 1 },
        Fault::Alter,
        Fault::Gone,
    ],
    rest: Fault::Pass,
    steps: &[
        (Call::Append(0, 1), Answer::Failed),
        (Call::Append(0, 2), Answer::Failed),
        (Call::Append(0, 3), Answer::Failed),
        (Call::Append(0, 4), Answer::Done),
        (Call::Append(0, 5), Answer::Done),
        (Call::List(0, 0), Answer::Gives(&[2, 1, 3, 4, 5])),
    ],
    faults: 3,
};

#[test]
fn scripted_faults_on_appends(rt: HostRuntime) -> Result<(), Fail> {
    assert!(&rt; is_played(rt, rt.alloc(), SCRIPTED_APPENDS)?);
    Ok(())
}

#[test]
fn scripted_faults_on_puts_and_drops(rt: HostRuntime) -> Result<(), Fail> {
    assert!(&rt; is_played(rt, rt.alloc(), SCRIPTED_CHANGES)?);
    Ok(())
}

#[test]
fn altered_get(rt: HostRuntime) -> Result<(), Fail> {
    assert!(&rt; is_played(rt, rt.alloc(), ALTERED)?);
    Ok(())
}

#[test]
fn gone_get(rt: HostRuntime) -> Result<(), Fail> {
    assert!(&rt; is_played(rt, rt.alloc(), GONE)?);
    Ok(())
}

#[test]
fn late_puts_and_drops(rt: HostRuntime) -> Result<(), Fail> {
    assert!(&rt; is_played(rt, rt.alloc(), LATE_CHANGES)?);
    Ok(())
}

#[test]
fn repeats_over_lost_calls(rt: HostRuntime) -> Result<(), Fail> {
    assert!(&rt; is_played(rt, rt.alloc(), REPEATS)?);
    Ok(())
}

#[test]
fn which_reads_are_asked_inside(rt: HostRuntime) -> Result<(), Fail> {
    assert!(&rt; is_played(rt, rt.alloc(), ASKED)?);
    Ok(())
}

#[test]
fn late_changes_in_the_order_of_sending(rt: HostRuntime) -> Result<(), Fail> {
    assert!(&rt; is_played(rt, rt.alloc(), ORDER)?);
    Ok(())
}
