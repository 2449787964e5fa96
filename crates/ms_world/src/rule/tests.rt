//! Short logs of which it is known what they show, what may be offered and what is chosen.

use super::{Ruling, rule};
use crate::chosen::chosen_at;
use crate::front::Front;
use crate::shown::shown;
use ms_base::{Bytes, ClientId, Name, NoMemory};
use ms_record::{Ballot, Entry, ListId, LogEvent, Record, Vote, write_record};
use std::alloc::Global;
use std::test::*;

const LOW: Ballot = Ballot {
    round: 1,
    client: ClientId(1),
};

const MIDDLE: Ballot = Ballot {
    round: 2,
    client: ClientId(0),
};

const HIGH: Ballot = Ballot {
    round: 2,
    client: ClientId(1),
};

const OURS: Entry = Entry {
    before: Name([0; 32]),
    client: ClientId(0),
    number: 1,
    version: Name([17; 32]),
    plan: None,
};

const THEIRS: Entry = Entry {
    before: Name([0; 32]),
    client: ClientId(1),
    number: 1,
    version: Name([34; 32]),
    plan: None,
};

const PREPARE_LOW: Record = Record::Prepare {
    position: 1,
    ballot: LOW,
};

const PREPARE: Record = Record::Prepare {
    position: 1,
    ballot: MIDDLE,
};

const PREPARE_HIGH: Record = Record::Prepare {
    position: 1,
    ballot: HIGH,
};

const ACCEPT_LOW: Record = Record::Accept {
    position: 1,
    ballot: LOW,
    entry: THEIRS,
};

const ACCEPT: Record = Record::Accept {
    position: 1,
    ballot: MIDDLE,
    entry: THEIRS,
};

const LOW_VOTE: Vote = Vote {
    ballot: LOW,
    entry: THEIRS,
};

/// Puts a text at the end of a list.
fn push_text(log: &mut Vec<LogEvent>, list: u32, text: Bytes) -> Result<(), NoMemory> {
    log.push(LogEvent::Rec {
        list: ListId(list),
        text,
    })?;
    Ok(())
}

/// The text of a record.
fn text_of(alloc: Global, message: &Record) -> Result<Bytes, NoMemory> {
    let mut text = Vec::new(alloc);
    write_record(message, &mut text)?;
    Ok(Bytes::from_vec(text))
}

/// A log with these records in its vote list, between a text that is none and a text of another list.
fn log_of(alloc: Global, records: &[Record]) -> Result<Vec<LogEvent>, NoMemory> {
    let mut log = Vec::new(alloc);
    push_text(&mut log, 0, Bytes::of(alloc, b"P")?)?;
    for message in records {
        push_text(&mut log, 0, text_of(alloc, message)?)?;
    }
    push_text(&mut log, 1, text_of(alloc, &PREPARE_HIGH)?)?;
    Ok(log)
}

/// The records of a log, a ballot, and what the log shows of it.
#[test]
fn a_log_shows_the_first_promise(rt: HostRuntime) -> Result<(), Fail> {
    let cases: [(&[Record], Ballot, bool, Option<Vote>); 5] = [
        (&[], LOW, false, None),
        (&[PREPARE, PREPARE_LOW], LOW, false, None),
        (&[PREPARE_LOW, PREPARE], LOW, true, None),
        (&[ACCEPT_LOW, PREPARE], MIDDLE, true, Some(LOW_VOTE)),
        (&[PREPARE_HIGH, ACCEPT_LOW, PREPARE_HIGH], HIGH, true, None),
    ];
    for (records, ballot, promised, best) in &cases {
        let log = log_of(rt.alloc(), records)?;
        let sight = shown(&log, 1, *ballot);
        assert_eq!(rt; (sight.promised, sight.best), (*promised, *best));
    }
    Ok(())
}

/// The records of three logs, the own entry of the bidder of `MIDDLE`, and what it may offer.
#[test]
fn the_greatest_best_is_offered(rt: HostRuntime) -> Result<(), Fail> {
    let cases: [(&[Record], &[Record], &[Record], Option<Entry>, Ruling); 4] = [
        (
            &[PREPARE],
            &[PREPARE_HIGH, PREPARE],
            &[],
            Some(OURS),
            Ruling::Unpromised,
        ),
        (
            &[PREPARE],
            &[PREPARE],
            &[PREPARE_HIGH],
            Some(OURS),
            Ruling::Offer { entry: OURS },
        ),
        (&[PREPARE], &[PREPARE], &[], None, Ruling::Nothing),
        (
            &[PREPARE],
            &[ACCEPT_LOW, PREPARE],
            &[],
            Some(OURS),
            Ruling::Offer { entry: THEIRS },
        ),
    ];
    for (first, second, third, own, want) in &cases {
        let first = log_of(rt.alloc(), first)?;
        let second = log_of(rt.alloc(), second)?;
        let third = log_of(rt.alloc(), third)?;
        let logs = [Front::new(&first), Front::new(&second), Front::new(&third)];
        assert_eq!(rt; rule(&logs, 1, MIDDLE, own), *want);
    }
    Ok(())
}

/// The records of three logs, and what they have chosen.
#[test]
fn a_majority_under_one_ballot_chooses(rt: HostRuntime) -> Result<(), Fail> {
    let cases: [(&[Record], &[Record], &[Record], Option<Entry>); 4] = [
        (&[ACCEPT_LOW], &[ACCEPT_LOW], &[], Some(THEIRS)),
        (&[ACCEPT_LOW], &[PREPARE, ACCEPT], &[], None),
        (&[ACCEPT_LOW], &[PREPARE, ACCEPT_LOW], &[], None),
        (&[ACCEPT_LOW], &[], &[], None),
    ];
    for (first, second, third, want) in &cases {
        let first = log_of(rt.alloc(), first)?;
        let second = log_of(rt.alloc(), second)?;
        let third = log_of(rt.alloc(), third)?;
        let logs = [Front::new(&first), Front::new(&second), Front::new(&third)];
        assert_eq!(rt; chosen_at(rt.alloc(), &logs, 1)?, *want);
    }
    Ok(())
}
