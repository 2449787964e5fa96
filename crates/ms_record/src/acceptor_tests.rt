//! What an acceptor says of the records that it is fed.

use crate::test_values::*;
use crate::{Acceptor, Ballot, Record, Verdict, Vote};
use std::test::*;

/// A Prepare at position 1.
fn prepare_of(ballot: Ballot) -> Record {
    Record::Prepare {
        position: 1,
        ballot,
    }
}

/// An Accept of the push at position 1.
fn accept_of(ballot: Ballot) -> Record {
    Record::Accept {
        position: 1,
        ballot,
        entry: push(),
    }
}

/// The acceptor of position 1 that promised this ballot and then took an Accept of it.
fn took(ballot: Ballot) -> Acceptor {
    let mut acceptor = Acceptor::at(1);
    acceptor.feed(&prepare_of(ballot));
    acceptor.feed(&accept_of(ballot));
    acceptor
}

#[test]
fn an_acceptor_shows_what_was_taken(rt: HostRuntime) {
    let mut acceptor = took(ballot(1, 0));
    let best = Some(Vote {
        ballot: ballot(1, 0),
        entry: push(),
    });
    assert_eq!(rt;
        acceptor.feed(&prepare_of(ballot(1, 1))),
        Verdict::Promised { best }
    );
}

#[test]
fn an_acceptor_refuses_what_is_outbid(rt: HostRuntime) {
    let mut acceptor = took(ballot(1, 1));
    assert_eq!(rt;
        acceptor.feed(&accept_of(ballot(1, 0))),
        Verdict::Outbid { top: ballot(1, 1) }
    );
}
