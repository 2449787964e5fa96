//! Lists whose sights were known before.

use crate::sight;
use crate::test_texts::*;
use ms_base::{Bytes, ClientId, Items};
use ms_record::{Ballot, Sight};
use std::alloc::Global;
use std::test::*;

/// The records of a list at position 1, each of these digits and then those of X where it is an Accept.
const LOOKS: [(&[&str], &str); 6] = [
    (&[], "----"),
    (&[P_1_1_0], "p--0"),
    // the Best stands before the first promised Prepare alone
    (&[A_1_1_0, P_1_1_0], "pbt0"),
    (&[P_1_1_0, A_1_1_0, P_1_1_0], "p-t0"),
    // outbid
    (&[P_1_2_1, P_1_1_0, A_1_1_0], "---1"),
    // of another position
    (&[A_2_2_0], "----"),
];

/// The list of these records.
fn list_of(alloc: Global, heads: &[&str]) -> Option<Items<Bytes>> {
    let mut list = Items::new(alloc);
    for head in heads {
        let entry = if head.starts_with("41") { X } else { "" };
        let digits = text_of(alloc, &[head, entry]).ok()?;
        let text = ms_text::hex_bytes(alloc, &digits).ok()??;
        list.push(Bytes::from_vec(text)).ok()?;
    }
    Some(list)
}

/// The sight as signs: promised, a Best, taken, and the client of the greatest ballot.
fn signs_of(sight: &Sight) -> [u8; 4] {
    let promised = if sight.promised { b'p' } else { b'-' };
    let best = if sight.best.is_some() { b'b' } else { b'-' };
    let taken = if sight.taken { b't' } else { b'-' };
    let top = match sight.top {
        Some(ballot) if ballot.client.0 == 0 => b'0',
        Some(_) => b'1',
        None => b'-',
    };
    [promised, best, taken, top]
}

/// Whether the list shows these signs of the bid of client 0 in round 1 at position 1.
fn is_seen(alloc: Global, heads: &[&str], signs: &str) -> bool {
    let ballot = Ballot {
        round: 1,
        client: ClientId(0),
    };
    match list_of(alloc, heads) {
        Some(list) => signs_of(&sight(list.as_slice(), 1, ballot)).as_slice() == signs.as_bytes(),
        None => false,
    }
}

#[test]
fn what_a_list_shows_of_a_bid(rt: HostRuntime) {
    for (heads, signs) in LOOKS {
        assert!(rt; is_seen(rt.alloc(), heads, signs));
    }
}
