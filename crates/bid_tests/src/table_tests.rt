//! The first bid of a client under up to two faults, over three and over four services, against what an independent program computes:
//! `bench/bids_reference.py`, which says what the faults and the rows are.

use crate::bidding::{ANN, Bidder, Place, VOTES, Vote, genesis_of, record_of, shelf_of};
use crate::proposing::{Proposed, propose_new};
use crate::shelves::{Course, Shelf};
use ms_base::{Bytes, Name};
use ms_propose::Decided;
use ms_record::record::parse_record;
use ms_record::{Refusal, ServiceSet};
use sha2::{Digest, Sha256};
use std::alloc::Global;
use std::test::*;

/// The number of a fault, or 0; the letter of the answer of each bid; and the first bytes of the digest of what the bids come to.
#[derive(Clone, Copy)]
struct Row(u32, &'static str, u64);

/// What befalls a call.
#[derive(Clone, Copy)]
enum Way {
    Fails,
    Unheard,
    Twice,
}

/// What befalls a call of a service, by the number of that call: the Prepare, the first look, the Accept, the second look. Without a
/// service, it befalls the keeper.
#[derive(Clone, Copy)]
struct Fault {
    service: Option<u32>,
    call: u32,
    way: Way,
}

/// A fault of an append or of a look, by its number in a round of both over so many services.
fn fault_within(number: u32, services: u32, first_call: u32) -> Fault {
    let appends = services.saturating_mul(3);
    if number < appends {
        return Fault {
            service: Some(number / 3),
            call: first_call,
            way: match number % 3 {
                0 => Way::Fails,
                1 => Way::Unheard,
                _ => Way::Twice,
            },
        };
    }
    Fault {
        service: Some(number - appends),
        call: first_call.saturating_add(1),
        way: Way::Fails,
    }
}

/// The fault of this number, from 1, over so many services.
fn fault_of(number: u32, services: u32) -> Option<Fault> {
    let round = services.saturating_mul(4);
    let place = number.checked_sub(1)?;
    if place == 0 {
        return Some(Fault {
            service: None,
            call: 0,
            way: Way::Fails,
        });
    }
    if place <= round {
        return Some(fault_within(place - 1, services, 0));
    }
    Some(fault_within(place - round - 1, services, 2))
}

/// Whether both befall one call.
fn are_of_one_call(first: &Option<Fault>, second: &Option<Fault>) -> bool {
    match (first, second) {
        (Some(one), Some(other)) => one.service == other.service && one.call == other.call,
        _ => false,
    }
}

/// A service without votes, whose calls these faults befall.
fn faulty(alloc: Global, service: u32, faults: &[Option<Fault>], genesis: Name) -> Option<Shelf> {
    let mut fails = Vec::new(alloc);
    let mut courses = [Course::Done; 4];
    for fault in faults {
        if let Some(fault) = fault {
            if fault.service == Some(service) {
                befall(&mut fails, &mut courses, fault)?;
            }
        }
    }
    let place = Place {
        votes: &[],
        fails: fails.as_slice(),
        courses: &courses,
        rest: Course::Done,
    };
    shelf_of(alloc, &place, genesis)
}

/// One fault more.
fn befall(fails: &mut Vec<u64>, courses: &mut [Course; 4], fault: &Fault) -> Option<()> {
    let course = match fault.way {
        Way::Fails => return fails.push(u64::from(fault.call)).ok(),
        Way::Unheard => Course::Unheard,
        Way::Twice => Course::Twice,
    };
    if fault.call < 4 {
        courses[fault.call as usize] = course;
    }
    Some(())
}

/// Whether one befalls the keeper.
fn keep_fails(faults: &[Option<Fault>]) -> bool {
    faults.iter().any(|fault: &Option<Fault>| match fault {
        Some(fault) => fault.service.is_none(),
        None => false,
    })
}

/// What ann's bid comes to.
fn bid_under(alloc: Global, services: u32, faults: &[Option<Fault>]) -> Option<Proposed> {
    let genesis = genesis_of(services as usize)?;
    let mut shelves = Vec::new(alloc);
    for service in 0..services {
        shelves.push(faulty(alloc, service, faults, genesis)?).ok()?;
    }
    let bidder = Bidder {
        client: ANN,
        round: 0,
        keep_fails: if keep_fails(faults) { &[1] } else { &[] },
    };
    propose_new(alloc, shelves, bidder, 1, true)
}

/// The letter of an answer, and the services that it names.
fn letter_of(answer: &Result<Option<Decided>, Refusal>) -> (u8, ServiceSet) {
    match answer {
        Ok(Some(decided)) => (if decided.mine { b'D' } else { b'E' }, ServiceSet::none()),
        Ok(None) => (b'N', ServiceSet::none()),
        Err(Refusal::NoMajority { failed }) => (b'M', *failed),
        Err(Refusal::OutsideFault { .. }) => (b'K', ServiceSet::none()),
        Err(Refusal::Unlisted { .. }) => (b'U', ServiceSet::none()),
        Err(_) => (b'O', ServiceSet::none()),
    }
}

fn digit_of(number: u32) -> u8 {
    b'0' + (number % 10) as u8
}

/// The letter of a record of the bid.
fn letter_in(text: &Bytes, genesis: Name) -> u8 {
    match parse_record(text.as_slice()) {
        Some(record) => {
            if record == record_of(Vote::P(1, ANN), genesis) {
                b'P'
            } else if record == record_of(Vote::A(1, ANN, ANN), genesis) {
                b'A'
            } else {
                b'?'
            }
        }
        None => b'?',
    }
}

/// The vote list of a service.
fn feed_list(alloc: Global, hasher: &mut Sha256, shelf: &Shelf, genesis: Name) -> Option<()> {
    let texts = shelf.texts(alloc, VOTES, 0).ok()?;
    for text in texts.as_slice() {
        hasher.update(&[letter_in(text, genesis)]);
    }
    hasher.update(b"|");
    Some(())
}

fn feed_services(hasher: &mut Sha256, services: &ServiceSet) {
    for service in services.as_slice() {
        hasher.update(&[digit_of(service.0)]);
    }
}

/// What a bid comes to; its letter.
fn feed_end(alloc: Global, hasher: &mut Sha256, end: &Proposed) -> Option<u8> {
    let genesis = genesis_of(end.shelves.len())?;
    let (letter, services) = letter_of(&end.answer);
    hasher.update(&[letter]);
    feed_services(hasher, &services);
    hasher.update(&[digit_of(end.round), digit_of(end.kept)]);
    for shelf in &end.shelves {
        feed_list(alloc, hasher, shelf, genesis)?;
    }
    hasher.update(b"\n");
    Some(letter)
}

/// The letters and the digest of a row over so many services.
fn row_of(alloc: Global, services: u32, first: u32) -> Option<(Vec<u8>, u64)> {
    let mut hasher = Sha256::new();
    let mut letters = Vec::new(alloc);
    let one = fault_of(first, services);
    for second in first..services.saturating_mul(8).saturating_add(2) {
        let other = fault_of(second, services);
        if !are_of_one_call(&one, &other) {
            let end = bid_under(alloc, services, &[one, other])?;
            letters.push(feed_end(alloc, &mut hasher, &end)?).ok()?;
        }
    }
    let [a, b, c, d, e, f, g, h, ..] = hasher.finalize();
    Some((letters, u64::from_be_bytes([a, b, c, d, e, f, g, h])))
}

/// Whether the bids of the row come to what it says.
fn is_row(alloc: Global, services: u32, row: Row) -> bool {
    match row_of(alloc, services, row.0) {
        Some((letters, digest)) => letters.as_slice() == row.1.as_bytes() && digest == row.2,
        None => false,
    }
}

const OVER_THREE: [Row; 25] = [
    Row(0, "DKDDDDDDDDDDDDDDDDDDDDDDDD", 0x03ce5104e70a9ce6),
    Row(1, "KKKKKKKKKKKKKKKKKKKKKKKK", 0x9c186ade1d30490a),
    Row(2, "MMDMMDDMMDDDMMDMMDDMM", 0xf610dc7e7a8a941d),
    Row(3, "MMDMMDDMMDDDMMDMMDDMM", 0x9ce1a6b99e11b12c),
    Row(4, "DDDDDDDDDDDDDDDDDDDDD", 0x8a0165bb1c45d8eb),
    Row(5, "MMDMDMMMDDDDMMDMDM", 0xe4d6e07d179a9d26),
    Row(6, "MMDMDMMMDDDDMMDMDM", 0x32245858a3928d4a),
    Row(7, "DDDDDDDDDDDDDDDDDD", 0x4dfd4c6ac361a704),
    Row(8, "MMDMMDMMDDDDMMD", 0xbb5722be1f109cc9),
    Row(9, "MMDMMDMMDDDDMMD", 0xd5049837a616d271),
    Row(10, "DDDDDDDDDDDDDDD", 0xd01c96044629efca),
    Row(11, "MMDDDMMDMMDDMM", 0xbeda75cc2afd1a54),
    Row(12, "MMMDDDDMMDMDM", 0x09e06867ffde2fdb),
    Row(13, "MMDMMDDDDMMD", 0x208b0de6aef93748),
    Row(14, "MMDMMDDMM", 0x90421b0bdf1f6878),
    Row(15, "MMDMMDDMM", 0xfe102a265743c22e),
    Row(16, "DDDDDDDDD", 0xb46ed5d90ad71622),
    Row(17, "MMDMDM", 0x94ea81719c62131e),
    Row(18, "MMDMDM", 0x78684f1a6e8ac492),
    Row(19, "DDDDDD", 0x7e94dd9486275a15),
    Row(20, "MMD", 0x25f35fdfcde5d445),
    Row(21, "MMD", 0x47dc9e08e58733c9),
    Row(22, "DDD", 0xcf80745e69ce0f8a),
    Row(23, "MM", 0x8ee5a4ff5f2fc927),
    Row(24, "M", 0xf80a6ba9ad2a1e83),
];

#[test]
fn faults_over_three_services(rt: HostRuntime) {
    for row in OVER_THREE {
        assert!(rt; is_row(rt.alloc(), 3, row));
    }
}

const OVER_FOUR: [Row; 33] = [
    Row(0, "DKDDDDDDDDDDDDDDDDDDDDDDDDDDDDDDDD", 0x28459d750039c1cb),
    Row(1, "KKKKKKKKKKKKKKKKKKKKKKKKKKKKKKKK", 0xcc7d0f5d7ac99d48),
    Row(2, "MMDMMDMMDDMMMDDDMMDMMDMMDDMMM", 0xabfc05815d22326e),
    Row(3, "MMDMMDMMDDMMMDDDMMDMMDMMDDMMM", 0xc3bda501f5a5ab82),
    Row(4, "DDDDDDDDDDDDDDDDDDDDDDDDDDDDD", 0x86c6569326a6c4fa),
    Row(5, "MMDMMDMDMMMMDDDDMMDMMDMDMM", 0x431bd6d88a2fa2f7),
    Row(6, "MMDMMDMDMMMMDDDDMMDMMDMDMM", 0xb57ef8633d061625),
    Row(7, "DDDDDDDDDDDDDDDDDDDDDDDDDD", 0x670458df46c2a04e),
    Row(8, "MMDMMDMMMDMMDDDDMMDMMDM", 0x34ff7210d8c7b416),
    Row(9, "MMDMMDMMMDMMDDDDMMDMMDM", 0x4a4cff0f2df952e5),
    Row(10, "DDDDDDDDDDDDDDDDDDDDDDD", 0x739e016dd1736866),
    Row(11, "MMMDMMDMMDMMDDDDMMMD", 0xda00ebd80a0186b7),
    Row(12, "MMMDMMDMMDMMDDDDMMMD", 0x103fe093960fad63),
    Row(13, "DDDDDDDDDDDDDDDDDDDD", 0x7c7c3597a3630d05),
    Row(14, "MMMDDDMMDMMDMMDDMMM", 0x70a0fc020e98cdda),
    Row(15, "MMMMDDDDMMDMMDMDMM", 0x660705767cba7c8b),
    Row(16, "MMMDMMDDDDMMDMMDM", 0x43c295284425f7dd),
    Row(17, "MMDMMDMMDDDDMMMD", 0x19597148d007595f),
    Row(18, "MMDMMDMMDDMMM", 0x716cf7729885c318),
    Row(19, "MMDMMDMMDDMMM", 0x8a2d35fdf46432bc),
    Row(20, "DDDDDDDDDDDDD", 0x8612fc0f07ed70cb),
    Row(21, "MMDMMDMDMM", 0xf711cb76d982824d),
    Row(22, "MMDMMDMDMM", 0xdac7b99bbc69bd58),
    Row(23, "DDDDDDDDDD", 0x0fc9ee693a19dd87),
    Row(24, "MMDMMDM", 0x234cc6606416cdcf),
    Row(25, "MMDMMDM", 0xbd6c49071e16bb8f),
    Row(26, "DDDDDDD", 0x277544f5db2e0fb2),
    Row(27, "MMMD", 0x81a5fee56f72f72d),
    Row(28, "MMMD", 0xbac75ec559cae144),
    Row(29, "DDDD", 0x86876415b42c646e),
    Row(30, "MMM", 0xd4e1e4986e688df7),
    Row(31, "MM", 0x6e4443ef34581ce2),
    Row(32, "M", 0x81fadbea143e22bb),
];

#[test]
fn faults_over_four_services(rt: HostRuntime) {
    for row in OVER_FOUR {
        assert!(rt; is_row(rt.alloc(), 4, row));
    }
}
