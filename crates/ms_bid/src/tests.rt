//! Bids over three services by scripts of answers.

ghost use Rattle.std.specs.Prelude.{◌≡◌, ℕ, ◌<◌, ◌≤◌, Contains, length};
ghost use Rattle.ms_record.specs.Settings.{IsSetting};

use crate::{Act, Answer, Flags, Outcome, Proposer};
use ms_base::{ClientId, Name, ServiceId};
use ms_record::{Ballot, Entry, Plan, ServiceSet, Setting, Sight, Vote};
use std::test::*;

const ZEROS: Name = Name([0; 32]);

/// The bidder's own entry has the number 1; those with the numbers 2 and 3 are of another client.
const OWN: Entry = Entry {
    before: ZEROS,
    client: ClientId(1),
    number: 1,
    version: ZEROS,
    plan: None,
};

/// The ballot of the bids is of round 3 and client 1.
const BALLOT: Ballot = Ballot {
    round: 3,
    client: ClientId(1),
};

/// Answers to the acts of a bid with an entry of its own, one after another, and which act is then pending.
///
/// `k` kept, `s` sent, `d` declared, `f` failed. Sights: `p` promised and no Best; `b` promised, the Best is entry 2 of
/// round 1; `c` promised, the Best is entry 3 of round 2; `t` taken; `n` no record of the ballot; `g` a ballot of
/// round 4. Acts: `K` keep, `S` send and `L` look with the service, `A` declare with the entry's number. Ends:
/// `D` decided with the entry's number, `N` nothing, `O` outbid and `U` unlisted with the service, `M` no majority with
/// the least service that failed, `F` a fault of the keeper.
const BIDS: [(&str, u8, u32); 25] = [
    ("", b'K', 3),
    ("k", b'S', 0),
    ("kss", b'S', 2),
    ("ksss", b'L', 0),
    // No service is passed over but one that failed.
    ("kfss", b'L', 1),
    ("ksssppp", b'A', 1),
    ("kssspppd", b'S', 0),
    ("kssspppdsssttt", b'D', 1),
    // Two of three are a majority, one is none.
    ("ksssppn", b'A', 1),
    ("ksssnpn", b'U', 0),
    ("ksssppndssstnt", b'D', 1),
    ("kssspppdssstnn", b'U', 1),
    // The Best of greatest ballot is offered, whichever is read last.
    ("ksssbpc", b'A', 3),
    ("kssscpb", b'A', 3),
    ("ksssccb", b'A', 3),
    ("ksssbpn", b'A', 2),
    // A greater ballot is an end only where there is no majority.
    ("ksssppg", b'A', 1),
    ("ksssngg", b'O', 1),
    ("kssspppdsssntg", b'O', 2),
    // No end comes before each voter that did not fail was looked at.
    ("ksssbp", b'L', 2),
    ("ksssg", b'L', 1),
    ("kffs", b'L', 2),
    // Half of the voters failed, or more.
    ("ksffg", b'M', 1),
    ("kssspppdssstff", b'M', 1),
    ("f", b'F', 0),
];

/// The same of a bid without an entry of its own.
const SETTLING_BIDS: [(&str, u8, u32); 4] = [
    ("ksssppp", b'N', 0),
    ("ksssppg", b'O', 2),
    ("ksssbpp", b'A', 2),
    ("ksssbppdsssttt", b'D', 2),
];

/// Answers to a bid with an entry of its own, and one more that is none to the pending act.
const WRONG_ANSWERS: [(&str, u8); 7] = [
    ("ksss", b'k'),
    ("", b's'),
    ("k", b'p'),
    ("ksssp", b's'),
    ("ksssppp", b'f'),
    ("kssspppdsss", b'd'),
    ("f", b'f'),
];

/// Three services and two clients.
fn setting() -> Setting
    ensures ranges { IsSetting result }
    ensures services { result.services ≡ 3 }
    ensures clients { result.clients ≡ 2 }
{
    Setting {
        services: 3,
        clients: 2,
        genesis: Entry {
            before: ZEROS,
            client: ClientId(0),
            number: 0,
            version: ZEROS,
            plan: Some(Plan::even(3, 2)),
        },
    }
}

/// All three vote.
fn voters() -> ServiceSet
    ensures some { 1 ≤ length result }
    ensures below { (s : ℕ) → Contains result s → s < 3 }
{
    ServiceSet::all(3)
}

fn bid() -> Proposer {
    Proposer::new(&setting(), &voters(), ClientId(1), 1, 3, Some(OWN))
}

fn settling_bid() -> Proposer {
    Proposer::new(&setting(), &voters(), ClientId(1), 1, 3, None)
}

fn best(number: u32, round: u32) -> Option<Vote> {
    Some(Vote {
        ballot: Ballot {
            round,
            client: ClientId(0),
        },
        entry: Entry {
            before: ZEROS,
            client: ClientId(0),
            number,
            version: ZEROS,
            plan: None,
        },
    })
}

/// A sight of a list in which the bid's Prepare is promised.
fn promised(best: Option<Vote>) -> Sight {
    Sight {
        promised: true,
        best,
        taken: false,
        top: Some(BALLOT),
    }
}

/// A sight of a list without a record of the bid's ballot.
fn other(top: Option<Ballot>) -> Sight {
    Sight {
        promised: false,
        best: None,
        taken: false,
        top,
    }
}

fn sight_of(sign: u8) -> Sight {
    match sign {
        b'p' => promised(None),
        b'b' => promised(best(2, 1)),
        b'c' => promised(best(3, 2)),
        b't' => Sight {
            promised: true,
            best: None,
            taken: true,
            top: Some(BALLOT),
        },
        b'g' => other(Some(Ballot {
            round: 4,
            client: ClientId(0),
        })),
        _ => other(None),
    }
}

fn answer_of(sign: u8) -> Answer {
    match sign {
        b'k' => Answer::Kept,
        b's' => Answer::Sent,
        b'd' => Answer::Declared,
        b'f' => Answer::Failed,
        _ => Answer::Seen {
            sight: sight_of(sign),
        },
    }
}

fn offered(offer: &ms_record::Record) -> u32 {
    match offer {
        ms_record::Record::Accept { entry, .. } => entry.number,
        ms_record::Record::Prepare { .. } => 0,
    }
}

fn sign_of_end(outcome: &Outcome) -> (u8, u32) {
    match outcome {
        Outcome::Decided { entry } => (b'D', entry.number),
        Outcome::Nothing => (b'N', 0),
        Outcome::Outbid { service, .. } => (b'O', service.0),
        Outcome::NoMajority { failed } => (b'M', if failed.has(ServiceId(0)) { 0 } else { 1 }),
        Outcome::Unlisted { service } => (b'U', service.0),
        Outcome::KeepFault => (b'F', 0),
    }
}

fn sign_of(act: &Act) -> (u8, u32) {
    match act {
        Act::Keep { round } => (b'K', *round),
        Act::Send { service, .. } => (b'S', service.0),
        Act::Look { service } => (b'L', service.0),
        Act::Declare { offer } => (b'A', offered(offer)),
        Act::End { outcome } => sign_of_end(outcome),
    }
}

/// Whether each of the answers is one to the pending act.
fn is_played(bid: &mut Proposer, answers: &str) -> bool {
    for sign in answers.as_bytes() {
        if bid.take(answer_of(*sign)).is_err() {
            return false;
        }
    }
    true
}

/// Whether this act is pending behind the answers.
fn comes_to(mut bid: Proposer, row: (&str, u8, u32)) -> bool {
    is_played(&mut bid, row.0) && sign_of(&bid.next()) == (row.1, row.2)
}

/// Whether the last answer is a wrong one, and the same act is pending behind it.
fn is_wrong(row: (&str, u8)) -> bool {
    let mut bid = bid();
    if !is_played(&mut bid, row.0) {
        return false;
    }
    let pending = sign_of(&bid.next());
    bid.take(answer_of(row.1)).is_err() && sign_of(&bid.next()) == pending
}

#[test]
fn answers_lead_to_acts_and_ends(rt: HostRuntime) {
    for row in BIDS {
        assert!(rt; comes_to(bid(), row));
    }
}

#[test]
fn answers_to_settling_bids(rt: HostRuntime) {
    for row in SETTLING_BIDS {
        assert!(rt; comes_to(settling_bid(), row));
    }
}

#[test]
fn wrong_answer_to_the_proposer(rt: HostRuntime) {
    for row in WRONG_ANSWERS {
        assert!(rt; is_wrong(row));
    }
}

#[test]
fn services_with_a_flag(rt: HostRuntime) {
    let mut flags = Flags::none();
    assert!(rt; flags.services().len() == 0);
    flags.add(ServiceId(15));
    flags.add(ServiceId(0));
    flags.add(ServiceId(7));
    let services = flags.services();
    assert!(rt; services.len() == 3);
    assert!(rt;
        services.has(ServiceId(0)) && services.has(ServiceId(7)) && services.has(ServiceId(15))
    );
}
