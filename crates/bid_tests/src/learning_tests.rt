//! Learning: what a chain gains of vote lists, and what it answers.

ghost use Rattle.std.specs.Prelude.{◌≡◌, ◌≤◌, IfOk, IfSome};
ghost use Rattle.ms_base.specs.declared.limits.TheConstants.{LAST_NUMBER, SERVICES};
ghost use Rattle.ms_ken.specs.Known.{ArePasses};
ghost use Rattle.ms_local.specs.Desks.{IsDesk, desk_view};
ghost use Rattle.ms_local.specs.Learning.{IsOfDesk};
ghost use Rattle.ms_record.specs.Settings.{IsSetting};
ghost use Rattle.bid_tests.specs.Shelves.{IsUntoldDesk};

use crate::shelves::{Fate, LOST, Shelf, WELL, desk_on};
use ms_base::{Bytes, ClientId, Name, NoMemory, ServiceId};
use ms_chain::Chain;
use ms_core::{Common, FoldClosed, Know};
use ms_ken::{Board, Naming};
use ms_link::Link;
use ms_local::{Deed, Desk, Keeper, Learner, Learnt, Work};
use ms_record::writing::write_record;
use ms_record::{
    Ballot, Entry, ListId, Plan, PlanRow, Record, Refusal, ServiceSet, Setting, entry_name,
};
use std::alloc::Global;
use std::marker::Brand;
use std::test::*;

const ZEROS: Name = Name([0; 32]);

const ONES: Name = Name([0x11; 32]);

/// The list of the votes.
const VOTES: ListId = ListId(0);

/// A setting of so many services, which all vote at first, and two clients.
fn setting_of(services: u32) -> Setting
    requires some { 1 ≤ services }
    requires few { services ≤ SERVICES }
    ensures rules { IsSetting result }
    ensures services { result.services ≡ services }
    ensures clients { result.clients ≡ 2 }
{
    Setting::first(services, 2, ZEROS, ZEROS, Plan::even(services, 1))
}

/// A push.
fn push(before: Name, client: u32, number: u32) -> Entry {
    Entry {
        before,
        client: ClientId(client),
        number,
        version: ONES,
        plan: None,
    }
}

/// A plan over service 0 alone behind the genesis.
fn turn(genesis: Name) -> Entry {
    let row = PlanRow {
        service: ServiceId(0),
        capacity: 1,
    };
    Entry {
        plan: Plan::new(1, 1, 1, 1, &[row]),
        ..push(genesis, 0, 1)
    }
}

/// The entry of a letter: `X` and `Y` are pushes of clients 0 and 1 behind the genesis, `Z` is one behind X; `L` is a plan over service 0 alone
/// behind the genesis, and `Q` a push behind it. The others link on to nothing.
fn entry_of(letter: u8, genesis: Name) -> Entry {
    match letter {
        b'X' => push(genesis, 0, 1),
        b'Y' => push(genesis, 1, 1),
        b'Z' => push(entry_name(&push(genesis, 0, 1)), 1, 2),
        b'L' => turn(genesis),
        b'Q' => push(entry_name(&turn(genesis)), 0, 2),
        _ => push(ONES, 0, 9),
    }
}

/// A vote of a service at a position, under the ballot of a round of client 0, for the entry of a letter; `P` is a Prepare.
#[derive(Clone, Copy)]
struct Vote(u32, u32, u32, u8);

/// What a learning answers.
#[derive(Clone, Copy)]
enum Told<'a> {
    /// The chain has the entries of these letters, and a taken Accept stands up to this position.
    Learnt(&'a str, u32),
    /// These services failed.
    NoMajority(&'a [u32]),
    /// The entries of these two letters are chosen at the position.
    Split(u32, [u8; 2]),
}

/// The text of a vote.
fn text_of(alloc: Global, vote: Vote, genesis: Name) -> Result<Bytes, NoMemory> {
    let position = vote.1;
    let ballot = Ballot {
        round: vote.2,
        client: ClientId(0),
    };
    let record = match vote.3 {
        b'P' => Record::Prepare { position, ballot },
        letter => Record::Accept {
            position,
            ballot,
            entry: entry_of(letter, genesis),
        },
    };
    let mut text = Vec::new(alloc);
    write_record(&record, &mut text)?;
    Ok(Bytes::from_vec(text))
}

/// The lists of one service show one text more at each reading.
const IN_PIECES: Fate<'static> = Fate {
    fails: &[],
    step: 1,
    floor: 0,
    drops_at: 0,
};

/// What befalls a service: `w` nothing, `f` its link fails, `p` it is read in pieces.
fn fate_of(letter: u8) -> Fate<'static> {
    match letter {
        b'f' => LOST,
        b'p' => IN_PIECES,
        _ => WELL,
    }
}

/// The service with its votes among these, between texts that are no records.
fn shelf_of(
    alloc: Global,
    service: u32,
    fate: Fate<'_>,
    votes: &[Vote],
    genesis: Name,
) -> Result<Shelf, NoMemory> {
    let mut shelf = Shelf::new(alloc, fate)?;
    shelf.add(VOTES, Bytes::of(alloc, b"no record")?)?;
    for vote in votes {
        if vote.0 == service {
            shelf.add(VOTES, text_of(alloc, *vote, genesis)?)?;
        }
    }
    Ok(shelf)
}

/// The services of these letters, at most sixteen of them.
fn shelves(
    alloc: Global,
    letters: &[u8],
    votes: &[Vote],
    genesis: Name,
) -> Result<Vec<Shelf>, NoMemory> {
    let mut shelves = Vec::new(alloc);
    for service in 0..16u32 {
        if let Some(letter) = letters.get(service as usize) {
            let fate = fate_of(*letter);
            shelves.push(shelf_of(alloc, service, fate, votes, genesis)?)?;
        }
    }
    Ok(shelves)
}

/// Whether these are the services of these numbers.
fn are(services: &ServiceSet, numbers: &[u32]) -> bool {
    let services = services.as_slice();
    services.len() == numbers.len() && services.iter().zip(numbers).all(|(s, n)| s.0 == *n)
}

/// Whether the chain behind its genesis has the entries of these letters.
fn has_members(chain: &Chain, letters: &[u8], genesis: Name) -> bool {
    for place in 0..16u32 {
        if let Some(letter) = letters.get(place as usize) {
            let entry = entry_of(*letter, genesis);
            match chain.entry_at(place + 1) {
                Some(member) => {
                    if *member != entry {
                        return false;
                    }
                }
                None => return false,
            }
        }
    }
    chain.end() as usize == letters.len()
}

/// Whether the two are the names of the entries of these letters, in either order.
fn are_two(first: &Name, second: &Name, letters: [u8; 2], genesis: Name) -> bool {
    let one = entry_name(&entry_of(letters[0], genesis));
    let other = entry_name(&entry_of(letters[1], genesis));
    (*first == one && *second == other) || (*first == other && *second == one)
}

/// Whether the learning was answered so.
fn is_told(answer: &Result<Learnt, Refusal>, chain: &Chain, told: Told<'_>, genesis: Name) -> bool {
    match (answer, told) {
        (Ok(learnt), Told::Learnt(letters, seen)) => {
            learnt.end as usize == letters.len()
                && learnt.seen == seen
                && has_members(chain, letters.as_bytes(), genesis)
        }
        (Err(Refusal::NoMajority { failed }), Told::NoMajority(services)) => are(failed, services),
        (
            Err(
                Refusal::Split {
                    position,
                    first,
                    second,
                },
            ),
            Told::Split(at, letters),
        ) => *position == at && are_two(first, second, letters, genesis),
        _ => false,
    }
}

/// Learns once, and as often again.
fn learn_again<W: Work + Drop, K: Keeper + Drop, L: Link<FoldClosed> + Drop>(
    alloc: Global,
    desk: &mut Desk<W, K, L>,
    chain: &mut Chain,
    times: u32,
) -> Result<Learnt, Refusal>
    requires desk { IsDesk (desk_view W.sees K.sees L.sees desk.old) }
    requires chain { IsOfDesk chain.old (desk_view W.sees K.sees L.sees desk.old) }
{
    for _time in 0..times {
        let _ = chain.learn(alloc, desk);
    }
    chain.learn(alloc, desk)
}

fn learns_on<J: Naming>(
    alloc: Global,
    board: Common,
    passes: Vec<Know>,
    letters: &[u8],
    times: u32,
    votes: &[Vote],
    told: Told<'_>,
) -> Option<bool>
    requires board { board ≡ J.board }
    requires passes { ArePasses board 33 passes.items }
{
    let services = letters.len();
    if services == 0 || services > 16 {
        return None;
    }
    let setting = setting_of(services as u32);
    let genesis = entry_name(&setting.genesis);
    let shelves = shelves(alloc, letters, votes, genesis).ok()?;
    let mut desk = desk_on::<J>(alloc, board, passes, shelves)?;
    if desk.services != services as u32 {
        return None;
    }
    let Ok(mut chain) = Chain::new(alloc, &setting) else {
        return None;
    };
    let answer = learn_again(alloc, &mut desk, &mut chain, times);
    Some(is_told(&answer, &chain, told, genesis))
}

/// Whether a new chain at a new desk over services of these letters is told so, when it learns once, and as often again.
fn learns(alloc: Global, letters: &str, times: u32, votes: &[Vote], told: Told<'_>) -> bool {
    match Board::<FoldClosed>::new(alloc, 33) {
        Ok((board, passes)) => {
            learns_on::<Brand>(alloc, board, passes, letters.as_bytes(), times, votes, told)
                == Some(true)
        }
        Err(_) => false,
    }
}

/// Votes of three services.
const LISTS: [(&[Vote], Told<'static>); 13] = [
    (&[], Told::Learnt("", 0)),
    (&[Vote(0, 1, 1, b'X')], Told::Learnt("", 1)),
    (
        &[Vote(0, 1, 1, b'X'), Vote(1, 1, 1, b'X')],
        Told::Learnt("X", 1),
    ),
    (
        &[
            Vote(0, 1, 1, b'X'),
            Vote(1, 1, 1, b'X'),
            Vote(0, 2, 1, b'Z'),
            Vote(1, 2, 1, b'Z'),
        ],
        Told::Learnt("XZ", 2),
    ),
    (
        &[
            Vote(0, 1, 1, b'X'),
            Vote(1, 1, 1, b'X'),
            Vote(1, 2, 1, b'Z'),
        ],
        Told::Learnt("X", 2),
    ),
    // What is chosen does not link on.
    (
        &[Vote(0, 1, 1, b'U'), Vote(1, 1, 1, b'U')],
        Told::Learnt("", 1),
    ),
    // Votes of two ballots are not added up.
    (
        &[Vote(0, 1, 1, b'X'), Vote(1, 1, 2, b'X')],
        Told::Learnt("", 1),
    ),
    (
        &[
            Vote(0, 1, 1, b'Y'),
            Vote(0, 1, 2, b'X'),
            Vote(1, 1, 2, b'X'),
        ],
        Told::Learnt("X", 1),
    ),
    // An Accept below a promise is not taken.
    (
        &[
            Vote(0, 1, 2, b'P'),
            Vote(0, 1, 1, b'X'),
            Vote(1, 1, 1, b'X'),
        ],
        Told::Learnt("", 1),
    ),
    (
        &[Vote(0, 1, 2, b'P'), Vote(0, 1, 1, b'X')],
        Told::Learnt("", 0),
    ),
    // A repeated vote counts once.
    (
        &[Vote(0, 1, 1, b'X'), Vote(0, 1, 1, b'X')],
        Told::Learnt("", 1),
    ),
    // What is seen may stand past the end.
    (&[Vote(2, 5, 1, b'X')], Told::Learnt("", 5)),
    (
        &[
            Vote(0, 2, 1, b'Z'),
            Vote(1, 2, 1, b'Z'),
            Vote(2, 2, 1, b'Z'),
        ],
        Told::Learnt("", 2),
    ),
];

#[test]
fn what_is_learnt_of_three_lists(rt: HostRuntime) {
    for (votes, told) in LISTS {
        assert!(rt; learns(rt.alloc(), "www", 0, votes, told));
    }
}

/// In pieces of one text the same is learnt, and from an end on nothing more.
#[test]
fn tally_in_pieces(rt: HostRuntime) {
    for (votes, told) in LISTS {
        assert!(rt; learns(rt.alloc(), "ppp", 5, votes, told));
    }
}

/// Behind the plan L service 0 votes alone.
const TURNS: [(&[Vote], Told<'static>); 3] = [
    (
        &[
            Vote(0, 1, 1, b'L'),
            Vote(1, 1, 1, b'L'),
            Vote(0, 2, 1, b'Q'),
        ],
        Told::Learnt("LQ", 2),
    ),
    (
        &[
            Vote(0, 1, 1, b'L'),
            Vote(1, 1, 1, b'L'),
            Vote(1, 2, 1, b'Q'),
            Vote(2, 2, 1, b'Q'),
        ],
        Told::Learnt("L", 2),
    ),
    // Votes of former voters split nothing.
    (
        &[
            Vote(0, 1, 1, b'L'),
            Vote(1, 1, 1, b'L'),
            Vote(0, 2, 1, b'Q'),
            Vote(1, 2, 2, b'Z'),
            Vote(2, 2, 2, b'Z'),
        ],
        Told::Learnt("LQ", 2),
    ),
];

#[test]
fn voters_follow_the_plan(rt: HostRuntime) {
    for (votes, told) in TURNS {
        assert!(rt; learns(rt.alloc(), "wpw", 5, votes, told));
    }
}

/// X and Y are chosen at position 1.
const TWO: &[Vote] = &[
    Vote(0, 1, 1, b'X'),
    Vote(1, 1, 1, b'X'),
    Vote(1, 1, 2, b'Y'),
    Vote(2, 1, 2, b'Y'),
];

/// The second of two that are chosen need not link on. Behind the next position nothing is chosen.
const SPLITS: [(&[Vote], Told<'static>); 4] = [
    (TWO, Told::Split(1, *b"XY")),
    (
        &[
            Vote(0, 1, 1, b'X'),
            Vote(1, 1, 1, b'X'),
            Vote(0, 2, 1, b'Z'),
            Vote(1, 2, 1, b'Z'),
            Vote(1, 2, 2, b'U'),
            Vote(2, 2, 2, b'U'),
        ],
        Told::Split(2, *b"ZU"),
    ),
    (
        &[
            Vote(0, 1, 1, b'L'),
            Vote(1, 1, 1, b'L'),
            Vote(0, 2, 1, b'Q'),
            Vote(0, 2, 2, b'Z'),
        ],
        Told::Split(2, *b"QZ"),
    ),
    (
        &[
            Vote(0, 3, 1, b'X'),
            Vote(1, 3, 1, b'X'),
            Vote(1, 3, 2, b'Y'),
            Vote(2, 3, 2, b'Y'),
        ],
        Told::Learnt("", 3),
    ),
];

#[test]
fn two_entries_are_chosen(rt: HostRuntime) {
    for (votes, told) in SPLITS {
        assert!(rt; learns(rt.alloc(), "www", 1, votes, told));
    }
}

/// The second entry is read when the first is a member.
#[test]
fn a_split_is_found_later(rt: HostRuntime) {
    for (votes, told) in SPLITS {
        assert!(rt; learns(rt.alloc(), "ppp", 6, votes, told));
    }
}

/// What befalls the services, and what is learnt of the votes for X and Y.
const FAILING: [(&str, Told<'static>); 8] = [
    ("wwf", Told::Learnt("X", 1)),
    ("wfw", Told::Learnt("", 1)),
    ("wff", Told::NoMajority(&[1, 2])),
    ("fwf", Told::NoMajority(&[0, 2])),
    ("fff", Told::NoMajority(&[0, 1, 2])),
    ("wwff", Told::NoMajority(&[2, 3])),
    ("wwfw", Told::Learnt("", 1)),
    ("f", Told::NoMajority(&[0])),
];

#[test]
fn half_of_the_voters_failed(rt: HostRuntime) {
    for (letters, told) in FAILING {
        assert!(rt; learns(rt.alloc(), letters, 0, TWO, told));
    }
}

/// A service whose list has a vote for each position up to the last one, each for a push behind the one before.
fn long_shelf(alloc: Global, genesis: Name, last: u32) -> Result<Shelf, NoMemory> {
    let mut shelf = Shelf::new(alloc, WELL)?;
    let mut before = genesis;
    for place in 0..last {
        let entry = push(before, 0, place);
        before = entry_name(&entry);
        shelf.add(VOTES, accept_of(alloc, place, entry)?)?;
    }
    Ok(shelf)
}

/// The text of an Accept at the position behind this one.
fn accept_of(alloc: Global, before: u32, entry: Entry) -> Result<Bytes, NoMemory> {
    let record = Record::Accept {
        position: before.saturating_add(1),
        ballot: Ballot {
            round: 1,
            client: ClientId(0),
        },
        entry,
    };
    let mut text = Vec::new(alloc);
    write_record(&record, &mut text)?;
    Ok(Bytes::from_vec(text))
}

/// Whether the deed is a reading of the votes of service 0 from this place on, of which so many came.
fn is_reading(deed: &Deed, place: u64, texts: u64) -> bool {
    match deed {
        Deed::Listed {
            service,
            list,
            from,
            count,
            ok,
        } => {
            *service == ServiceId(0) && *list == VOTES && *from == place && *count == texts && *ok
        }
        _ => false,
    }
}

/// Whether so many votes were learnt, to that many members.
fn is_long(answer: &Result<Learnt, Refusal>, chain: &Chain, last: u32) -> bool {
    match (answer, chain.entry_at(last)) {
        (Ok(learnt), Some(member)) => {
            learnt.end == last
                && learnt.seen == last
                && chain.end() == last
                && member.number.saturating_add(1) == last
        }
        _ => false,
    }
}

/// Whether the list was read once, and from its end on.
fn are_readings(deeds: &[Deed], last: u32) -> bool {
    match deeds {
        [first, second] => {
            is_reading(first, 0, u64::from(last)) && is_reading(second, u64::from(last), 0)
        }
        _ => false,
    }
}

fn reads_long_on<J: Naming>(
    alloc: Global,
    board: Common,
    passes: Vec<Know>,
    last: u32,
) -> Option<bool>
    requires board { board ≡ J.board }
    requires passes { ArePasses board 33 passes.items }
{
    let setting = setting_of(1);
    let mut shelves = Vec::new(alloc);
    shelves
        .push(long_shelf(alloc, entry_name(&setting.genesis), last).ok()?)
        .ok()?;
    let mut desk = desk_on::<J>(alloc, board, passes, shelves)?;
    if desk.services != 1 {
        return None;
    }
    let Ok(mut chain) = Chain::new(alloc, &setting) else {
        return None;
    };
    let answer = learn_again(alloc, &mut desk, &mut chain, 1);
    Some(is_long(&answer, &chain, last) && are_readings(desk.deeds.as_slice(), last))
}

/// Whether a list of so many votes is learnt, and then read on from its end.
fn reads_long(alloc: Global, last: u32) -> bool {
    match Board::<FoldClosed>::new(alloc, 33) {
        Ok((board, passes)) => reads_long_on::<Brand>(alloc, board, passes, last) == Some(true),
        Err(_) => false,
    }
}

#[test]
fn a_list_of_2000_votes(rt: HostRuntime) {
    assert!(rt; reads_long(rt.alloc(), 2000));
}
