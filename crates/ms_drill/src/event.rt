//! The events of a drill, a line each.

ghost use Rattle.std.specs.Prelude.{◌≡◌, ◌==◌, [], map, IfOk};
ghost use Rattle.std.specs.List.{slice_split};
ghost use Rattle.std.specs.Option.{option_map};
ghost use Rattle.ms_drill.specs.Lines.{u32_at, u64_at, u32_then, start_at, stop_at, offer_at, learn_at, deliver_at, push_at, want_at, bid_at, rows_on, rows_at, plan_at, turn_at, migrate_at, read_at, place_at, drop_at, client_event, other_event, event_at};

use ms_base::{Bytes, ClientId, Name, NoMemory, ServiceId};
use ms_record::{Plan, PlanRow};
use ms_text::{hex_bytes, name, number, split_at_space};
use ms_world::{Event, Push};
use std::alloc::{AllocError, Global};

/// The greatest number of 32 bits.
const MOST_U32: u64 = 4_294_967_295;

/// The greatest number of 64 bits.
const MOST_U64: u64 = 18_446_744_073_709_551_615;

fn read_u32(word: &[u8]) -> Option<u32>
    ensures { result ≡ u32_at word.now }
{
    match number(word, MOST_U32) {
        Some(n) => Some(n as u32),
        None => None,
    }
}

fn read_u64(word: &[u8]) -> Option<u64>
    ensures { result ≡ u64_at word.now }
{
    number(word, MOST_U64)
}

/// A number of 32 bits, and what stands behind a space.
#[tactic(auto, unfolding(crate::specs::Lines::u32_then))]
fn read_then(text: &[u8]) -> Option<(u32, &[u8])>
    ensures { option_map (λ x. (x.0, x.1.now)) result ≡ u32_then text.now }
{
    let (first, rest) = split_at_space(text)?;
    let number = read_u32(first)?;
    Some((number, rest))
}

fn read_start(text: &[u8]) -> Option<Event>
    ensures { result ≡ start_at text.now }
{
    match read_u32(text) {
        Some(client) => Some(Event::Start {
            client: ClientId(client),
        }),
        None => None,
    }
}

fn read_stop(text: &[u8]) -> Option<Event>
    ensures { result ≡ stop_at text.now }
{
    match read_u32(text) {
        Some(client) => Some(Event::Stop {
            client: ClientId(client),
        }),
        None => None,
    }
}

fn read_offer(text: &[u8]) -> Option<Event>
    ensures { result ≡ offer_at text.now }
{
    match read_u32(text) {
        Some(client) => Some(Event::Offer {
            client: ClientId(client),
        }),
        None => None,
    }
}

fn read_learn(text: &[u8]) -> Option<Event>
    ensures { result ≡ learn_at text.now }
{
    match read_u32(text) {
        Some(client) => Some(Event::Learn {
            client: ClientId(client),
        }),
        None => None,
    }
}

fn read_deliver(text: &[u8]) -> Option<Event>
    ensures { result ≡ deliver_at text.now }
{
    match read_u64(text) {
        Some(request) => Some(Event::Deliver { request }),
        None => None,
    }
}

/// `NUMBER HEX64`.
#[tactic(auto, unfolding(crate::specs::Lines::push_at))]
fn read_push(text: &[u8]) -> Option<Option<Push>>
    ensures { result ≡ push_at text.now }
{
    let (number, rest) = read_then(text)?;
    let version = name(rest)?;
    Some(Some(Push {
        number,
        version: Name(version),
    }))
}

/// `NUMBER HEX64`, or `-` for no push.
#[tactic(auto, unfolding(crate::specs::Lines::want_at))]
fn read_want(text: &[u8]) -> Option<Option<Push>>
    ensures { result ≡ want_at text.now }
{
    if text == b"-".as_slice() {
        Some(None)
    } else {
        read_push(text)
    }
}

/// `C ROUND NUMBER HEX64` or `C ROUND -`.
#[tactic(auto, unfolding(crate::specs::Lines::bid_at))]
fn read_bid(text: &[u8]) -> Option<Event>
    ensures { result ≡ bid_at text.now }
{
    let (client, rest) = read_then(text)?;
    let (round, rest) = read_then(rest)?;
    let want = read_want(rest)?;
    Some(Event::Bid {
        client: ClientId(client),
        round,
        want,
    })
}

/// `C ROUND NUMBER HEX64`.
#[tactic(auto, unfolding(crate::specs::Lines::migrate_at))]
fn read_migrate(text: &[u8]) -> Option<Event>
    ensures { result ≡ migrate_at text.now }
{
    let (client, rest) = read_then(text)?;
    let (round, rest) = read_then(rest)?;
    let (number, rest) = read_then(rest)?;
    let version = name(rest)?;
    Some(Event::Migrate {
        client: ClientId(client),
        round,
        number,
        version: Name(version),
    })
}

/// `C S UPTO`.
#[tactic(auto, unfolding(crate::specs::Lines::read_at))]
fn read_read(text: &[u8]) -> Option<Event>
    ensures { result ≡ read_at text.now }
{
    let (client, rest) = read_then(text)?;
    let (service, rest) = read_then(rest)?;
    let upto = read_u64(rest)?;
    Some(Event::Read {
        client: ClientId(client),
        service: ServiceId(service),
        upto,
    })
}

/// `S FLOOR`.
#[tactic(auto, unfolding(crate::specs::Lines::drop_at))]
fn read_drop(text: &[u8]) -> Option<Event>
    ensures { result ≡ drop_at text.now }
{
    let (service, rest) = read_then(text)?;
    let floor = read_u32(rest)?;
    Some(Event::DropBelow {
        service: ServiceId(service),
        floor,
    })
}

/// Services joined by commas, each with capacity 1.
fn read_rows(alloc: Global, text: &[u8]) -> Result<Option<Vec<PlanRow>>, NoMemory>
    ensures { IfOk result (λ o. option_map (λ rows. rows.items) o ≡ rows_at text.now) }
{
    let words = words_of(alloc, text)?;
    read_services(alloc, words.as_slice())
}

/// The words between the commas.
fn words_of(alloc: Global, text: &[u8]) -> Result<Vec<&[u8]>, AllocError>
    ensures { IfOk result (λ words. map (λ w. w.now) words.items ≡ slice_split (λ b. b == 44) text.now) }
{
    text.split(|b| *b == b',').collect(alloc)
}

/// A row for each service.
fn read_services(alloc: Global, words: &[&[u8]]) -> Result<Option<Vec<PlanRow>>, NoMemory>
    ensures { IfOk result (λ o. option_map (λ rows. rows.items) o ≡ rows_on [] (map (λ w. w.now) words.now)) }
{
    let mut rows = Vec::new(alloc);
    for i in 0..words.len() {
        let Some(service) = read_u32(words[i]) else {
            return Ok(None);
        };
        rows.push(PlanRow {
            service: ServiceId(service),
            capacity: 1,
        })?;
    }
    Ok(Some(rows))
}

/// `GENERATION R S,S`: a plan of unit 1 that keeps the plan rules.
#[tactic(auto, unfolding(crate::specs::Lines::plan_at))]
fn read_plan(alloc: Global, text: &[u8]) -> Result<Option<Plan>, NoMemory>
    ensures { IfOk result (λ o. o ≡ plan_at text.now) }
{
    let (generation, rest) = match read_then(text) {
        Some(read) => read,
        None => return Ok(None),
    };
    let (replicas, rest) = match read_then(rest) {
        Some(read) => read,
        None => return Ok(None),
    };
    match read_rows(alloc, rest)? {
        Some(rows) => Ok(Plan::new(generation, 1, replicas, 1, &rows)),
        None => Ok(None),
    }
}

/// `C ROUND NUMBER GENERATION R S,S`.
#[tactic(auto, unfolding(crate::specs::Lines::turn_at))]
fn read_turn(alloc: Global, text: &[u8]) -> Result<Option<Event>, NoMemory>
    ensures { IfOk result (λ o. o ≡ turn_at text.now) }
{
    let (client, rest) = match read_then(text) {
        Some(read) => read,
        None => return Ok(None),
    };
    let (round, rest) = match read_then(rest) {
        Some(read) => read,
        None => return Ok(None),
    };
    let (number, rest) = match read_then(rest) {
        Some(read) => read,
        None => return Ok(None),
    };
    match read_plan(alloc, rest)? {
        Some(plan) => Ok(Some(Event::Turn {
            client: ClientId(client),
            round,
            number,
            plan,
        })),
        None => Ok(None),
    }
}

/// `S GENERATION HEX`.
#[tactic(auto, unfolding(crate::specs::Lines::place_at))]
fn read_place(alloc: Global, text: &[u8]) -> Result<Option<Event>, NoMemory>
    ensures { IfOk result (λ o. o ≡ place_at text.now) }
{
    let (service, rest) = match read_then(text) {
        Some(read) => read,
        None => return Ok(None),
    };
    let (generation, rest) = match read_then(rest) {
        Some(read) => read,
        None => return Ok(None),
    };
    match hex_bytes(alloc, rest)? {
        Some(object) => Ok(Some(Event::Place {
            service: ServiceId(service),
            generation,
            text: Bytes::from_vec(object),
        })),
        None => Ok(None),
    }
}

/// What a client does, by the first word.
#[tactic(auto, unfolding(crate::specs::Lines::client_event))]
fn read_client_event(alloc: Global, word: &[u8], text: &[u8]) -> Result<Option<Event>, NoMemory>
    ensures { IfOk result (λ o. o ≡ client_event word.now text.now) }
{
    if word == b"start".as_slice() {
        Ok(read_start(text))
    } else if word == b"stop".as_slice() {
        Ok(read_stop(text))
    } else if word == b"bid".as_slice() {
        Ok(read_bid(text))
    } else if word == b"turn".as_slice() {
        read_turn(alloc, text)
    } else if word == b"offer".as_slice() {
        Ok(read_offer(text))
    } else {
        Ok(None)
    }
}

#[tactic(auto, unfolding(crate::specs::Lines::other_event))]
fn read_other_event(alloc: Global, word: &[u8], text: &[u8]) -> Result<Option<Event>, NoMemory>
    ensures { IfOk result (λ o. o ≡ other_event word.now text.now) }
{
    if word == b"learn".as_slice() {
        Ok(read_learn(text))
    } else if word == b"migrate".as_slice() {
        Ok(read_migrate(text))
    } else if word == b"read".as_slice() {
        Ok(read_read(text))
    } else if word == b"deliver".as_slice() {
        Ok(read_deliver(text))
    } else if word == b"place".as_slice() {
        read_place(alloc, text)
    } else if word == b"drop".as_slice() {
        Ok(read_drop(text))
    } else {
        Ok(None)
    }
}

/// The event of a line.
#[tactic(auto, unfolding(crate::specs::Lines::event_at))]
pub(crate) fn read_event(alloc: Global, line: &[u8]) -> Result<Option<Event>, NoMemory>
    ensures { IfOk result (λ o. o ≡ event_at line.now) }
{
    let (word, rest) = match split_at_space(line) {
        Some(words) => words,
        None => return Ok(None),
    };
    match read_client_event(alloc, word, rest)? {
        Some(event) => Ok(Some(event)),
        None => read_other_event(alloc, word, rest),
    }
}
