//! Reading plans, entries and records from the front of a text: `docs/FORMATS.md`, records, entries, plans.

ghost use Rattle.std.specs.Prelude.{◌≡◌, length};
ghost use Rattle.std.specs.Option.{option_map};
ghost use Rattle.ms_record.specs.Reading.{row_at, rows_at, plan_at, push_at, plan_entry_at, tagged_at, entry_at, ballot_at, ending_at, record_at};

use crate::ballot::Ballot;
use crate::entry::Entry;
use crate::plan::{MOST_ROWS, NO_ROW, Plan, PlanRow};
use crate::record::Record;
use ms_base::ServiceId;
use ms_base::fields::{Field, read_client, read_name, read_u8, read_u32, read_u64, read_within};
use ms_base::limits::{LAST_NUMBER, SERVICES};

#[tactic(auto, unfolding(crate::specs::Reading::row_at))]
fn read_row(text: &[u8]) -> Field<'_, PlanRow>
    ensures { option_map (λ x. (x.0, x.1.now)) result ≡ row_at text.now }
{
    let (service, rest) = read_u32(text)?;
    let (capacity, rest) = read_u64(rest)?;
    let row = PlanRow {
        service: ServiceId(service),
        capacity,
    };
    Some((row, rest))
}

/// Fills the rows, and gives the bytes after them.
fn read_rows<'a>(rows: &mut [PlanRow], text: &'a [u8]) -> Option<&'a [u8]>
    ensures { option_map (λ rest. (rows.new, rest.now)) result ≡ rows_at (length rows.old) text.now }
{
    let mut rest = text;
    for row in rows.iter_mut() {
        let Some((read, after)) = read_row(rest) else {
            return None;
        };
        *row = read;
        rest = after;
    }
    Some(rest)
}

#[tactic(auto, unfolding(crate::specs::Reading::plan_at))]
fn read_plan(text: &[u8]) -> Field<'_, Plan>
    ensures { option_map (λ x. (x.0, x.1.now)) result ≡ plan_at text.now }
{
    let (generation, rest) = read_u32(text)?;
    let (format, rest) = read_u32(rest)?;
    let (replicas, rest) = read_u32(rest)?;
    let (unit, rest) = read_u64(rest)?;
    let (count, rest) = read_within(1, SERVICES, rest)?;
    let mut all = [NO_ROW; MOST_ROWS];
    let rows = &mut all[..count as usize];
    let rest = read_rows(rows, rest)?;
    let plan = Plan::new(generation, format, replicas, unit, rows)?;
    Some((plan, rest))
}

#[tactic(auto, unfolding(crate::specs::Reading::push_at))]
fn read_push(text: &[u8]) -> Field<'_, Entry>
    ensures { option_map (λ x. (x.0, x.1.now)) result ≡ push_at text.now }
{
    let (before, rest) = read_name(text)?;
    let (client, rest) = read_client(rest)?;
    let (number, rest) = read_u32(rest)?;
    let (version, rest) = read_name(rest)?;
    let push = Entry {
        before,
        client,
        number,
        version,
        plan: None,
    };
    Some((push, rest))
}

#[tactic(auto, unfolding(crate::specs::Reading::plan_entry_at))]
fn read_plan_entry(text: &[u8]) -> Field<'_, Entry>
    ensures { option_map (λ x. (x.0, x.1.now)) result ≡ plan_entry_at text.now }
{
    let Some((push, rest)) = read_push(text) else {
        return None;
    };
    let Some((plan, rest)) = read_plan(rest) else {
        return None;
    };
    let entry = Entry {
        plan: Some(plan),
        ..push
    };
    Some((entry, rest))
}

#[tactic(auto, unfolding(crate::specs::Reading::tagged_at))]
fn read_tagged(tag: u8, text: &[u8]) -> Field<'_, Entry>
    ensures { option_map (λ x. (x.0, x.1.now)) result ≡ tagged_at tag text.now }
{
    match tag {
        b'U' => read_push(text),
        b'L' => read_plan_entry(text),
        _ => None,
    }
}

/// All of the text as an entry.
#[tactic(auto, unfolding(crate::specs::Reading::entry_at))]
pub(crate) fn read_entry(text: &[u8]) -> Option<Entry>
    ensures { result ≡ entry_at text.now }
{
    let (tag, rest) = read_u8(text)?;
    match read_tagged(tag, rest) {
        Some((entry, [])) => Some(entry),
        _ => None,
    }
}

#[tactic(auto, unfolding(crate::specs::Reading::ballot_at))]
fn read_ballot(text: &[u8]) -> Field<'_, Ballot>
    ensures { option_map (λ x. (x.0, x.1.now)) result ≡ ballot_at text.now }
{
    let (round, rest) = read_within(1, LAST_NUMBER, text)?;
    let (client, rest) = read_client(rest)?;
    Some((Ballot { round, client }, rest))
}

/// The record of this tag, position and ballot, whose text ends so.
#[tactic(auto, unfolding(crate::specs::Reading::ending_at))]
fn read_ending(tag: u8, position: u32, ballot: Ballot, text: &[u8]) -> Option<Record>
    ensures { result ≡ ending_at tag position ballot text.now }
{
    match tag {
        b'P' if text.is_empty() => Some(Record::Prepare { position, ballot }),
        b'A' => {
            let entry = read_entry(text)?;
            Some(Record::Accept {
                position,
                ballot,
                entry,
            })
        }
        _ => None,
    }
}

/// All of the text as a record.
#[tactic(auto, unfolding(crate::specs::Reading::record_at))]
pub(crate) fn read_record(text: &[u8]) -> Option<Record>
    ensures { result ≡ record_at text.now }
{
    let (tag, rest) = read_u8(text)?;
    let (position, rest) = read_within(1, LAST_NUMBER, rest)?;
    let (ballot, rest) = read_ballot(rest)?;
    read_ending(tag, position, ballot, rest)
}
