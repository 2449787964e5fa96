//! Writing entries and records: `docs/FORMATS.md`, plans, entries, records.

ghost use Rattle.std.specs.Prelude.{◌≡◌, ◌++◌, OnOk, OnErr};
ghost use Rattle.std.specs.List.{flat_map};
ghost use Rattle.ms_record.specs.Entries.{entry_text, plan_part};
ghost use Rattle.ms_record.specs.Plans.{plan_text, row_text};
ghost use Rattle.ms_record.specs.Records.{ballot_text, head_text, record_text};

use crate::ballot::Ballot;
use crate::entry::Entry;
use crate::plan::{Plan, PlanRow};
use crate::record::Record;
use ms_base::NoMemory;
use ms_base::fields::{push_name, push_u32, push_u64};

/// Puts the bytes of an entry at the end of `out`.
pub fn write_entry(entry: &Entry, out: &mut Vec<u8>) -> Result<(), NoMemory>
    ensures ok { OnOk result (out.new.items ≡ out.old.items ++ entry_text entry.now) }
    ensures err { OnErr result (out.new.items ≡ out.old.items) }
{
    let mut text = Vec::new(*out.allocator());
    push_entry(&mut text, entry)?;
    out.extend_from_slice(&text)?;
    Ok(())
}

/// Puts the bytes of a record at the end of `out`.
pub fn write_record(message: &Record, out: &mut Vec<u8>) -> Result<(), NoMemory>
    ensures ok { OnOk result (out.new.items ≡ out.old.items ++ record_text message.now) }
    ensures err { OnErr result (out.new.items ≡ out.old.items) }
{
    let mut text = Vec::new(*out.allocator());
    push_record(&mut text, message)?;
    out.extend_from_slice(&text)?;
    Ok(())
}

fn push_record(out: &mut Vec<u8>, message: &Record) -> Result<(), NoMemory>
    ensures { OnOk result (out.new.items ≡ out.old.items ++ record_text message.now) }
{
    match message {
        Record::Prepare { position, ballot } => push_head(out, b'P', *position, *ballot),
        Record::Accept {
            position,
            ballot,
            entry,
        } => {
            push_head(out, b'A', *position, *ballot)?;
            push_entry(out, entry)
        }
    }
}

/// The tag, the position and the ballot of a record.
fn push_head(out: &mut Vec<u8>, tag: u8, position: u32, ballot: Ballot) -> Result<(), NoMemory>
    ensures { OnOk result (out.new.items ≡ out.old.items ++ head_text tag position ballot) }
{
    out.push(tag)?;
    push_u32(out, position)?;
    push_ballot(out, ballot)
}

fn push_ballot(out: &mut Vec<u8>, ballot: Ballot) -> Result<(), NoMemory>
    ensures { OnOk result (out.new.items ≡ out.old.items ++ ballot_text ballot) }
{
    push_u32(out, ballot.round)?;
    push_u32(out, ballot.client.0)
}

fn push_entry(out: &mut Vec<u8>, entry: &Entry) -> Result<(), NoMemory>
    ensures { OnOk result (out.new.items ≡ out.old.items ++ entry_text entry.now) }
{
    let tag = match entry.plan {
        None => b'U',
        Some(_) => b'L',
    };
    out.push(tag)?;
    push_name(out, &entry.before)?;
    push_u32(out, entry.client.0)?;
    push_u32(out, entry.number)?;
    push_name(out, &entry.version)?;
    push_plan_part(out, entry)
}

/// The plan of an entry, where it has one.
fn push_plan_part(out: &mut Vec<u8>, entry: &Entry) -> Result<(), NoMemory>
    ensures { OnOk result (out.new.items ≡ out.old.items ++ plan_part entry.now.plan) }
{
    match &entry.plan {
        None => Ok(()),
        Some(plan) => push_plan(out, plan),
    }
}

fn push_plan(out: &mut Vec<u8>, plan: &Plan) -> Result<(), NoMemory>
    ensures { OnOk result (out.new.items ≡ out.old.items ++ plan_text plan.now) }
{
    let rows = plan.rows();
    push_u32(out, plan.generation())?;
    push_u32(out, plan.format())?;
    push_u32(out, plan.replicas())?;
    push_u64(out, plan.unit())?;
    push_u32(out, rows.len() as u32)?;
    push_rows(out, rows)
}

fn push_rows(out: &mut Vec<u8>, rows: &[PlanRow]) -> Result<(), NoMemory>
    ensures { OnOk result (out.new.items ≡ out.old.items ++ flat_map row_text rows.now) }
{
    for row in rows {
        push_u32(out, row.service.0)?;
        push_u64(out, row.capacity)?;
    }
    Ok(())
}
