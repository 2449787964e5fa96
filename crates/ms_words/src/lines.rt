//! The lines of reports, each by a function of its own.

ghost use Rattle.std.specs.Prelude.{◌≡◌, ◌++◌, OnOk, codes};
ghost use Rattle.hex.specs.Hex.{encode_lower};
ghost use Rattle.ms_record.specs.Entries.{name_of};
ghost use Rattle.ms_words.specs.Texts.{HasManyLines, kind_word, generation_word, author_text, member_line, member_lines, audit_text, drill_text, hash_text, known_line, known_lines, reason_line, reason_lines, reason_word, refusal_text, rival_line, rival_lines, lost_lines};

use crate::reasons::kind_word;
use crate::refusals::refusal_line;
use ms_base::{Name, NoMemory};
use ms_record::{Entry, Reason, ReasonRow, Refusal, Rival, entry_name};
use ms_text::{push_name, push_number, push_text};

fn push_kind(out: &mut Vec<u8>, entry: &Entry) -> Result<(), NoMemory>
    ensures { OnOk result (out.new.items ≡ out.old.items ++ kind_word entry.now.plan) }
{
    push_text(out, kind_word(entry))
}

#[tactic(auto, unfolding(crate::specs::Texts::generation_word))]
fn push_generation(out: &mut Vec<u8>, entry: &Entry) -> Result<(), NoMemory>
    ensures { OnOk result (out.new.items ≡ out.old.items ++ generation_word entry.now.plan) }
{
    match &entry.plan {
        None => push_text(out, b""),
        Some(plan) => {
            push_text(out, b" ")?;
            push_number(out, u64::from(plan.generation()))
        }
    }
}

fn push_entry_name(out: &mut Vec<u8>, entry: &Entry) -> Result<(), NoMemory>
    ensures { OnOk result (out.new.items ≡ out.old.items ++ encode_lower (name_of entry.now)) }
{
    let name = entry_name(entry);
    push_name(out, &name.0)
}

#[tactic(auto, unfolding(crate::specs::Texts::author_text))]
fn push_author(out: &mut Vec<u8>, entry: &Entry) -> Result<(), NoMemory>
    ensures { OnOk result (out.new.items ≡ out.old.items ++ author_text entry.now) }
{
    push_number(out, u64::from(entry.client.0))?;
    push_text(out, b" ")?;
    push_number(out, u64::from(entry.number))?;
    push_text(out, b" ")?;
    push_name(out, &entry.version.0)
}

#[tactic(auto, unfolding(crate::specs::Texts::member_line))]
fn push_member(out: &mut Vec<u8>, position: u64, entry: &Entry) -> Result<(), NoMemory>
    ensures { OnOk result (out.new.items ≡ out.old.items ++ member_line position entry.now) }
{
    push_number(out, position)?;
    push_text(out, b" ")?;
    push_entry_name(out, entry)?;
    push_kind(out, entry)?;
    push_author(out, entry)?;
    push_generation(out, entry)?;
    push_text(out, b"\n")
}

fn push_members(out: &mut Vec<u8>, entries: &[Entry]) -> Result<(), NoMemory>
    ensures { OnOk result (out.new.items ≡ out.old.items ++ member_lines 1 entries.now) }
{
    for i in 0..entries.len() {
        push_member(out, i as u64 + 1, &entries[i])?;
    }
    Ok(())
}

/// The lines of a chain.
#[tactic(auto, unfolding(crate::specs::Texts::audit_text))]
pub(crate) fn push_audit(
    out: &mut Vec<u8>,
    genesis: &Name,
    entries: &[Entry],
) -> Result<(), NoMemory>
    ensures { OnOk result (out.new.items ≡ out.old.items ++ audit_text genesis.now.0 entries.now) }
{
    push_text(out, b"0 ")?;
    push_name(out, &genesis.0)?;
    push_text(out, b"\n")?;
    push_members(out, entries)?;
    push_text(out, b"end ")?;
    push_number(out, entries.len() as u64)?;
    push_text(out, b"\n")
}

#[tactic(auto, unfolding(crate::specs::Texts::known_line))]
fn push_known_line(out: &mut Vec<u8>, client: u64, position: u32) -> Result<(), NoMemory>
    ensures { OnOk result (out.new.items ≡ out.old.items ++ known_line client position) }
{
    push_text(out, b"client ")?;
    push_number(out, client)?;
    push_text(out, b" knows ")?;
    push_number(out, u64::from(position))?;
    push_text(out, b"\n")
}

fn push_known(out: &mut Vec<u8>, known: &[u32]) -> Result<(), NoMemory>
    ensures { OnOk result (out.new.items ≡ out.old.items ++ known_lines 0 known.now) }
{
    for i in 0..known.len() {
        push_known_line(out, i as u64, known[i])?;
    }
    Ok(())
}

/// The lines of a drill: the chain, and what each client knows.
#[tactic(auto, unfolding(crate::specs::Texts::drill_text))]
pub(crate) fn push_drill(
    out: &mut Vec<u8>,
    genesis: &Name,
    entries: &[Entry],
    known: &[u32],
) -> Result<(), NoMemory>
    ensures { OnOk result (out.new.items ≡ out.old.items ++ drill_text genesis.now.0 entries.now known.now) }
{
    push_audit(out, genesis, entries)?;
    push_known(out, known)
}

/// The lines of a tree.
#[tactic(auto, unfolding(crate::specs::Texts::hash_text))]
pub(crate) fn push_hash(
    out: &mut Vec<u8>,
    files: u32,
    objects: u64,
    root: &Name,
) -> Result<(), NoMemory>
    ensures { OnOk result (out.new.items ≡ out.old.items ++ hash_text files objects root.now.0) }
{
    push_text(out, b"files ")?;
    push_number(out, u64::from(files))?;
    push_text(out, b"\nobjects ")?;
    push_number(out, objects)?;
    push_text(out, b"\nroot ")?;
    push_name(out, &root.0)?;
    push_text(out, b"\n")
}

#[tactic(auto, unfolding(crate::specs::Texts::rival_line))]
fn push_rival(out: &mut Vec<u8>, rival: &Rival) -> Result<(), NoMemory>
    ensures { OnOk result (out.new.items ≡ out.old.items ++ rival_line rival.now) }
{
    push_text(out, b"service ")?;
    push_number(out, u64::from(rival.service.0))?;
    push_text(out, b" round ")?;
    push_number(out, u64::from(rival.top.round))?;
    push_text(out, b" client ")?;
    push_number(out, u64::from(rival.top.client.0))?;
    push_text(out, b"\n")
}

fn push_rivals(out: &mut Vec<u8>, rivals: &[Rival]) -> Result<(), NoMemory>
    ensures { OnOk result (out.new.items ≡ out.old.items ++ rival_lines rivals.now) }
{
    for i in 0..rivals.len() {
        push_rival(out, &rivals[i])?;
    }
    Ok(())
}

fn push_contended(out: &mut Vec<u8>, rivals: &[Rival]) -> Result<(), NoMemory>
    ensures { OnOk result (out.new.items ≡ out.old.items ++ (codes "contended\n" ++ rival_lines rivals.now)) }
{
    push_text(out, b"contended\n")?;
    push_rivals(out, rivals)
}

#[tactic(auto, unfolding(crate::specs::Texts::reason_word))]
fn push_reason(out: &mut Vec<u8>, reason: &Reason) -> Result<(), NoMemory>
    ensures { OnOk result (out.new.items ≡ out.old.items ++ reason_word reason.now) }
{
    match reason {
        Reason::Failed => push_text(out, b"failed"),
        Reason::Absent => push_text(out, b"absent"),
        Reason::Altered { found } => {
            push_text(out, b"altered ")?;
            push_name(out, &found.0)
        }
    }
}

#[tactic(auto, unfolding(crate::specs::Texts::reason_line))]
fn push_reason_row(out: &mut Vec<u8>, row: &ReasonRow) -> Result<(), NoMemory>
    ensures { OnOk result (out.new.items ≡ out.old.items ++ reason_line row.now) }
{
    push_text(out, b"service ")?;
    push_number(out, u64::from(row.service.0))?;
    push_text(out, b" ")?;
    push_reason(out, &row.reason)?;
    push_text(out, b"\n")
}

fn push_reasons(out: &mut Vec<u8>, rows: &[ReasonRow]) -> Result<(), NoMemory>
    ensures { OnOk result (out.new.items ≡ out.old.items ++ reason_lines rows.now) }
{
    for i in 0..rows.len() {
        push_reason_row(out, &rows[i])?;
    }
    Ok(())
}

#[tactic(auto, unfolding(crate::specs::Texts::lost_lines))]
fn push_lost(out: &mut Vec<u8>, name: &Name, rows: &[ReasonRow]) -> Result<(), NoMemory>
    ensures { OnOk result (out.new.items ≡ out.old.items ++ lost_lines name.now rows.now) }
{
    push_text(out, b"lost ")?;
    push_name(out, &name.0)?;
    push_text(out, b"\n")?;
    push_reasons(out, rows)
}

/// The lines of a refusal.
pub(crate) fn push_refusal(out: &mut Vec<u8>, refusal: &Refusal) -> Result<(), NoMemory>
    ensures { OnOk result (out.new.items ≡ out.old.items ++ refusal_text refusal.now) }
{
    match refusal {
        Refusal::Contended { rivals } => push_contended(out, rivals.as_slice()),
        Refusal::LostObject { name, reasons } => push_lost(out, name, reasons.as_slice()),
        _ => push_one_line(out, refusal),
    }
}

/// The line of a refusal that has no more.
fn push_one_line(out: &mut Vec<u8>, refusal: &Refusal) -> Result<(), NoMemory>
    requires { HasManyLines refusal.now → ⊥ }
    ensures { OnOk result (out.new.items ≡ out.old.items ++ refusal_text refusal.now) }
{
    match refusal_line(refusal) {
        Some(line) => push_text(out, line.as_bytes()),
        None => unreachable!(),
    }
}
