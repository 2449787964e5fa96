//! What a command answers, and how it is told.

ghost use Rattle.std.specs.Prelude.{◌≡◌, ◌++◌, OnOk, OnErr};
ghost use Rattle.ms_words.specs.Texts.{text_of, status_of};

use crate::lines::{push_audit, push_drill, push_hash, push_refusal};
use ms_base::{Items, Name, NoMemory};
use ms_record::{Entries, Refusal};

/// Last positions of clients, by number.
pub type Known = Items<u32>;

/// What a command answers: `docs/FORMATS.md`, reports.
#[derive(Drop)]
pub enum Report {
    /// The agreed chain: the name of its genesis, and the members behind it by position.
    Audit {
        genesis: Name,
        entries: Entries,
    },
    /// The chain of a drill, as of an audit, and the last position that each client knows, by number.
    Drill {
        genesis: Name,
        entries: Entries,
        known: Known,
    },
    /// The tree of a listing: how many files and different objects it has, and the name of its root.
    Hash {
        files: u32,
        objects: u64,
        root: Name,
    },
    Refused {
        refusal: Refusal,
    },
}

fn push_report(out: &mut Vec<u8>, report: &Report) -> Result<(), NoMemory>
    ensures { OnOk result (out.new.items ≡ out.old.items ++ text_of report.now) }
{
    match report {
        Report::Audit { genesis, entries } => push_audit(out, genesis, entries.as_slice()),
        Report::Drill {
            genesis,
            entries,
            known,
        } => push_drill(out, genesis, entries.as_slice(), known.as_slice()),
        Report::Hash {
            files,
            objects,
            root,
        } => push_hash(out, *files, *objects, root),
        Report::Refused { refusal } => push_refusal(out, refusal),
    }
}

/// Puts the lines of a report at the end of `out`.
pub fn print_report(report: &Report, out: &mut Vec<u8>) -> Result<(), NoMemory>
    ensures ok { OnOk result (out.new.items ≡ out.old.items ++ text_of report.now) }
    ensures err { OnErr result (out.new.items ≡ out.old.items) }
{
    let mut text = Vec::new(*out.allocator());
    push_report(&mut text, report)?;
    out.extend_from_slice(&text)?;
    Ok(())
}

fn refusal_status(refusal: &Refusal) -> u8
    ensures { result ≡ status_of (Report.Refused refusal.now) }
{
    match refusal {
        Refusal::Usage => 1,
        Refusal::BadInput { .. } => 2,
        Refusal::OutsideFault { .. } => 3,
        Refusal::NoMajority { .. } => 5,
        Refusal::Contended { .. } => 6,
        Refusal::LostObject { .. } => 7,
        Refusal::NoMemory => 8,
        Refusal::LocalDamaged { .. } => 9,
        Refusal::Split { .. } => 10,
        Refusal::Limit { .. } => 11,
        Refusal::Collected { .. } => 13,
        Refusal::TooFew { .. } => 14,
        Refusal::NotEnabled { .. } => 16,
        Refusal::Unlisted { .. } => 17,
        Refusal::Broken { .. } => 18,
    }
}

/// The status with which the program ends.
pub fn status(report: &Report) -> u8
    ensures { result ≡ status_of report.now }
{
    match report {
        Report::Audit { .. } => 0,
        Report::Drill { .. } => 0,
        Report::Hash { .. } => 0,
        Report::Refused { refusal } => refusal_status(refusal),
    }
}
