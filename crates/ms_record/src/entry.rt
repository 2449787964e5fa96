//! Entries: what is agreed on at a position.

ghost use Rattle.std.specs.Prelude.{◌≡◌, ◌↔◌, ◌++◌, ℕ, List, Some, IsTrue, IfSome};
ghost use Rattle.std.specs.Int.{w32, w64, to_be_bytes};
ghost use Rattle.std.specs.List.{flat_map};
ghost use Rattle.ms_record.specs.declared.entry.Entry.{Entry};
ghost use Rattle.ms_record.specs.Chains.{GoesOn, LinksOn};
ghost use Rattle.ms_record.specs.Entries.{IsEntry, entry_text, name_of};
ghost use Rattle.ms_base.specs.Fields.{IsBytes};
ghost use Rattle.ms_record.specs.Plans.{plan_text, row_text};
ghost use Rattle.ms_record.specs.Reading.{entry_at};
ghost use Rattle.sha2.specs.Hashers.{Holds256};

use crate::plan::{LAST_FORMAT, Plan, PlanRow};
use crate::reading::read_entry;
use ms_base::fields::{fields_are_spelled, spelled_fields_are_read};
use ms_base::{ClientId, Items, Name};
use sha2::{Digest, Sha256};

/// A member of the chain: a version of the folder, and perhaps a plan from here on.
///
/// `before` is the name of the member before, `number` the client's own count.
/// Without a plan it is a push.
#[derive(Clone, Copy, Debug, PartialEq, Eq)]
pub struct Entry {
    pub before: Name,
    pub client: ClientId,
    pub number: u32,
    pub version: Name,
    pub plan: Option<Plan>,
}

/// A list of entries.
pub type Entries = Items<Entry>;

impl Entry {
    /// Whether the two are one entry.
    pub fn is_same(&self, other: &Entry) -> bool
        ensures { IsTrue result ↔ (self.now ≡ other.now) }
    {
        self == other
    }
}

/// The entry that the text is: `docs/FORMATS.md`, entries.
pub fn parse_entry(text: &[u8]) -> Option<Entry>
    // What is read is spelled so.
    ensures found { IfSome result (λ e. IsEntry e × (text.now ≡ entry_text e)) }
    // What is spelled so is read.
    ensures only { (e : Entry) → IsEntry e → text.now ≡ entry_text e → result ≡ Some e }
    ensures exact { result ≡ entry_at text.now }
{
    fields_are_spelled();
    spelled_fields_are_read();
    read_entry(text)
}

/// The name of an entry: the SHA-256 (FIPS 180-4) of its bytes.
pub fn entry_name(entry: &Entry) -> Name
    ensures { result.0 ≡ name_of entry.now }
{
    let tag = match entry.plan {
        None => b'U',
        Some(_) => b'L',
    };
    let mut hasher = Sha256::new();
    hasher.update(&[tag]);
    hasher.update(&entry.before.0);
    feed_u32(&mut hasher, entry.client.0);
    feed_u32(&mut hasher, entry.number);
    hasher.update(&entry.version.0);
    if let Some(plan) = &entry.plan {
        feed_plan(&mut hasher, plan);
    }
    Name(hasher.finalize())
}

/// Feeds the bytes of a plan.
fn feed_plan(hasher: &mut Sha256, plan: &Plan)
    ensures { (m : List ℕ) → Holds256 hasher.old m → Holds256 hasher.new (m ++ plan_text plan.now) }
{
    let rows = plan.rows();
    feed_u32(hasher, plan.generation());
    feed_u32(hasher, plan.format());
    feed_u32(hasher, plan.replicas());
    feed_u64(hasher, plan.unit());
    feed_u32(hasher, rows.len() as u32);
    feed_rows(hasher, rows);
}

/// Feeds the bytes of rows.
fn feed_rows(hasher: &mut Sha256, rows: &[PlanRow])
    ensures { (m : List ℕ) → Holds256 hasher.old m → Holds256 hasher.new (m ++ flat_map row_text rows.now) }
{
    for row in rows {
        feed_u32(hasher, row.service.0);
        feed_u64(hasher, row.capacity);
    }
}

fn feed_u32(hasher: &mut Sha256, number: u32)
    ensures { (m : List ℕ) → Holds256 hasher.old m → Holds256 hasher.new (m ++ to_be_bytes w32 number) }
{
    hasher.update(&number.to_be_bytes());
}

fn feed_u64(hasher: &mut Sha256, number: u64)
    ensures { (m : List ℕ) → Holds256 hasher.old m → Holds256 hasher.new (m ++ to_be_bytes w64 number) }
{
    hasher.update(&number.to_be_bytes());
}

/// Whether the entry names the member before, and its plan, where it has one, goes on from the generation and the
/// format in force with services below `services` alone.
pub fn links_on(before: &Name, generation: u32, format: u32, services: u32, entry: &Entry) -> bool
    ensures { IsTrue result ↔ LinksOn before.now.0 generation format services entry.now }
{
    if entry.before != *before {
        return false;
    }
    match &entry.plan {
        None => true,
        Some(plan) => goes_on(plan, generation, format, services),
    }
}

/// Whether a plan goes on from this generation and format, with services below `services` alone.
fn goes_on(plan: &Plan, generation: u32, format: u32, services: u32) -> bool
    ensures { IsTrue result ↔ GoesOn generation format services plan.now }
{
    plan.format() <= LAST_FORMAT
        && format <= plan.format()
        && generation <= plan.generation()
        && plan.rows().iter().all(|row| row.service.0 < services)
}

/// An entry has one spelling, and that is read.
pub fn one_spelling()
    ensures read { (text : List ℕ) (e : Entry) → IsBytes text → entry_at text ≡ Some e → IsEntry e × (text ≡ entry_text e) }
    ensures again { (e : Entry) → IsEntry e → entry_at (entry_text e) ≡ Some e }
{
    fields_are_spelled();
    spelled_fields_are_read();
}
