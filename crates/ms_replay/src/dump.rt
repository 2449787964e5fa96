//! Dumps of vote lists.

ghost use Rattle.std.specs.Prelude.{◌≡◌, ◌<◌, ◌≤◌, ◌^◌, ◌-◌, ℕ, length, vec_len, replicate, [], None, Some, Err, IfOk, IfSome, OnOk};
ghost use Rattle.std.specs.Option.{option_map};
ghost use Rattle.ms_record.specs.declared.refusal.Refusal.TheVariants as refusals;
ghost use Rattle.ms_record.specs.declared.refusal.Place.TheVariants as places;
ghost use Rattle.ms_text.specs.Lines.{lines_of, read_lines};
ghost use Rattle.ms_text.specs.Firsts.{IsFirstWrong};
ghost use Rattle.ms_replay.specs.Dumps.{head_at, row_at, push_at, dump_at, dump_line, whole, dump_of, ReadsDump};

use ms_base::limits::{GREATEST_NUMBER, SERVICES};
use ms_base::{Bytes, Items, Name, NoMemory};
use ms_record::{Place, Refusal, wrong_line};
use ms_text::{bytes, first_wrong_lines, name, next_line, number, split_at_space};
use std::alloc::Global;

/// The vote list of each service.
pub type Lists = Items<Items<Bytes>>;

/// The vote lists of all services, and the name of the genesis.
#[derive(Drop)]
pub struct Dump {
    pub services: u32,
    pub genesis: Name,
    pub lists: Lists,
}

/// How many services, and the name of the genesis.
#[tactic(auto, unfolding(crate::specs::Dumps::head_at))]
fn head(line: &[u8]) -> Option<(u32, Name)>
    ensures is { option_map (λ h. (h.0, h.1.0)) result ≡ head_at line.now }
    ensures few { IfSome result (λ h. (1 ≤ h.0) × (h.0 ≤ 16)) }
{
    let (first, rest) = split_at_space(line)?;
    let (second, rest) = split_at_space(rest)?;
    let (third, fourth) = split_at_space(rest)?;
    let services = number(third, u64::from(SERVICES))?;
    let genesis = name(fourth)?;
    if first == b"metasync-dump".as_slice() && second == b"1".as_slice() && services >= 1 {
        Some((services as u32, Name(genesis)))
    } else {
        None
    }
}

/// A service and the next text of its list.
#[tactic(auto, unfolding(crate::specs::Dumps::row_at))]
fn row(alloc: Global, services: u32, line: &[u8]) -> Result<Option<(u32, Bytes)>, NoMemory>
    ensures is { IfOk result (λ o. option_map (λ r. (r.0, r.1)) o ≡ row_at services line.now) }
    ensures within { IfOk result (λ o. IfSome o (λ r. r.0 < services)) }
{
    let (first, second) = match split_at_space(line) {
        Some(words) => words,
        None => return Ok(None),
    };
    let service = match number(first, GREATEST_NUMBER) {
        Some(service) => service,
        None => return Ok(None),
    };
    match bytes(alloc, second)? {
        Some(text) => {
            if service < u64::from(services) {
                Ok(Some((service as u32, Bytes::from_vec(text))))
            } else {
                Ok(None)
            }
        }
        None => Ok(None),
    }
}

/// So many empty lists.
fn empty_lists(alloc: Global, services: u32) -> Result<Vec<Items<Bytes>>, NoMemory>
    ensures empty { IfOk result (λ v. v.items ≡ replicate services []) }
    ensures count { IfOk result (λ v. vec_len v ≡ services) }
{
    let mut lists = Vec::new(alloc);
    for _ in 0..services {
        lists.push(Items::new(alloc))?;
    }
    Ok(lists)
}

/// The list of a service goes on by a text.
fn push_row(lists: &mut Vec<Items<Bytes>>, service: usize, text: Bytes) -> Result<(), NoMemory>
    requires { service < vec_len lists.old }
    ensures pushed { OnOk result (lists.new.items ≡ push_at lists.old.items service text) }
    ensures same { vec_len lists.new ≡ vec_len lists.old }
{
    let list = &mut lists[service];
    list.push(text)
}

/// The dump that the text spells: `docs/FORMATS.md`, dump.
pub fn read_dump(alloc: Global, text: &[u8]) -> Result<Dump, Refusal>
    requires { length text.now < 2 ^ 32 - 2 }
    ensures exact { ReadsDump (dump_at text.now) result }
    ensures first { (line : ℕ) → result ≡ Err (refusals.BadInput places.Input line) → IsFirstWrong dump_line whole None (lines_of text.now) line }
    ensures lists { IfOk result (λ d. (length d.lists ≡ d.services) × (1 ≤ d.services) × (d.services ≤ 16)) }
{
    first_wrong_lines::<Option<Dump>, Dump>();
    read_whole(alloc, text)
}

/// As `read_dump`.
#[tactic(auto, using(crate::proofs::DumpSpelling::head_is_right))]
fn read_whole(alloc: Global, text: &[u8]) -> Result<Dump, Refusal>
    requires { length text.now < 2 ^ 32 - 2 }
    ensures exact { ReadsDump (dump_at text.now) result }
    ensures lists { IfOk result (λ d. (length d.lists ≡ d.services) × (1 ≤ d.services) × (d.services ≤ 16)) }
{
    if text.is_empty() {
        return Err(wrong_line(Place::Input, 1));
    }
    let (first, rest) = next_line(text);
    let (services, genesis) = match head(first) {
        Some(head) => head,
        None => return Err(wrong_line(Place::Input, 1)),
    };
    let lists = empty_lists(alloc, services)?;
    read_rows(alloc, services, genesis, lists, rest)
}

/// The rows behind the head.
#[tactic(auto, using(crate::proofs::DumpSpelling::not_first))]
fn read_rows(
    alloc: Global,
    services: u32,
    genesis: Name,
    mut lists: Vec<Items<Bytes>>,
    text: &[u8],
) -> Result<Dump, Refusal>
    requires lists { vec_len lists ≡ services }
    requires short { length text.now < 2 ^ 32 - 2 }
    ensures exact { ReadsDump
        (read_lines dump_line whole 2 (Some (dump_of services genesis lists.items)) (lines_of text.now)) result }
    ensures lists { IfOk result (λ d. (length d.lists ≡ services) × (d.services ≡ services)) }
{
    let mut rest = text;
    let mut line = 2;
    while !rest.is_empty() {
        let (first, after) = next_line(rest);
        match row(alloc, services, first)? {
            Some((service, text)) => {
                push_row(&mut lists, service as usize, text)?;
            }
            None => return Err(wrong_line(Place::Input, line)),
        }
        rest = after;
        line += 1;
    }
    Ok(Dump {
        services,
        genesis,
        lists: Items::from_vec(lists),
    })
}
