//! Fields at the front of a text, and their writers: numbers are big-endian.

ghost use Rattle.std.specs.Prelude.{◌≡◌, ◌++◌, ◌∷◌, [], length, OnOk, OnErr};
ghost use Rattle.std.specs.Int.{w32, w64, to_be_bytes};
ghost use Rattle.std.specs.Option.{option_map};
ghost use Rattle.ms_base.specs.FieldLaws.{FieldsRead, FieldsSpelled};
ghost use Rattle.ms_base.specs.Fields.{Grows, byte_at, bytes_at, client_at, name_at, number_at, number_within};

use crate::bytes::NoMemory;
use crate::limits::CLIENTS;
use crate::names::{ClientId, Name};

/// A field, and the bytes after it.
pub type Field<'a, T> = Option<(T, &'a [u8])>;

pub fn read_u8(text: &[u8]) -> Field<'_, u8>
    ensures { option_map (λ x. (x.0, x.1.now)) result ≡ byte_at text.now }
{
    match text {
        [] => None,
        [first, rest @ ..] => Some((*first, rest)),
    }
}

pub fn read_u32(text: &[u8]) -> Field<'_, u32>
    ensures { option_map (λ x. (x.0, x.1.now)) result ≡ number_at w32 text.now }
{
    let (front, rest) = text.split_first_chunk::<4>()?;
    Some((u32::from_be_bytes(*front), rest))
}

pub fn read_u64(text: &[u8]) -> Field<'_, u64>
    ensures { option_map (λ x. (x.0, x.1.now)) result ≡ number_at w64 text.now }
{
    let (front, rest) = text.split_first_chunk::<8>()?;
    Some((u64::from_be_bytes(*front), rest))
}

/// A number of four bytes, from `low` to `high`.
pub fn read_within(low: u32, high: u32, text: &[u8]) -> Field<'_, u32>
    ensures { option_map (λ x. (x.0, x.1.now)) result ≡ number_within low high text.now }
{
    let (number, rest) = read_u32(text)?;
    if number < low || number > high {
        return None;
    }
    Some((number, rest))
}

pub fn read_name(text: &[u8]) -> Field<'_, Name>
    ensures { option_map (λ x. (x.0, x.1.now)) result ≡ name_at text.now }
{
    let (front, rest) = text.split_first_chunk::<32>()?;
    Some((Name(*front), rest))
}

/// The number of a client, below 16, in four bytes.
#[tactic(auto, unfolding(crate::specs::Fields::client_at))]
pub fn read_client(text: &[u8]) -> Field<'_, ClientId>
    ensures { option_map (λ x. (x.0, x.1.now)) result ≡ client_at text.now }
{
    let (client, rest) = read_within(0, CLIENTS - 1, text)?;
    Some((ClientId(client), rest))
}

/// So many bytes.
pub fn read_bytes(count: u8, text: &[u8]) -> Field<'_, &[u8]>
    ensures { option_map (λ x. (x.0.now, x.1.now)) result ≡ bytes_at count text.now }
{
    let count = usize::from(count);
    if text.len() < count {
        return None;
    }
    Some((&text[..count], &text[count..]))
}

pub fn push_u8(out: &mut Vec<u8>, byte: u8) -> Result<(), NoMemory>
    ensures ok { OnOk result (out.new.items ≡ out.old.items ++ byte ∷ []) }
    ensures err { OnErr result (out.new.items ≡ out.old.items) }
    ensures grows { Grows out.old.items out.new.items }
{
    out.push(byte)?;
    Ok(())
}

pub fn push_bytes(out: &mut Vec<u8>, bytes: &[u8]) -> Result<(), NoMemory>
    ensures ok { OnOk result (out.new.items ≡ out.old.items ++ bytes.now) }
    ensures err { OnErr result (out.new.items ≡ out.old.items) }
    ensures grows { Grows out.old.items out.new.items }
{
    out.extend_from_slice(bytes)?;
    Ok(())
}

pub fn push_u32(out: &mut Vec<u8>, number: u32) -> Result<(), NoMemory>
    ensures ok { OnOk result (out.new.items ≡ out.old.items ++ to_be_bytes w32 number) }
    ensures err { OnErr result (out.new.items ≡ out.old.items) }
    ensures grows { Grows out.old.items out.new.items }
{
    push_bytes(out, &number.to_be_bytes())
}

pub fn push_u64(out: &mut Vec<u8>, number: u64) -> Result<(), NoMemory>
    ensures ok { OnOk result (out.new.items ≡ out.old.items ++ to_be_bytes w64 number) }
    ensures err { OnErr result (out.new.items ≡ out.old.items) }
    ensures grows { Grows out.old.items out.new.items }
{
    push_bytes(out, &number.to_be_bytes())
}

/// Puts the 32 bytes of a name at the end.
pub fn push_name(out: &mut Vec<u8>, name: &Name) -> Result<(), NoMemory>
    ensures ok { OnOk result (out.new.items ≡ out.old.items ++ name.now.0) }
    ensures err { OnErr result (out.new.items ≡ out.old.items) }
    ensures grows { Grows out.old.items out.new.items }
    ensures name { length name.now.0 ≡ 32 }
{
    push_bytes(out, &name.0)
}

/// A law: what the readers find is spelled at the front of the text.
#[tactic(auto, using(crate::proofs::FieldLaws::fields_spelled))]
pub fn fields_are_spelled()
    ensures { FieldsSpelled }
{}

/// A law: the readers find what is spelled at the front of the text.
#[tactic(auto, using(crate::proofs::FieldLaws::fields_read))]
pub fn spelled_fields_are_read()
    ensures { FieldsRead }
{}
