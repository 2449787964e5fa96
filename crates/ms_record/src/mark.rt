//! The marks of refs.

ghost use Rattle.std.specs.Prelude.{◌≡◌, ◌++◌, ◌≤◌, ℕ, List, Some, IfSome, OnOk, OnErr, length};
ghost use Rattle.std.specs.Option.{option_map};
ghost use Rattle.ms_base.specs.Fields.{IsBytes};
ghost use Rattle.ms_record.specs.declared.mark.RefMark.{RefMark};
ghost use Rattle.ms_record.specs.Marks.{IsMark, mark_at, mark_text, marked_at, tagged_mark_at};

use ms_base::fields::{
    Field, fields_are_spelled, push_name, push_u8, push_u32, read_name, read_u8, read_u32,
    read_within, spelled_fields_are_read,
};
use ms_base::limits::LAST_NUMBER;
use ms_base::{Name, NoMemory};

/// Which member of the chain a client's folder has as its base: its position, from 0 to 4,294,967,294, and the name of
/// its entry. `number` is the client's own count, any number of four bytes.
#[derive(Clone, Copy, Debug, PartialEq, Eq)]
pub struct RefMark {
    pub number: u32,
    pub position: u32,
    pub name: Name,
}

/// The mark that the text is: `docs/FORMATS.md`, ref marks.
pub fn parse_mark(text: &[u8]) -> Option<RefMark>
    // What is read is spelled so.
    ensures found { IfSome result (λ m. IsMark m × (text.now ≡ mark_text m)) }
    // What is spelled so is read.
    ensures only { (m : RefMark) → IsMark m → text.now ≡ mark_text m → result ≡ Some m }
    ensures exact { result ≡ mark_at text.now }
{
    fields_are_spelled();
    spelled_fields_are_read();
    read_mark(text)
}

/// Puts the bytes of a mark at the end of `out`.
pub fn write_mark(mark: &RefMark, out: &mut Vec<u8>) -> Result<(), NoMemory>
    ensures ok { OnOk result (out.new.items ≡ out.old.items ++ mark_text mark.now) }
    ensures err { OnErr result (out.new.items ≡ out.old.items) }
    // Of the grammar is each mark whose position is in its range.
    ensures ranges { mark.now.position ≤ LAST_NUMBER → IsMark mark.now }
{
    shows_mark(mark);
    let mut text = Vec::new(*out.allocator());
    push_mark(&mut text, mark)?;
    out.extend_from_slice(&text)?;
    Ok(())
}

/// All of the text as a mark.
#[tactic(auto, unfolding(crate::specs::Marks::mark_at))]
fn read_mark(text: &[u8]) -> Option<RefMark>
    ensures { result ≡ mark_at text.now }
{
    let (tag, rest) = read_u8(text)?;
    read_tagged(tag, rest)
}

#[tactic(auto, unfolding(crate::specs::Marks::tagged_mark_at))]
fn read_tagged(tag: u8, text: &[u8]) -> Option<RefMark>
    ensures { result ≡ tagged_mark_at tag text.now }
{
    if tag != b'R' {
        return None;
    }
    match read_marked(text) {
        Some((mark, [])) => Some(mark),
        _ => None,
    }
}

/// What stands behind the tag.
#[tactic(auto, unfolding(crate::specs::Marks::marked_at))]
fn read_marked(text: &[u8]) -> Field<'_, RefMark>
    ensures { option_map (λ x. (x.0, x.1.now)) result ≡ marked_at text.now }
{
    let (number, rest) = read_u32(text)?;
    let (position, rest) = read_within(0, LAST_NUMBER, rest)?;
    let (name, rest) = read_name(rest)?;
    let mark = RefMark {
        number,
        position,
        name,
    };
    Some((mark, rest))
}

fn push_mark(out: &mut Vec<u8>, mark: &RefMark) -> Result<(), NoMemory>
    ensures { OnOk result (out.new.items ≡ out.old.items ++ mark_text mark.now) }
{
    push_u8(out, b'R')?;
    push_u32(out, mark.number)?;
    push_u32(out, mark.position)?;
    push_name(out, &mark.name)
}

/// A name has 32 bytes.
fn shows_name(name: &Name)
    ensures { length name.now.0 ≡ 32 }
{
    let _bytes: &[u8] = &name.0;
}

/// A mark whose position is in its range is of the grammar.
fn shows_mark(mark: &RefMark)
    ensures { mark.now.position ≤ LAST_NUMBER → IsMark mark.now }
{
    shows_name(&mark.name);
    let _number = mark.number;
}

/// A mark has one spelling, and that is read.
pub fn one_spelling()
    ensures read { (text : List ℕ) (m : RefMark) → IsBytes text → mark_at text ≡ Some m → IsMark m × (text ≡ mark_text m) }
    ensures again { (m : RefMark) → IsMark m → mark_at (mark_text m) ≡ Some m }
{
    fields_are_spelled();
    spelled_fields_are_read();
}
