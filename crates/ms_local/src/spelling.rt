//! Reading and writing the kept state: `docs/FORMATS.md`, the kept state.

ghost use Rattle.std.specs.Prelude.{◌≡◌, ◌∷◌, [], ◌++◌, ℕ, List, Some, length, OnErr, OnOk, IfSome};
ghost use Rattle.std.specs.Option.{option_map};
ghost use Rattle.ms_base.specs.Fields.{IsBytes};
ghost use Rattle.ms_local.specs.declared.kept.Kept.{Kept};
ghost use Rattle.ms_local.specs.States.{IsState, base_at, todo_at, todo_in, state_at, kept_at, base_text, todo_text, todo_part, numbers_text, kept_text};

use crate::kept::{Base, Kept, Todo};
use ms_base::NoMemory;
use ms_base::fields::{
    Field, fields_are_spelled, push_name, push_u8, push_u32, read_name, read_u8, read_within,
    spelled_fields_are_read,
};
use ms_base::limits::LAST_NUMBER;

#[tactic(auto, unfolding(crate::specs::States::base_at))]
fn read_base(text: &[u8]) -> Field<'_, Base>
    ensures { option_map (λ x. (x.0, x.1.now)) result ≡ base_at text.now }
{
    let (position, rest) = read_within(0, LAST_NUMBER, text)?;
    let (entry, rest) = read_name(rest)?;
    let (version, rest) = read_name(rest)?;
    let base = Base {
        position,
        entry,
        version,
    };
    Some((base, rest))
}

#[tactic(auto, unfolding(crate::specs::States::todo_at))]
fn read_todo(text: &[u8]) -> Field<'_, Todo>
    ensures { option_map (λ x. (x.0, x.1.now)) result ≡ todo_at text.now }
{
    let (target, rest) = read_base(text)?;
    let (before, rest) = read_name(rest)?;
    let (after, rest) = read_name(rest)?;
    let todo = Todo {
        target,
        before,
        after,
    };
    Some((todo, rest))
}

/// What follows the flag: nothing, or a todo.
#[tactic(auto, unfolding(crate::specs::States::todo_in))]
fn read_flagged(flag: u8, text: &[u8]) -> Option<Option<Todo>>
    ensures { result ≡ todo_in flag text.now }
{
    match flag {
        0 if text.is_empty() => Some(None),
        1 => match read_todo(text) {
            Some((todo, [])) => Some(Some(todo)),
            _ => None,
        },
        _ => None,
    }
}

/// The state without its tag.
#[tactic(auto, unfolding(crate::specs::States::state_at))]
fn read_state(text: &[u8]) -> Option<Kept>
    ensures { result ≡ state_at text.now }
{
    let (round, rest) = read_within(0, LAST_NUMBER, text)?;
    let (number, rest) = read_within(0, LAST_NUMBER, rest)?;
    let (base, rest) = read_base(rest)?;
    let (head, rest) = read_name(rest)?;
    let (flag, rest) = read_u8(rest)?;
    let todo = read_flagged(flag, rest)?;
    Some(Kept {
        round,
        number,
        base,
        head,
        todo,
    })
}

/// All of the text as a state.
#[tactic(auto, unfolding(crate::specs::States::kept_at))]
fn read_tagged(text: &[u8]) -> Option<Kept>
    ensures { result ≡ kept_at text.now }
{
    let (tag, rest) = read_u8(text)?;
    if tag != b'K' {
        return None;
    }
    read_state(rest)
}

/// The state that the text is: `docs/FORMATS.md`, the kept state.
pub fn parse_kept(text: &[u8]) -> Option<Kept>
    // What is read is spelled so.
    ensures found { IfSome result (λ kept. IsState kept × (text.now ≡ kept_text kept)) }
    // What is spelled so is read.
    ensures only { (kept : Kept) → IsState kept → text.now ≡ kept_text kept → result ≡ Some kept }
    ensures exact { result ≡ kept_at text.now }
{
    kept_laws();
    read_tagged(text)
}

fn push_base(out: &mut Vec<u8>, base: &Base) -> Result<(), NoMemory>
    ensures { OnOk result (out.new.items ≡ out.old.items ++ base_text base.now) }
{
    push_u32(out, base.position)?;
    push_name(out, &base.entry)?;
    push_name(out, &base.version)
}

fn push_todo(out: &mut Vec<u8>, todo: &Todo) -> Result<(), NoMemory>
    ensures { OnOk result (out.new.items ≡ out.old.items ++ todo_text todo.now) }
{
    push_base(out, &todo.target)?;
    push_name(out, &todo.before)?;
    push_name(out, &todo.after)
}

/// The flag, and the todo where there is one.
fn push_flagged(out: &mut Vec<u8>, kept: &Kept) -> Result<(), NoMemory>
    ensures { OnOk result (out.new.items ≡ out.old.items ++ todo_part kept.now.todo) }
{
    match &kept.todo {
        None => push_u8(out, 0),
        Some(todo) => {
            push_u8(out, 1)?;
            push_todo(out, todo)
        }
    }
}

/// The tag, the round and the number of a state.
fn push_numbers(out: &mut Vec<u8>, kept: &Kept) -> Result<(), NoMemory>
    ensures { OnOk result (out.new.items ≡ out.old.items ++ numbers_text kept.now) }
{
    push_u8(out, b'K')?;
    push_u32(out, kept.round)?;
    push_u32(out, kept.number)
}

/// The bytes of a state, put at the end of `out`.
fn push_state(out: &mut Vec<u8>, kept: &Kept) -> Result<(), NoMemory>
    ensures { OnOk result (out.new.items ≡ out.old.items ++ kept_text kept.now) }
{
    push_numbers(out, kept)?;
    push_base(out, &kept.base)?;
    push_name(out, &kept.head)?;
    push_flagged(out, kept)
}

/// Puts the bytes of a state at the end of `out`, or leaves what was there.
pub fn push_kept(out: &mut Vec<u8>, kept: &Kept) -> Result<(), NoMemory>
    ensures ok { OnOk result (out.new.items ≡ out.old.items ++ kept_text kept.now) }
    ensures err { OnErr result (out.new.items ≡ out.old.items) }
{
    let mut text = Vec::new(*out.allocator());
    push_state(&mut text, kept)?;
    out.extend_from_slice(&text)?;
    Ok(())
}

/// A state has one spelling, and that is read.
pub fn kept_laws()
    ensures read { (text : List ℕ) (kept : Kept) → IsBytes text → kept_at text ≡ Some kept → IsState kept × (text ≡ kept_text kept) }
    ensures again { (kept : Kept) → IsState kept → kept_at (kept_text kept) ≡ Some kept }
    // No two states share a text.
    ensures one_text { (kept other : Kept) → IsState kept → IsState other → kept_text kept ≡ kept_text other → kept ≡ other }
{
    fields_are_spelled();
    spelled_fields_are_read();
}
