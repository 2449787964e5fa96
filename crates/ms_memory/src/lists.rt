//! The append-only lists of a service.

ghost use Rattle.std.specs.Prelude.{◌≡◌, ◌≢◌, ◌++◌, ◌∷◌, [], ℕ, drop, IfOk, OnOk};
ghost use Rattle.ms_memory.specs.Shelves.{HasRoom, texts_at};

use ms_base::{Bytes, Items, NoMemory};
use ms_link::Texts;
use ms_record::ListId;
use std::alloc::Global;
use std::collections::BTreeMap;

/// The texts of each list, by its number. A list without texts may be missing.
#[derive(Drop)]
pub(crate) struct Lists {
    texts: BTreeMap<u32, Vec<Bytes>>,
}

impl Lists {
    /// Lists without texts.
    pub(crate) fn new(alloc: Global) -> Lists
        ensures { (number : ℕ) → texts_at result number ≡ [] }
    {
        Lists {
            texts: BTreeMap::new(alloc),
        }
    }

    /// Takes the memory for one text more.
    pub(crate) fn reserve(&mut self, alloc: Global, list: ListId) -> Result<(), NoMemory>
        ensures room { OnOk result (HasRoom self.new list.0) }
        ensures same { (number : ℕ) → texts_at self.new number ≡ texts_at self.old number }
    {
        let texts = self.texts.entry(list.0)?.or_insert(Vec::new(alloc));
        texts.reserve(1)?;
        Ok(())
    }

    /// Puts a text at the end of a list, without taking memory.
    pub(crate) fn push(&mut self, list: ListId, text: Bytes)
        requires { HasRoom self.old list.0 }
        ensures here { texts_at self.new list.0 ≡ texts_at self.old list.0 ++ text ∷ [] }
        ensures others { (number : ℕ) → number ≢ list.0 → texts_at self.new number ≡ texts_at self.old number }
    {
        if let Some(texts) = self.texts.get_mut(&list.0) {
            texts.push_reserved(text);
        }
    }

    /// Copies of a list's texts from a place on.
    pub(crate) fn texts(&self, alloc: Global, list: ListId, from: u64) -> Result<Texts, NoMemory>
        ensures { IfOk result (λ texts. texts ≡ drop from (texts_at self.now list.0)) }
    {
        let Some(texts) = self.texts.get(&list.0) else {
            return Ok(Items::new(alloc));
        };
        let from = (from as usize).min(texts.len());
        copies(alloc, &texts.as_slice()[from..])
    }
}

/// Copies of some texts, in order.
fn copies(alloc: Global, texts: &[Bytes]) -> Result<Texts, NoMemory>
    ensures { IfOk result (λ copies. copies ≡ texts.now) }
{
    let mut copies = Vec::with_capacity(alloc, texts.len())?;
    for text in texts {
        copies.push(Bytes::of(alloc, text.as_slice())?)?;
    }
    Ok(Items::from_vec(copies))
}
