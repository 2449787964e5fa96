//! Labels of services and clients.

ghost use Rattle.std.specs.Prelude.{◌≡◌, ◌↔◌, IsTrue, IfOk, IsSome};
ghost use Rattle.std.specs.List.{list_all};
ghost use Rattle.ms_text.specs.Labels.{IsClientLabel, is_label, is_label_byte as may_stand, label_if};

use ms_base::NoMemory;
use ms_base::limits::CLIENT_LABEL_BYTES;
use std::alloc::Global;
use std::marker::Model;

/// Whether a service or a client may have this label: 1 to 24 of `a-z0-9_-`, the first not `-`.
///
/// It is another rule than that of the labels of directories.
#[tactic(auto, unfolding(crate::specs::Labels::is_label))]
pub fn is_client_label(text: &[u8]) -> bool
    ensures exact { IsTrue result ↔ IsClientLabel text.now }
    ensures test { result ≡ is_label text.now }
{
    !text.is_empty()
        && text.len() as u64 <= CLIENT_LABEL_BYTES
        && text[0] != b'-'
        && are_label_bytes(text)
}

fn are_label_bytes(text: &[u8]) -> bool
    ensures { result ≡ list_all may_stand text.now }
{
    text.iter().all(|byte| is_label_byte(*byte))
}

fn is_label_byte(byte: u8) -> bool
    ensures { result ≡ may_stand byte }
{
    byte.is_ascii_lowercase() || byte.is_ascii_digit() || byte == b'_' || byte == b'-'
}

/// The label of a service or a client.
#[derive(Debug, Drop)]
pub struct Label {
    text: String,
}

impl Model for Label {
    ghost use Rattle.std.specs.Prelude.{ℕ, List, string_bytes};

    ghost Value = { List ℕ };

    ghost view = { λ l. string_bytes l.text };

    ghost use Rattle.ms_text.specs.Labels.{IsClientLabel};

    ghost invariant = { λ l. IsClientLabel (string_bytes l.text) };
}

impl Label {
    /// The label that the text is, where it is one.
    pub fn of(alloc: Global, text: &str) -> Result<Option<Label>, NoMemory>
        ensures { IfOk result (λ o. o ≡ label_if text.now) }
    {
        if !is_client_label(text.as_bytes()) {
            return Ok(None);
        }
        let text = String::from_str(alloc, text)?;
        Ok(Some(Label { text }))
    }

    pub fn as_str(&self) -> &str
        ensures is { result.now ≡ self.now }
        ensures form { IsClientLabel self.now }
    {
        self.text.as_str()
    }
}
