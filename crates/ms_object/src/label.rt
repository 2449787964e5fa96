//! Labels: the parts of paths.

ghost use Rattle.std.specs.Prelude.{◌≡◌, ◌↔◌, IsTrue};
ghost use Rattle.ms_object.specs.Labels.{IsLabel, has_separator as separated, is_dots as dots, is_label as passes};
ghost use Rattle.std.specs.Str.{is_utf8};

use ms_base::limits::PART_BYTES;

/// The greatest number of bytes.
const MOST_LABEL: usize = PART_BYTES as usize;

/// Whether the bytes may be a part of a path: UTF-8 of 1 to 200 bytes, neither `.` nor `..`, without `/` and NUL.
#[tactic(auto, unfolding(crate::specs::Labels::is_label))]
pub fn is_label(label: &[u8]) -> bool
    ensures exact { IsTrue result ↔ IsLabel label.now }
    ensures test { result ≡ passes label.now }
{
    is_text(label)
        && !label.is_empty()
        && label.len() <= MOST_LABEL
        && !is_dots(label)
        && !has_separator(label)
}

fn is_text(label: &[u8]) -> bool
    ensures { result ≡ is_utf8 label.now }
{
    str::from_utf8(label).is_ok()
}

/// Whether this is `.` or `..`.
fn is_dots(label: &[u8]) -> bool
    ensures { result ≡ dots label.now }
{
    label == b".".as_slice() || label == b"..".as_slice()
}

/// Whether there is a `/` or a NUL.
fn has_separator(label: &[u8]) -> bool
    ensures { result ≡ separated label.now }
{
    label.contains(&b'/') || label.contains(&0)
}
