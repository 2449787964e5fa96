//! Texts that are not what was put.

ghost use Rattle.std.specs.Prelude.{◌≡◌, IfOk};
ghost use Rattle.ms_fault.specs.Faults.{IsAltered};

use ms_base::{Bytes, NoMemory};

/// The text with the lowest bit of its last byte flipped; one zero byte for an empty text.
pub(crate) fn altered(text: Bytes) -> Result<Bytes, NoMemory>
    ensures { IfOk result (λ other. IsAltered text other) }
{
    let mut bytes = text.into_vec();
    let last = match bytes.pop() {
        Some(last) => last ^ 1,
        None => 0,
    };
    bytes.push(last)?;
    Ok(Bytes::from_vec(bytes))
}
