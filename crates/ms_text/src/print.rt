//! Texts that are put at the end of another.

ghost use Rattle.std.specs.Prelude.{◌≡◌, ◌++◌, OnOk, OnErr};
ghost use Rattle.std.specs.Fmt.{decimal};
ghost use Rattle.hex.specs.Hex.{encode_lower};

use ms_base::NoMemory;

/// A text.
pub fn push_text(out: &mut Vec<u8>, text: &[u8]) -> Result<(), NoMemory>
    ensures ok { OnOk result (out.new.items ≡ out.old.items ++ text.now) }
    ensures err { OnErr result (out.new.items ≡ out.old.items) }
{
    out.extend_from_slice(text)?;
    Ok(())
}

/// A number in decimal.
pub fn push_number(out: &mut Vec<u8>, n: u64) -> Result<(), NoMemory>
    ensures ok { OnOk result (out.new.items ≡ out.old.items ++ decimal n) }
    ensures err { OnErr result (out.new.items ≡ out.old.items) }
{
    let text = n.to_string(*out.allocator())?;
    push_text(out, text.as_bytes())
}

/// A name in small hexadecimal digits.
pub fn push_name(out: &mut Vec<u8>, name: &[u8; 32]) -> Result<(), NoMemory>
    ensures ok { OnOk result (out.new.items ≡ out.old.items ++ encode_lower name.now) }
    ensures err { OnErr result (out.new.items ≡ out.old.items) }
{
    let text = hex::encode(*out.allocator(), name)?;
    push_text(out, text.as_bytes())
}
