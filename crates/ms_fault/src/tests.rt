use crate::altering::altered;
use ms_base::Bytes;
use std::alloc::Global;
use std::test::*;

/// Texts, and what `get` gives of them under `Alter`.
const TEXTS: [(&[u8], &[u8]); 2] = [(b"", b"\x00"), (b"D\x00\x00", b"D\x00\x01")];

fn alters(alloc: Global, text: &[u8], other: &[u8]) -> bool {
    let Ok(text) = Bytes::of(alloc, text) else {
        return false;
    };
    match altered(text) {
        Ok(found) => found.as_slice() == other,
        Err(_) => false,
    }
}

#[test]
fn the_last_bit_is_flipped(rt: HostRuntime) -> Result<(), Fail> {
    for (text, other) in TEXTS {
        assert!(&rt; alters(rt.alloc(), text, other));
    }
    Ok(())
}
