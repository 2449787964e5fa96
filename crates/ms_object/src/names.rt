//! Names of texts.

ghost use Rattle.std.specs.Prelude.{◌≡◌};
ghost use Rattle.ms_object.specs.Objects.{name_of as sha_name, empty_version as version_of_nobody};

use ms_base::Name;
use sha2::{Digest, Sha256};

/// The name of a text: its SHA-256 (FIPS 180-4).
pub fn name_of(text: &[u8]) -> Name
    ensures { result.0 ≡ sha_name text.now }
{
    Name(Sha256::digest(text))
}

/// The name of the empty version: client 0, number 0, no parents, and the empty directory as its root
/// (`docs/FORMATS.md`).
#[tactic(auto, unfolding(crate::specs::Objects::empty_version))]
pub fn empty_version() -> Name
    ensures { result ≡ version_of_nobody }
{
    let root = name_of(b"D\0\0\0\0");
    let mut hasher = Sha256::new();
    hasher.update(b"V\0\0\0\0\0\0\0\0\0");
    hasher.update(&root.0);
    Name(hasher.finalize())
}
