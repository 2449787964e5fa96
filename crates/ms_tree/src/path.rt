//! Paths: the parts between their slashes.

ghost use Rattle.std.specs.Prelude.{◌≡◌, ℕ, List, true, length, IsTrue, All, ◌↔◌};
ghost use Rattle.ms_tree.specs.Paths.{parts_of, long_part, is_part, is_path, is_directory_of, IsPart, IsPath, IsDirectoryOf};

use ms_base::limits::PART_BYTES;

/// Whether the bytes may stand between two slashes.
fn is_part(part: &[u8]) -> bool
    ensures { result ≡ is_part part.now }
{
    !part.is_empty() && part != b".".as_slice() && part != b"..".as_slice() && !part.contains(&0)
}

/// Whether the text is a path: `docs/FORMATS.md`, paths.
pub fn is_path(path: &str) -> bool
    ensures { result ≡ is_path path.now }
{
    path.as_bytes()
        .split(|byte| *byte == b'/')
        .all(|part| is_part(part))
}

/// How many parts a path has.
pub fn levels(path: &str) -> u64
    ensures { result ≡ length (parts_of path.now) }
{
    path.as_bytes().split(|byte| *byte == b'/').count() as u64
}

/// The length of the first part that is too long, or 0.
pub fn long_part(path: &str) -> u64
    ensures { result ≡ long_part (parts_of path.now) }
{
    let mut parts = path.as_bytes().split(|byte| *byte == b'/');
    match parts.find(|part| part.len() as u64 > PART_BYTES) {
        Some(part) => part.len() as u64,
        None => 0,
    }
}

/// The tests decide the rules.
pub fn path_laws()
    ensures part { (part : List ℕ) → IsTrue (is_part part) ↔ IsPart part }
    ensures path { (path : List ℕ) → IsTrue (is_path path) ↔ IsPath path }
    ensures directory { (dir path : List ℕ) → IsTrue (is_directory_of dir path) ↔ IsDirectoryOf dir path }
{}
