//! Taking files apart by the first parts of their paths.

ghost use Rattle.std.specs.Prelude.{◌≡◌, ◌≤◌, ◌==◌, ℕ, map, length, drop, bytes_eq, position, IfOk};
ghost use Rattle.std.specs.List.{prefix_len};
ghost use Rattle.ms_object.specs.declared.format.Format.{Format};
ghost use Rattle.ms_tree.specs.Planting.{first_part};
ghost use Rattle.ms_tree.specs.Folders.{IsFolder, Reach, shown_from, shown_part, split_files};

use crate::files::FileRef;
use ms_base::NoMemory;
use std::alloc::Global;

/// A part, and the files whose paths go on with it.
#[derive(Drop)]
pub(crate) struct Part<'a> {
    pub(crate) label: &'a [u8],
    pub(crate) files: &'a [FileRef<'a>],
}

/// The files below a directory by the next parts of their paths, in the order of the parts. The
/// directory and its slash are the first `skip` bytes of each path.
pub(crate) fn split_parts<'a>(
    alloc: Global,
    files: &'a [FileRef<'a>],
    skip: usize,
) -> Result<Vec<Part<'a>>, NoMemory>
    requires { Reach skip files.now }
    ensures { (format : Format) (left : ℕ) → IsFolder format left (shown_from skip files.now)
        → IfOk result (λ parts. map (shown_part skip) parts.items ≡ split_files (shown_from skip files.now)) }
{
    let mut parts = Vec::new(alloc);
    let mut start = 0;
    while start < files.len() {
        let rest = &files[start..];
        let label = part_at(rest[0].path, skip);
        let count = run_length(rest, skip, label);
        parts.push(Part {
            label,
            files: &rest[..count],
        })?;
        start += count;
    }
    parts.sort_unstable_by(|one, other| one.label.cmp(other.label));
    Ok(parts)
}

/// The part of the path that begins behind its first `skip` bytes.
fn part_at(path: &str, skip: usize) -> &[u8]
    requires { skip ≤ length path.now }
    ensures { result.now ≡ first_part (drop skip path.now) }
{
    let rest = &path.as_bytes()[skip..];
    match slash_in(rest) {
        Some(end) => &rest[..end],
        None => rest,
    }
}

/// The place of the first slash.
fn slash_in(path: &[u8]) -> Option<usize>
    ensures { result ≡ position (λ b. b == 47) path.now }
{
    path.iter().position(|byte| *byte == b'/')
}

/// How many of the first files go on with this part.
fn run_length(files: &[FileRef<'_>], skip: usize, label: &[u8]) -> usize
    requires { Reach skip files.now }
    ensures { result ≡ prefix_len (λ file. bytes_eq (first_part file.0) label.now) (shown_from skip files.now) }
{
    for (count, file) in files.iter().enumerate() {
        if part_at(file.path, skip) != label {
            return count;
        }
    }
    files.len()
}
