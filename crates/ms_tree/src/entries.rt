//! Maps by paths: whether a path is a directory of one.

ghost use Rattle.std.specs.Prelude.{◌≡◌, IfOk, string_bytes};
ghost use Rattle.std.specs.List.{list_any};
ghost use Rattle.ms_tree.specs.Paths.{is_directory_of};

use ms_base::NoMemory;
use std::alloc::Global;
use std::collections::BTreeMap;

/// Whether the path is a directory of a key. In rising order the keys below it stand together.
pub fn is_above<V>(alloc: Global, map: &BTreeMap<String, V>, path: &str) -> Result<bool, NoMemory>
    ensures { IfOk result (λ b. b ≡ list_any (λ e. is_directory_of path.now (string_bytes e.0)) map.now.entries) }
{
    let mut front = String::from_str(alloc, path)?;
    front.push('/')?;
    match map.range(&front..).next() {
        Some((next, _)) => Ok(next.as_bytes().starts_with(front.as_bytes())),
        None => Ok(false),
    }
}
