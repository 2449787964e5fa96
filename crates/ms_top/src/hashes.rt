//! The command `hash`.

ghost use Rattle.std.specs.Prelude.{◌≡◌, ◌≤◌, length};
ghost use Rattle.ms_base.specs.declared.limits.TheConstants.{INPUT_BYTES};
ghost use Rattle.ms_top.specs.Hashes.{HashSays, FilesSay, MayLackTree};
ghost use Rattle.ms_top.specs.Steps.{OrLacks};

use ms_object::Format;
use ms_record::Refusal;
use ms_tree::{Files, PlantError, plant, read_listing};
use ms_words::Report;
use std::alloc::Global;

/// The answer on the text of a listing.
pub(crate) fn hash_text(alloc: Global, text: &[u8]) -> Result<Report, Refusal>
    requires { length text.now ≤ INPUT_BYTES }
    ensures { HashSays text.now result }
{
    match read_listing(alloc, text) {
        Ok(files) => on_files(alloc, &files),
        Err(refusal) => Err(refusal),
    }
}

/// The answer on files.
fn on_files(alloc: Global, files: &Files) -> Result<Report, Refusal>
    ensures { OrLacks result (MayLackTree files.now) (FilesSay files.now result) }
{
    match plant(alloc, files, Format::One) {
        Ok(planted) => Ok(Report::Hash {
            files: files.count(),
            objects: planted.objects.len(),
            root: planted.root,
        }),
        Err(PlantError::Limit { what, value }) => Err(Refusal::Limit { what, value }),
        Err(PlantError::NoMemory) => Err(Refusal::NoMemory),
    }
}
