//! The limits that merged files may pass.

ghost use Rattle.std.specs.Prelude.{◌≤◌, length, map, All, MatchOption};
ghost use Rattle.std.specs.Map.{keys_of};
ghost use Rattle.ms_tree.specs.Paths.{parts_of, long_part};
ghost use Rattle.ms_tree.specs.Merging.{IsFirstLong};
ghost use Rattle.ms_tree.specs.DraftFiles.{drafted};
ghost use Rattle.ms_base.specs.declared.limits.TheConstants.{FILE_2_BYTES};
ghost use Rattle.ms_merge.specs.Passing.{FitsTotal, FitsNames, Fits};

use ms_base::Quantity;
use ms_base::limits::{FILES, PART_BYTES, PATH_BYTES, TOTAL_BYTES};
use ms_record::Refusal;
use ms_tree::{DraftFile, FileRef, long_part};

/// The first limit that the files pass, or the names that were given.
pub fn check(rows: &[FileRef], names: &[DraftFile]) -> Result<(), Refusal>
    requires { All (λ row. length row.text.now ≤ FILE_2_BYTES) rows.now }
    ensures { Fits (map (λ r. (r.path.now, r.text.now)) rows.now) (keys_of (map drafted names.now)) result }
{
    if rows.len() as u64 > FILES {
        return Err(Refusal::Limit {
            what: Quantity::Files,
            value: FILES + 1,
        });
    }
    check_total(rows)?;
    check_names(names)
}

/// The limit on the bytes of all files, which are added up in rising order of the paths.
fn check_total(rows: &[FileRef]) -> Result<(), Refusal>
    requires { All (λ row. length row.text.now ≤ FILE_2_BYTES) rows.now }
    ensures { FitsTotal (map (λ r. (r.path.now, r.text.now)) rows.now) result }
{
    let mut total = 0;
    for row in rows {
        total += row.text.len() as u64;
        if total > TOTAL_BYTES {
            return Err(Refusal::Limit {
                what: Quantity::Total,
                value: total,
            });
        }
    }
    Ok(())
}

/// The limits on the names: that on their bytes, and then that on their parts.
fn check_names(names: &[DraftFile]) -> Result<(), Refusal>
    ensures { FitsNames (keys_of (map drafted names.now)) result }
{
    if let Some(value) = long_name(names) {
        return Err(Refusal::Limit {
            what: Quantity::Path,
            value,
        });
    }
    if let Some(value) = long_name_part(names) {
        return Err(Refusal::Limit {
            what: Quantity::Part,
            value,
        });
    }
    Ok(())
}

/// The bytes of the first name that is too long.
fn long_name(names: &[DraftFile]) -> Option<u64>
    ensures { MatchOption result (All (λ name. length name ≤ PATH_BYTES) (keys_of (map drafted names.now))) (IsFirstLong length PATH_BYTES (keys_of (map drafted names.now))) }
{
    for name in names {
        let bytes = name.path.as_str().len() as u64;
        if bytes > PATH_BYTES {
            return Some(bytes);
        }
    }
    None
}

/// The bytes of the first part that is too long, of the first name with such a part.
fn long_name_part(names: &[DraftFile]) -> Option<u64>
    ensures { MatchOption result (All (λ name. long_part (parts_of name) ≤ PART_BYTES) (keys_of (map drafted names.now)))
        (IsFirstLong (λ name. long_part (parts_of name)) PART_BYTES (keys_of (map drafted names.now))) }
{
    for name in names {
        let bytes = long_part(name.path.as_str());
        if bytes > PART_BYTES {
            return Some(bytes);
        }
    }
    None
}
