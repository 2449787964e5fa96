//! What is true of all merges of files that keep all rules.

ghost use Rattle.std.specs.Prelude.{◌≡◌, ◌≢◌, ◌<◌, ◌≤◌, ◌-◌, ◌^◌, ℕ, List, length, Result, Err};
ghost use Rattle.ms_record.specs.declared.refusal.Refusal.{Refusal};
ghost use Rattle.ms_record.specs.declared.refusal.Refusal.TheVariants as refusals;
ghost use Rattle.ms_tree.specs.Files.{FileList};
ghost use Rattle.ms_tree.specs.Merging.{MayMerge, IsTagged, IsMerge, names_of, IsMergedAll, Merges};

use ms_tree::{file_laws, merge_laws, path_laws};

/// There is a merge of any files that keep all rules, whatever limits it passes: `docs/PROTOCOL.md`, merge. So there is an
/// answer of `merge` other than `NoMemory`, and only one. A merge gives at most 400,000 names, and each path has a first
/// free tagged name among the 2^32 - 1 that are tried.
pub fn merge_exists()
    ensures merge { (base ours theirs : FileList) (tag : List ℕ) → MayMerge base ours theirs tag → (files : FileList) × IsMerge base ours theirs tag files }
    ensures answer { (base ours theirs : FileList) (tag : List ℕ) → MayMerge base ours theirs tag → (answer : Result FileList Refusal) × (answer ≢ Err refusals.NoMemory) × Merges base ours theirs tag answer }
    ensures one_answer { (base ours theirs : FileList) (tag : List ℕ) (one other : Result FileList Refusal) → MayMerge base ours theirs tag → one ≢ Err refusals.NoMemory → other ≢ Err refusals.NoMemory
        → Merges base ours theirs tag one → Merges base ours theirs tag other → one ≡ other }
    ensures few { (base ours theirs : FileList) (tag : List ℕ) (files : FileList) → MayMerge base ours theirs tag → (merge : IsMerge base ours theirs tag files) → length (names_of merge) ≤ 400000 }
    ensures free { (base ours theirs : FileList) (tag : List ℕ) (given : List (List ℕ)) (path : List ℕ) → MayMerge base ours theirs tag → length given ≤ 2 ^ 31
        → (name : List ℕ) × (tagged : IsTagged base ours theirs tag given path name) × (tagged.number < 2 ^ 32 - 1) }
    ensures in_turn { (base ours : FileList) (ts : List FileList) (tag : List ℕ) (f g : FileList) → IsMergedAll base ours ts tag f → IsMergedAll base ours ts tag g → f ≡ g }
{
    path_laws();
    file_laws();
    merge_laws();
}
