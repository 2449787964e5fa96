//! Judging a tree by the sizes that its files say, before their blobs are looked at.

ghost use Rattle.std.specs.Prelude.{◌≡◌, ℕ, List, map};
ghost use Rattle.ms_object.specs.declared.format.Format.{Format};
ghost use Rattle.ms_object.specs.declared.object.SizedRow.{SizedRow};
ghost use Rattle.ms_object.specs.Trees.{Met, Texts, first_fault, walk_rows};
ghost use Rattle.ms_tree.specs.Sizes.{AreWhole, first_excess, sizes_rows, weigh};

/// A walk over sizes meets what a walk over bytes does, where the blobs of each file have the bytes that it says, and has
/// the same first fault.
pub fn size_laws()
    ensures weighed { (format : Format) (left : ℕ) (store : Texts) (before : List ℕ) (rows : List SizedRow) → AreWhole format store
        → map weigh (walk_rows format left store before rows) ≡ sizes_rows format left store before rows }
    ensures judged { (count total : ℕ) (met : List Met) → first_fault count total met ≡ first_excess count total (map weigh met) }
{}
