//! Trees are put together of the rows of their directories.

ghost use Rattle.std.specs.Prelude.{◌≡◌, ◌↔◌, ℕ, List, ◌∷◌, ◌++◌, Contains, Ok};
ghost use Rattle.ms_base.specs.declared.names.Name.{Name};
ghost use Rattle.ms_object.specs.declared.format.Format.{Format};
ghost use Rattle.ms_object.specs.declared.object.Kind.TheVariants as kinds;
ghost use Rattle.ms_object.specs.declared.object.SizedRow.{SizedRow};
ghost use Rattle.ms_object.specs.Objects.{IsSizedDir};
ghost use Rattle.ms_object.specs.Trees.{Texts, file_named, walk};
ghost use Rattle.ms_tree.specs.Composing.{AgreeOn, HasChildren, HasTree, IsRoot, RowGives, TreeHas};

/// A tree has exactly what the rows of its root give: a file at its label, and a directory's own tree with the label and a
/// slash before each path. Of format 1 and 2, and in any store.
pub fn trees_compose()
    ensures rows { (store : Texts) (root : Name) (format : Format) (rows : List SizedRow) (path bytes : List ℕ) → IsRoot store root format rows → HasTree store root
        → TreeHas store root path bytes ↔ ((row : SizedRow) × Contains rows row × RowGives format store row path bytes) }
    // What stands below a directory's row is a tree of its own.
    ensures trees { (store : Texts) (root : Name) (format : Format) (rows : List SizedRow) (row : SizedRow) → IsRoot store root format rows → HasTree store root
        → Contains rows row → row.kind ≡ kinds.Dir → HasTree store row.name }
    // No other row gives anything to the label of one, or below it.
    ensures below { (store : Texts) (root : Name) (format : Format) (rows : List SizedRow) (row : SizedRow) (path bytes : List ℕ) → IsRoot store root format rows → IsSizedDir rows → HasTree store root
        → Contains rows row → row.kind ≡ kinds.Dir → TreeHas store root (row.label ++ 47 ∷ path) bytes ↔ TreeHas store row.name path bytes }
    ensures file { (store : Texts) (root : Name) (format : Format) (rows : List SizedRow) (row : SizedRow) (bytes : List ℕ) → IsRoot store root format rows → IsSizedDir rows → HasTree store root
        → Contains rows row → row.kind ≡ kinds.File → TreeHas store root row.label bytes ↔ (file_named format store row.name ≡ Ok bytes) }
{}

/// A walk looks at nothing but its root and what is named below it: two stores that have the same there have one walk.
pub fn same_walks()
    ensures { (one other : Texts) (root : Name) (names : List Name) → Contains names root → AgreeOn one other names → HasChildren one names → walk one root ≡ walk other root }
{}
