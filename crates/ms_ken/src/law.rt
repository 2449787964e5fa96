//! What the rule of the board says.

ghost use Rattle.std.specs.Prelude.{ℕ};
ghost use Rattle.atomic_table.specs.Table.{State};
ghost use Rattle.ms_ken.specs.declared.view.View.{View};
ghost use Rattle.ms_ken.specs.Rule.{IsRuled};

use crate::board_rule::BoardRule;
use crate::view::View;
use atomic_table::TableRule;

/// Between any two steps on a board of `n` owners any two views agree, and each word has one owner
/// at the most, whose list is the longest and is counted there. It does nothing.
pub fn rule<E>()
    ensures { (n : ℕ) (s : State ℕ (View E)) → ⟦<BoardRule as TableRule<u8, View<E>, usize>>⟧.holds n s → IsRuled n s }
{}
