//! The rule of the board.

use crate::view::View;
use atomic_table::TableRule;

/// The rule of a board with so many owners as its key says.
pub struct BoardRule;

impl<E> TableRule<u8, View<E>, usize> for BoardRule {
    ghost use Rattle.ms_ken.specs.Rule.{Keeps, fresh};

    ghost holds = { λ n. Keeps n };

    ghost first = { fresh };
}
