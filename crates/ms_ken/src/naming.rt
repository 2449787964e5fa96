//! Which board it is.

use std::marker::Brand;

/// One board, which contracts alone see: so a type can say of which board its passes are. The caller
/// that makes the board picks it, at `Brand`.
pub trait Naming {
    ghost use Rattle.ms_ken.specs.Known.{TableId};

    ghost board: { TableId };
}

impl Naming for Brand {
    ghost use Rattle.ms_ken.specs.Known.{no_board};

    ghost board = { no_board };
}
