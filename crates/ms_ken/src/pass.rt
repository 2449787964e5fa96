//! A pass: what its holder knows.

ghost use Rattle.std.specs.Prelude.{◌≡◌, ◌<◌, length, IfSome};

use crate::closed::Closed;
use crate::steps::Place;
use std::marker::Model;

/// What its holder knows of each owner's list, and the right to tell on one word, if it owns one. It
/// may cross threads, has no bytes beside the word's number, and is not copied: `Board::note` makes
/// another.
#[derive(Drop)]
pub struct Pass<C: Closed> {
    pub(crate) seat: Place<C::Event>,
    pub(crate) word: Option<usize>,
}

impl<C: Closed> Model for Pass<C> {
    ghost use Rattle.ms_ken.specs.Known.{Known, known};
    ghost use Rattle.ms_ken.specs.Rest.{IsAtRest};

    ghost Value = { Known C.Event };

    ghost view = { λ p. known p.seat.table_id p.word p.seat.me.0.lists };

    ghost invariant = { λ p. IsAtRest p.word p.seat.table_id.words p.seat.me × C.closed p.seat.me.0.lists };
}

impl<C: Closed> Pass<C> {
    /// Recalls what is true of every pass. It does nothing.
    pub fn recall(&self)
        ensures closed { C.closed self.now.lists }
        ensures owners { length self.now.lists ≡ self.now.board.words }
        ensures word { IfSome self.now.word (λ k. k < self.now.board.words) }
    {
        let _ = &self.seat;
    }
}
