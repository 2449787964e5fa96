//! The five kinds of atomic step.

use crate::view::View;
use atomic_table::{Join, Play, Split};
use std::marker::{Brand, PhantomData};

/// The item that a tell adds. Each call picks it.
pub(crate) trait Says<E> {
    ghost use Rattle.std.specs.Prelude.{Option};

    ghost item: { Option E };
}

impl<E> Says<E> for Brand {
    ghost use Rattle.std.specs.Prelude.{None};

    ghost item = { None };
}

/// The first view gives one owned word to a new view.
pub(crate) struct Hand;

impl<E> Split<View<E>> for Hand {
    ghost use Rattle.ms_ken.specs.Rule.{others_of, first_of};

    ghost left = { others_of };

    ghost right = { first_of };
}

/// One item more at the end of an owned list.
pub(crate) struct Tell<T> {
    says: PhantomData<T>,
}

impl<E, T: Says<E>> Play<u8, View<E>> for Tell<T> {
    ghost use Rattle.ms_ken.specs.Rule.{Tells};

    ghost then = { Tells T.item };
}

/// A new view that is a copy and owns no word.
pub(crate) struct Note;

impl<E> Split<View<E>> for Note {
    ghost use Rattle.ms_ken.specs.Rule.{note_of};

    ghost left = { λ v. v };

    ghost right = { note_of };
}

/// The longer lists, with both old views kept.
pub(crate) struct Take;

impl<E> Join<View<E>> for Take {
    ghost use Rattle.ms_ken.specs.Rule.{taken, spent};

    ghost both = { taken };

    ghost spent = { spent };
}

/// The old views are given up, and were prefixes.
pub(crate) struct Settle;

impl<E> Play<u8, View<E>> for Settle {
    ghost use Rattle.ms_ken.specs.Rule.{Settles};

    ghost then = { Settles };
}
