//! The steps of a seat, which know nothing of what is closed.

ghost use Rattle.std.specs.Prelude.{◌≡◌, ◌<◌, [], length, Some, None};
ghost use Rattle.ms_ken.specs.Lists.{with_item, longer_lists};
ghost use Rattle.ms_ken.specs.Rule.{settled, Owns, Spans, old_views, others_of, first_of, note_of};

use crate::board_rule::BoardRule;
use crate::kinds::{Hand, Note, Says, Settle, Take, Tell};
use crate::view::View;
use atomic_table::{Seat, Shared};
use std::marker::Brand;

/// The words of a board.
pub(crate) type Words<E> = Shared<u8, View<E>, usize, BoardRule>;

/// What steps on the words, and knows a view.
pub(crate) type Place<E> = Seat<u8, View<E>>;

/// Gives the first owned word to a new seat.
pub(crate) fn hand<E>(words: &Words<E>, seat: &mut Place<E>) -> Place<E>
    requires board { (seat.old.table_id ≡ words.now.table_id) × (0 < words.now.table_id.words) }
    requires owns { seat.old.me.0.from < seat.old.me.0.to }
    ensures board { (seat.new.table_id ≡ seat.old.table_id) × (result.table_id ≡ seat.old.table_id) }
    ensures old { seat.new.me ≡ (others_of seat.old.me.0, seat.old.me.1) }
    ensures new { result.me ≡ (first_of seat.old.me.0, []) }
{
    words.split_seat::<Hand>(seat)
}

fn tell_as<E, T: Says<E>>(words: &Words<E>, seat: &mut Place<E>, word: usize, item: &E)
    requires board { (seat.old.table_id ≡ words.now.table_id) × (word < words.now.table_id.words) }
    requires owns { Owns seat.old.me.0 word × (word < length seat.old.me.0.lists) }
    requires said { T.item ≡ Some item.now }
    ensures board { seat.new.table_id ≡ seat.old.table_id }
    ensures told { seat.new.me ≡ (settled seat.old.me.0 (with_item seat.old.me.0.lists word item.now), seat.old.me.1) }
{
    words.fetch_add::<Tell<T>>(seat, word, 1);
}

/// Adds an item to the list of an owned word.
pub(crate) fn tell<E>(words: &Words<E>, seat: &mut Place<E>, word: usize, item: &E)
    requires board { (seat.old.table_id ≡ words.now.table_id) × (word < words.now.table_id.words) }
    requires settled { seat.old.me.0.old ≡ None }
    requires owns { Owns seat.old.me.0 word × (word < length seat.old.me.0.lists) }
    ensures board { seat.new.table_id ≡ seat.old.table_id }
    ensures told { seat.new.me ≡ (settled seat.old.me.0 (with_item seat.old.me.0.lists word item.now), seat.old.me.1) }
{
    tell_as::<E, Brand>(words, seat, word, item)
}

/// A seat that knows as much and owns no word.
pub(crate) fn note<E>(words: &Words<E>, seat: &mut Place<E>) -> Place<E>
    requires board { (seat.old.table_id ≡ words.now.table_id) × (0 < words.now.table_id.words) }
    requires settled { seat.old.me.0.old ≡ None }
    ensures board { (seat.new.table_id ≡ seat.old.table_id) × (result.table_id ≡ seat.old.table_id) }
    ensures old { seat.new.me ≡ seat.old.me }
    ensures new { result.me ≡ (note_of seat.old.me.0, []) }
{
    words.split_seat::<Note>(seat)
}

/// Takes in what a note knows, and settles.
pub(crate) fn take<E>(words: &Words<E>, seat: &mut Place<E>, other: Place<E>)
    requires board { (seat.old.table_id ≡ words.now.table_id) × (0 < words.now.table_id.words) }
    requires settled { seat.old.me.0.old ≡ None }
    requires note { (other.table_id ≡ words.now.table_id) × (other.me.1 ≡ []) }
    ensures board { seat.new.table_id ≡ seat.old.table_id }
    ensures longer { seat.new.me ≡ (settled seat.old.me.0 (longer_lists seat.old.me.0.lists other.me.0.lists), seat.old.me.1) }
    ensures spans { Spans seat.new.me.0 (old_views seat.old.me.0.lists other.me.0.lists) }
{
    words.join_seat::<Take>(seat, other);
    words.load::<Settle>(seat, 0);
}
