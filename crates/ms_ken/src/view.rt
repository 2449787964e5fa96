//! What a seat of the board knows.

use std::collections::LinkedList;

/// One list for each owner.
pub type Lists<E> = LinkedList<LinkedList<E>>;

/// What was known before a note was taken, and what the note knew.
pub struct OldViews<E> {
    pub mine: Lists<E>,
    pub theirs: Lists<E>,
}

/// What a seat knows of each owner's list. It owns the words from `from` up to `to`. No value of it is made.
pub struct View<E> {
    pub lists: Lists<E>,
    pub from: usize,
    pub to: usize,
    /// Kept from a take until it is settled.
    pub old: Option<OldViews<E>>,
}
