//! The board, on which passes tell, note, take and meet.

ghost use Rattle.std.specs.Prelude.{◌≡◌, ◌<◌, [], replicate, None, IfOk, IfSome, IsSome};
ghost use mathlib.Core.List.{IsPrefix};
ghost use Rattle.ms_ken.specs.Lists.{list_at, Begins, longer_lists, with_told};
ghost use Rattle.ms_ken.specs.Known.{ArePasses};
ghost use Rattle.ms_ken.specs.Rule.{fresh};

use crate::board_rule::BoardRule;
use crate::closed::Closed;
use crate::pass::Pass;
use crate::steps::{self, Place, Words};
use crate::view::View;
use atomic_table::Table;
use ms_base::NoMemory;
use std::alloc::Global;
use std::marker::Model;

/// One atomic word for each owner, which threads share by `&`. To a contract it is which board it is,
/// and how many words it has.
#[derive(Drop)]
pub struct Board<C: Closed> {
    table: Table<u8, View<C::Event>, usize, BoardRule, Global>,
}

impl<C: Closed> Model for Board<C> {
    ghost use Rattle.std.specs.Prelude.{◌<◌};
    ghost use Rattle.ms_ken.specs.Known.{TableId, table_id_coded};

    ghost Value = { TableId };

    ghost coded = { table_id_coded };

    ghost view = { λ b. b.table.shared.table_id };

    ghost invariant = { λ b. 0 < b.table.shared.table_id.words };
}

impl<C: Closed> Board<C> {
    /// A board on which no list has an item, and one pass for each owner, in order. `NoMemory` where
    /// there is none for the words or the passes.
    pub fn new(alloc: Global, owners: u32) -> Result<(Board<C>, Vec<Pass<C>>), NoMemory>
        requires { 0 < owners }
        ensures board { IfOk result (λ r. r.0.words ≡ owners) }
        ensures passes { IfOk result (λ r. ArePasses r.0 owners r.1.items) }
    {
        let count = owners as usize;
        let zeros = vec![in alloc; 0u64; count]?;
        let (table, first) = Table::of_words(alloc, zeros.as_slice(), &count)?;
        let passes = hand_all(alloc, &table.shared, first, count)?;
        Ok((Board { table }, passes))
    }

    /// Adds the event to the list of the pass's word.
    pub fn tell(&self, pass: &mut Pass<C>, event: &C::Event)
        requires board { pass.old.board ≡ self.now }
        requires owner { IsSome pass.old.word }
        requires closed { C.closed (with_told pass.old.lists pass.old.word event.now) }
        ensures told { pass.new ≡ record pass.old { lists = with_told pass.old.lists pass.old.word event.now } }
        ensures keeps { Begins pass.old.lists pass.new.lists }
    {
        if let Some(word) = pass.word {
            steps::tell(&self.table.shared, &mut pass.seat, word, event);
        }
    }

    /// A pass that knows as much and owns no word.
    pub fn note(&self, pass: &mut Pass<C>) -> Pass<C>
        requires { pass.old.board ≡ self.now }
        ensures same { pass.new ≡ pass.old }
        ensures note { result ≡ record pass.old { word = None } }
    {
        let seat = steps::note(&self.table.shared, &mut pass.seat);
        Pass { seat, word: None }
    }

    /// The pass then knows what it knew and what the note knows.
    pub fn take(&self, pass: &mut Pass<C>, note: Pass<C>)
        requires board { (pass.old.board ≡ self.now) × (note.board ≡ self.now) }
        requires note { note.word ≡ None }
        ensures longer { pass.new ≡ record pass.old { lists = longer_lists pass.old.lists note.lists } }
        ensures keeps { Begins pass.old.lists pass.new.lists }
        ensures learns { Begins note.lists pass.new.lists }
        ensures own { IfSome pass.old.word (λ k. list_at pass.new.lists k ≡ list_at pass.old.lists k) }
        ensures behind { IfSome pass.old.word (λ k. IsPrefix (list_at note.lists k) (list_at pass.old.lists k)) }
    {
        let Pass { seat, word: _ } = note;
        steps::take(&self.table.shared, &mut pass.seat, seat);
    }

    /// Both then know what both knew.
    pub fn meet(&self, one: &mut Pass<C>, other: &mut Pass<C>)
        requires { (one.old.board ≡ self.now) × (other.old.board ≡ self.now) }
        ensures one { one.new ≡ record one.old { lists = longer_lists one.old.lists other.old.lists } }
        ensures other { other.new ≡ record other.old { lists = longer_lists other.old.lists one.old.lists } }
        ensures same { one.new.lists ≡ other.new.lists }
        ensures both_know_one { Begins one.old.lists one.new.lists × Begins one.old.lists other.new.lists }
        ensures both_know_other { Begins other.old.lists one.new.lists × Begins other.old.lists other.new.lists }
        ensures own_one { IfSome one.old.word (λ k. list_at one.new.lists k ≡ list_at one.old.lists k) }
        ensures own_other { IfSome other.old.word (λ k. list_at other.new.lists k ≡ list_at other.old.lists k) }
    {
        one.recall();
        other.recall();
        self.take(one, self.note(other));
        self.take(other, self.note(one));
    }
}

/// One pass for each word, from the seat that owns them all.
fn hand_all<C: Closed>(
    alloc: Global,
    words: &Words<C::Event>,
    mut first: Place<C::Event>,
    count: usize,
) -> Result<Vec<Pass<C>>, NoMemory>
    requires { (first.table_id ≡ words.now.table_id) × (first.me ≡ (fresh count, [])) × (words.now.table_id.words ≡ count) }
    ensures { IfOk result (λ passes. ArePasses words.now.table_id count passes.items) }
{
    let mut passes = Vec::with_capacity(alloc, count)?;
    for word in 0..count {
        let seat = steps::hand(words, &mut first);
        passes.push(Pass {
            seat,
            word: Some(word),
        })?;
    }
    Ok(passes)
}
