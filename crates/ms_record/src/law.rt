//! Laws over all vote lists.

ghost use Rattle.std.specs.Prelude.{◌≡◌, ◌+◌, ◌≤◌, ◌<◌, ◌++◌, ◌∷◌, [], ℕ, List, Some, length, slice_get, take};
ghost use Rattle.ms_record.specs.declared.ballot.Ballot.{Ballot};
ghost use Rattle.ms_record.specs.declared.entry.Entry.{Entry};
ghost use Rattle.ms_record.specs.declared.record.Record.{Record};
ghost use Rattle.ms_record.specs.declared.ballot.Vote.{Vote};
ghost use Rattle.std.specs.Prelude.{Option};
ghost use Rattle.ms_record.specs.Ballots.{IsBelow};
ghost use Rattle.ms_record.specs.ChainLaws.{ChainLaws};
ghost use Rattle.ms_record.specs.Chains.{Origin, IsLinked, IsChain, IsChosen, AgreesAt, Agrees, AllLink, AllNext, Begins, LinksBehind, voters_behind};
ghost use Rattle.ms_record.specs.Offers.{GrowsTo, IsFirstPromised, IsJustified, IsOffered, IsSound, IsSoundAt, JustifiedBy};
ghost use Rattle.ms_record.specs.Voters.{AreKnown};
ghost use Rattle.ms_record.specs.Votes.{ChosenBy, HaveOne, IsBest, IsPromised, IsTaken};

use crate::record::one_spelling;

/// The ballot induction, for any voters: where each ballot has one offer at the position, what was taken was offered,
/// and each offer is justified, each offer under a greater ballot than that of a chosen entry carries that entry.
pub fn ballots_agree()
    ensures later { (votes offers : ℕ → List Record) (voters : List ℕ) (position : ℕ) (chosen : Entry) (ballot : Ballot) (offered : Entry)
        → IsSoundAt votes offers voters position → (by_ballot : ChosenBy votes voters position chosen)
        → IsOffered offers position ballot offered → IsBelow by_ballot.ballot ballot → offered ≡ chosen }
    ensures one { (votes offers : ℕ → List Record) (voters : List ℕ) (position : ℕ) (e f : Entry)
        → IsSoundAt votes offers voters position → ChosenBy votes voters position e → ChosenBy votes voters position f → e ≡ f }
{}

/// What lists show at their places stays so when they grow.
pub fn places_stay()
    ensures promised { (old new : ℕ → List Record) (s place position : ℕ) (ballot : Ballot)
        → GrowsTo old new → IsPromised (old s) place position ballot → IsPromised (new s) place position ballot }
    ensures first { (old new : ℕ → List Record) (s place position : ℕ) (ballot : Ballot)
        → GrowsTo old new → IsFirstPromised (old s) place position ballot → IsFirstPromised (new s) place position ballot }
    ensures taken { (old new : ℕ → List Record) (s place position : ℕ) (ballot : Ballot) (entry : Entry)
        → GrowsTo old new → IsTaken (old s) place position ballot entry → IsTaken (new s) place position ballot entry }
    ensures best { (old new : ℕ → List Record) (s place position : ℕ) (best : Option Vote)
        → GrowsTo old new → place ≤ length (old s) → IsBest (old s) position place best → IsBest (new s) position place best }
    ensures chosen { (old new : ℕ → List Record) (voters : List ℕ) (position : ℕ) (entry : Entry)
        → GrowsTo old new → ChosenBy old voters position entry → ChosenBy new voters position entry }
    ensures justified { (old new : ℕ → List Record) (voters : List ℕ) (position : ℕ) (ballot : Ballot) (entry : Entry)
        → GrowsTo old new → JustifiedBy old voters position ballot entry → JustifiedBy new voters position ballot entry }
{}

/// Where each ballot has one offer, what was taken was offered, and each offer is justified, two masters of one position
/// are one: an induction on the position, since the masters before it say who votes there.
pub fn masters_agree()
    ensures one { (votes offers : ℕ → List Record) (origin : Origin) → IsSound votes offers origin → Agrees votes origin }
    ensures one_list { (votes offers : ℕ → List Record) (origin : Origin) (c d : List Entry)
        → IsSound votes offers origin → IsLinked votes origin c → IsLinked votes origin d → length c ≡ length d → c ≡ d }
{}

/// What is chosen, linked and justified along a chain stays so when lists grow.
pub fn masters_stay()
    ensures linked { (old new : ℕ → List Record) (origin : Origin) (members : List Entry)
        → GrowsTo old new → IsLinked old origin members → IsLinked new origin members }
    ensures chosen { (old new : ℕ → List Record) (origin : Origin) (position : ℕ) (entry : Entry)
        → GrowsTo old new → IsChosen old origin position entry → IsChosen new origin position entry }
    ensures justified { (old new : ℕ → List Record) (origin : Origin) (position : ℕ) (ballot : Ballot) (entry : Entry)
        → GrowsTo old new → IsJustified old origin position ballot entry → IsJustified new origin position ballot entry }
{}

/// Linked lists. None is linked; a linked list goes on by an entry that is chosen behind it and links on; its front is
/// linked, and its members are chosen. Where two chosen entries of one position are one, linked lists begin one
/// another; and where each chosen entry links on to the members before it, each stands in the chain. There is a chain where
/// a ballot has one entry at a position, the services of the first plan are known, and what is chosen links on.
pub fn one_chain()
    ensures none { (votes : ℕ → List Record) (origin : Origin) → IsLinked votes origin [] }
    ensures goes_on { (votes : ℕ → List Record) (origin : Origin) (c : List Entry) (e : Entry) → IsLinked votes origin c
        → ChosenBy votes (voters_behind origin c) (length c + 1) e → LinksBehind origin c e → IsLinked votes origin (c ++ e ∷ []) }
    ensures front { (votes : ℕ → List Record) (origin : Origin) (c : List Entry) (n : ℕ) → IsLinked votes origin c → IsLinked votes origin (take n c) }
    ensures chosen { (votes : ℕ → List Record) (origin : Origin) (c : List Entry) (i : ℕ) (e : Entry)
        → IsLinked votes origin c → slice_get c i ≡ Some e → IsChosen votes origin (i + 1) e }
    ensures begins { (votes : ℕ → List Record) (origin : Origin) (c d : List Entry)
        → Agrees votes origin → IsLinked votes origin c → IsLinked votes origin d → length c ≤ length d → Begins c d }
    ensures begins_there { (votes : ℕ → List Record) (origin : Origin) (c d : List Entry)
        → ((k : ℕ) → k ≤ length c → AgreesAt votes origin k) → IsLinked votes origin c → IsLinked votes origin d → length c ≤ length d → Begins c d }
    ensures one_there { (votes : ℕ → List Record) (origin : Origin) (c d : List Entry)
        → ((k : ℕ) → k ≤ length c → AgreesAt votes origin k) → IsLinked votes origin c → IsLinked votes origin d → length c ≡ length d → c ≡ d }
    ensures one_list { (votes : ℕ → List Record) (origin : Origin) (c d : List Entry)
        → Agrees votes origin → IsLinked votes origin c → IsLinked votes origin d → length c ≡ length d → c ≡ d }
    ensures stands { (votes : ℕ → List Record) (origin : Origin) (chain : List Entry) (i : ℕ) (e : Entry)
        → Agrees votes origin → AllNext votes origin → IsChain votes origin chain → IsChosen votes origin (i + 1) e → slice_get chain i ≡ Some e }
    ensures found { (votes : ℕ → List Record) (origin : Origin)
        → HaveOne votes → Agrees votes origin → AreKnown origin.services origin.plan → AllLink votes origin
        → (chain : List Entry) × IsChain votes origin chain }
{}

/// The laws of chains in one value, for crates above whose proofs stand on them.
pub fn chain_laws()
    ensures { ChainLaws }
{
    masters_agree();
    one_chain();
    one_spelling();
}
