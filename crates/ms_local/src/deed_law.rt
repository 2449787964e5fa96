//! Laws of the deeds of a command.

ghost use Rattle.std.specs.Prelude.{◌≡◌, ◌+◌, ◌<◌, ◌≤◌, ◌++◌, ◌∷◌, [], ℕ, Bool, true, List, Some, Contains};
ghost use Rattle.ms_core.specs.Views.{IsClosed, log_in};
ghost use Rattle.ms_record.specs.declared.entry.Entry.{Entry};
ghost use Rattle.ms_record.specs.declared.log.LogEvent.{LogEvent};
ghost use Rattle.ms_record.specs.declared.record.Record.{Record};
ghost use Rattle.ms_record.specs.declared.record.Record.TheVariants.{Accept};
ghost use Rattle.ms_local.specs.declared.deed.Deed.{Deed};
ghost use Rattle.ms_local.specs.declared.deed.Deed.TheVariants as deed;
ghost use Rattle.ms_local.specs.Calls.{DeskCalls, DeskGoes, StaysTold};
ghost use Rattle.ms_local.specs.Desks.{DeskView, HasFault, IsDesk, faults_at, with_deed};
ghost use Rattle.ms_local.specs.Laying.{IsObjectDeed, Lays, TellsObjects};
ghost use Rattle.ms_local.specs.Truths.{IsTrueDeed, OwnHistory, TrueDeeds, TrueLooks, offers_of};
ghost use Rattle.ms_local.specs.Rules.{Bidding, Did, HasRun, Intent, IsDecided, Run, ShowsIn, Step, begun_at, bid_begun, done, promised_by, taken_by};

use ms_core::item_law::{configuration_stays, views_grow};

/// Deeds of one call and then of another are those of both, and what keeps the rules does so up to each place.
pub fn deeds_compose()
    ensures both { (who : ℕ) (s t u : Bidding) (own more : List Intent) (deeds later : List Deed)
        → Run who s own deeds t → Run who t more later u → Run who s (own ++ more) (deeds ++ later) u }
    ensures prefix { (who : ℕ) (s u : Bidding) (own : List Intent) (deeds later : List Deed)
        → Run who s own (deeds ++ later) u → HasRun who s deeds }
{}

/// What a command did goes on: by nothing, by what a call did, by a deed that may be done next, by the keeping of a new round.
pub fn deeds_go_on()
    ensures nothing { (who : ℕ) (old : List Deed) (s : Bidding) → Did who old old s [] s }
    ensures on { (who : ℕ) (old mid new : List Deed) (s t u : Bidding) (own more : List Intent)
        → Did who old mid s own t → Did who mid new t more u → Did who old new s (own ++ more) u }
    ensures may { (who : ℕ) (old mid new : List Deed) (s t : Bidding) (own : List Intent) (deed : Deed)
        → Did who old mid s own t → new ≡ mid ++ deed ∷ [] → Step who t [] deed (done t deed) [] → Did who old new s own (done t deed) }
    ensures bid { (who : ℕ) (old mid new : List Deed) (s t : Bidding) (own : List Intent) (intent : Intent) (round : ℕ) (ok : Bool)
        → Did who old mid s own t → new ≡ mid ++ deed.Kept round ok ∷ [] → round ≡ t.top + 1
        → Did who old new s (own ++ intent ∷ []) (bid_begun t intent round ok) }
{}

/// What the deeds of a command show that keep the rules.
pub fn deeds_show()
    // Each round that is kept, or is to be, is above the one that the command read.
    ensures rounds { (n who read : ℕ) (own : List Intent) (deeds : List Deed) (t : Bidding) (round : ℕ) (ok : Bool)
        → Run who (begun_at n read) own deeds t → Contains deeds (deed.Kept round ok) → read < round }
    // A bid is decided only where its offer was declared, and a majority of its voters was seen to have taken it.
    ensures declared { (n who read : ℕ) (own : List Intent) (deeds : List Deed) (t : Bidding) (position : ℕ) (entry : Entry)
        → Run who (begun_at n read) own deeds t → (decided : IsDecided t position entry) → Contains deeds (deed.Declared (Accept position decided.ballot entry)) }
    ensures taken { (n who read : ℕ) (own : List Intent) (deeds : List Deed) (t : Bidding) (voters : List ℕ) (offer : Record) (service : ℕ)
        → Run who (begun_at n read) own deeds t → t.declared ≡ Some offer → taken_by voters t.votes service ≡ true
        → (front rest : List Deed) × (deeds ≡ front ++ deed.Declared offer ∷ rest) × ShowsIn rest service (λ sight. sight.taken) }
    // An offer stands on sights of the bid alone: who promised was looked at behind the keeping of the bid's round.
    ensures promised { (n who read : ℕ) (own : List Intent) (deeds : List Deed) (t : Bidding) (voters : List ℕ) (round service : ℕ)
        → Run who (begun_at n read) own deeds t → t.kept ≡ Some round → promised_by voters t.looks service ≡ true
        → (front rest : List Deed) × (deeds ≡ front ++ deed.Kept round true ∷ rest) × ShowsIn rest service (λ sight. sight.promised) }
{}

/// A desk goes on by nothing, from call to call, by a call, noted or not.
pub fn desks_go_on()
    ensures nothing { (desk : DeskView) → DeskGoes desk desk }
    ensures on { (old mid new : DeskView) → DeskGoes old mid → DeskGoes mid new → DeskGoes old new }
    ensures called { (service : ℕ) (old new : DeskView) → DeskCalls service old new → DeskGoes old new }
    ensures noted { (service : ℕ) (old new : DeskView) (deed : Deed) → DeskCalls service (with_deed old deed) new → DeskGoes old new }
    // What was told stays so, where nothing else is told by then; no event goes, and no count of faults falls.
    ensures told { (old new : DeskView) → IsClosed new.pass.lists → DeskGoes old new → StaysTold old new }
    ensures events { (old new : DeskView) (service : ℕ) (event : LogEvent) → DeskGoes old new → Contains (log_in old.pass.lists service) event → Contains (log_in new.pass.lists service) event }
    ensures faults { (old new : DeskView) (service : ℕ) → DeskGoes old new → faults_at old service ≤ faults_at new service }
    // Whether a service's objects are told stays.
    ensures tells { (old new : DeskView) (s : ℕ) → DeskGoes old new → TellsObjects old s → TellsObjects new s }
    // A fault between two moments is one between an earlier and a later one.
    ensures wider { (old low high new : DeskView) (service : ℕ) → DeskGoes old low → DeskGoes high new → HasFault low high service → HasFault old new service }
{
    configuration_stays();
    views_grow();
}

/// The deeds of a desk that goes on are true, and its own list is told by them.
pub fn truths_go_on()
    ensures nothing { (desk : DeskView) → TrueDeeds desk desk }
    ensures quiet { (old new : DeskView) → new.deeds ≡ old.deeds ++ [] → TrueDeeds old new }
    ensures on { (old mid new : DeskView) → DeskGoes old mid → StaysTold old mid → DeskGoes mid new → TrueDeeds old mid → TrueDeeds mid new → TrueDeeds old new }
    ensures noted { (old new : DeskView) (deed : Deed) → new.deeds ≡ old.deeds ++ deed ∷ [] → IsTrueDeed old new deed
        → ((position round : ℕ) → TrueLooks old new position round (deed ∷ [])) → TrueDeeds old new }
    ensures own_nothing { (desk : DeskView) → OwnHistory desk desk }
    ensures own_on { (old mid new : DeskView) → DeskGoes old mid → OwnHistory old mid → OwnHistory mid new → OwnHistory old new }
    // Calls tell nothing in the own list.
    ensures own_called { (old new : DeskView) (deeds : List Deed) → IsDesk old → DeskGoes old new → new.deeds ≡ old.deeds ++ deeds → offers_of deeds ≡ [] → OwnHistory old new }
{}

/// Nothing is laid by nothing; deeds on objects go on from call to call; a call lays its deed, if it is true.
pub fn desks_lay()
    ensures nothing { (desk : DeskView) → IsDesk desk → Lays desk desk [] }
    ensures on { (old mid new : DeskView) (deeds more : List Deed) → Lays old mid deeds → Lays mid new more → Lays old new (deeds ++ more) }
    ensures called { (service : ℕ) (old new : DeskView) → IsDesk old → IsDesk new → IsClosed new.pass.lists → DeskCalls service old new → Lays old new [] }
    ensures noted { (service : ℕ) (old new : DeskView) (deed : Deed) → IsDesk old → IsDesk new → IsClosed new.pass.lists → DeskCalls service (with_deed old deed) new
        → IsObjectDeed deed → IsTrueDeed old new deed → Lays old new (deed ∷ []) }
{
    desks_go_on();
    truths_go_on();
}
