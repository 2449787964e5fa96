//! What holds in every run.

ghost use Rattle.std.specs.Prelude.{◌≡◌, ◌+◌, ◌<◌, ◌≤◌, ◌⊎◌, ◌++◌, ◌∷◌, ℕ, Contains, List, Some, slice_get};
ghost use Rattle.ms_world.specs.declared.event.Event.{Event};
ghost use Rattle.ms_core.specs.Placing.{StaysPlaced};
ghost use Rattle.ms_world.specs.Held.{IsReached};
ghost use Rattle.ms_world.specs.Refusals.{IsRefused};
ghost use Rattle.ms_world.specs.Steps.{Step};
ghost use Rattle.ms_core.specs.Valid.{IsValid, IsLive, Names, plan_at};
ghost use Rattle.ms_core.specs.Views.{MayDeclare, SupportsEvent};
ghost use Rattle.ms_world.specs.Worlds.{ClientView, WorldView, log_of, offers_in, votes_of_world};
ghost use Rattle.ms_record.specs.declared.entry.Entry.{Entry};
ghost use Rattle.ms_record.specs.declared.log.LogEvent.{LogEvent};
ghost use Rattle.ms_record.specs.declared.record.Record.{Record};
ghost use Rattle.ms_record.specs.declared.refusal.Why.{Why};
ghost use Rattle.ms_record.specs.declared.setting.Setting.{Setting};
ghost use Rattle.ms_record.specs.Chains.{Agrees, Begins, IsChain, IsChosen};
ghost use Rattle.ms_record.specs.Settings.{IsSetting, origin_of};

use crate::reached::states_hold;
use ms_core::log_law::live_laws;
use ms_record::law::chain_laws;

/// For every setting and every world that events lead to which can happen, with any number of failures.
pub fn every_run()
    // Two entries chosen at one position are one.
    ensures agrees { (setting : Setting) (w : WorldView) → IsSetting setting → IsReached setting w
        → Agrees (votes_of_world w) (origin_of setting) }
    // A chosen entry links on to the members before it, and its version is placed.
    ensures valid { (setting : Setting) (w : WorldView) → IsSetting setting → IsReached setting w
        → (k : ℕ) (e : Entry) → IsChosen (votes_of_world w) (origin_of setting) k e → IsValid setting (log_of w) k e }
    // A chosen entry stands in the chain at its position.
    ensures stands { (setting : Setting) (w : WorldView) (chain : List Entry) → IsSetting setting → IsReached setting w
        → IsChain (votes_of_world w) (origin_of setting) chain
        → (i : ℕ) (e : Entry) → IsChosen (votes_of_world w) (origin_of setting) (i + 1) e → slice_get chain i ≡ Some e }
    // A run has a chain.
    ensures chain { (setting : Setting) (w : WorldView) → IsSetting setting → IsReached setting w
        → (chain : List Entry) × IsChain (votes_of_world w) (origin_of setting) chain }
    // Behind a plan of format 2 none of format 1 comes into force.
    ensures formats { (setting : Setting) (w : WorldView) (chain : List Entry) → IsSetting setting → IsReached setting w
        → IsChain (votes_of_world w) (origin_of setting) chain
        → (i j : ℕ) → i ≤ j → (plan_at setting chain i).format ≤ (plan_at setting chain j).format }
    // A client's chain begins the chain.
    ensures begins { (setting : Setting) (w : WorldView) (chain : List Entry) → IsSetting setting → IsReached setting w
        → IsChain (votes_of_world w) (origin_of setting) chain
        → (client : ℕ) (c : ClientView) → slice_get w.clients client ≡ Some c → Begins c.chain chain }
    // Of two clients' chains one begins the other.
    ensures one_list { (setting : Setting) (w : WorldView) → IsSetting setting → IsReached setting w
        → (i j : ℕ) (c d : ClientView) → slice_get w.clients i ≡ Some c → slice_get w.clients j ≡ Some d → Begins c.chain d.chain ⊎ Begins d.chain c.chain }
    // Each member of a client's chain names the SHA-256 of the bytes of the member before it.
    ensures names { (setting : Setting) (w : WorldView) → IsSetting setting → IsReached setting w
        → (client : ℕ) (c : ClientView) → slice_get w.clients client ≡ Some c → Names setting c.chain }
    // What a service's log has is supported by the logs and the declared offers.
    ensures supported { (setting : Setting) (w : WorldView) → IsSetting setting → IsReached setting w
        → (service : ℕ) (event : LogEvent) → Contains (log_of w service) event → (service < setting.services) × SupportsEvent setting (log_of w) (offers_in w) event }
    // What a client declared it may declare, by the logs, behind what it declared before.
    ensures declared { (setting : Setting) (w : WorldView) → IsSetting setting → IsReached setting w
        → (client : ℕ) (c : ClientView) (before : List Record) (offer : Record) (after : List Record) → slice_get w.clients client ≡ Some c → before ++ offer ∷ after ≡ c.offers
        → (client < setting.clients) × MayDeclare setting (log_of w) client before offer }
    // A live master stays placed, whatever was dropped.
    ensures live { (setting : Setting) (w : WorldView) (chain : List Entry) → IsSetting setting → IsReached setting w
        → IsChain (votes_of_world w) (origin_of setting) chain
        → (i : ℕ) (e : Entry) → IsLive setting chain i e → StaysPlaced (log_of w) (plan_at setting chain i) e.version }
{
    chain_laws();
    live_laws();
}

/// An event has one outcome: it is carried out and leads to one world, or one of its conditions is the first that fails.
pub fn one_outcome()
    // An event that is carried out leads to one world.
    ensures step { (setting : Setting) (w : WorldView) (event : Event) (a b : WorldView) → IsSetting setting → IsReached setting w
        → Step setting w event a → Step setting w event b → a ≡ b }
    // One condition is the first that fails.
    ensures refusal { (setting : Setting) (w : WorldView) (event : Event) (x y : Why)
        → IsRefused setting w event x → IsRefused setting w event y → x ≡ y }
    // What is carried out is not refused.
    ensures apart { (setting : Setting) (w next : WorldView) (event : Event) (why : Why)
        → Step setting w event next → IsRefused setting w event why → ⊥ }
{
    states_hold();
}
