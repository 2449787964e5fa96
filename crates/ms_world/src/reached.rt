//! What holds of each world that a run has reached.

ghost use Rattle.std.specs.Prelude.{◌≡◌, ◌+◌, ◌≤◌, ◌++◌, ◌∷◌, [], List, length};
ghost use Rattle.ms_base.specs.declared.limits.TheConstants.{LAST_NUMBER};
ghost use Rattle.ms_world.specs.declared.event.Event.{Event};
ghost use Rattle.ms_world.specs.Held.{IsReached};
ghost use Rattle.ms_world.specs.States.{IsState, KnowsOne};
ghost use Rattle.ms_world.specs.Steps.{IsEvent, Step};
ghost use Rattle.ms_world.specs.Worlds.{WorldView, votes_of_world};
ghost use Rattle.ms_record.specs.declared.entry.Entry.{Entry};
ghost use Rattle.ms_record.specs.declared.setting.Setting.{Setting};
ghost use Rattle.ms_record.specs.Chains.{IsChain, IsLinked, voters_behind};
ghost use Rattle.ms_record.specs.Settings.{IsSetting, origin_of};
ghost use Rattle.ms_record.specs.Votes.{ChosenBy};

use ms_record::law::chain_laws;

/// A run goes on by an event that can happen, and a linked list then stays one.
pub(crate) fn runs_go_on()
    ensures reached { (setting : Setting) (w new : WorldView) (event : Event)
        → IsReached setting w → IsEvent event → Step setting w event new → IsReached setting new }
    ensures linked { (setting : Setting) (w new : WorldView) (event : Event) (chain : List Entry) → Step setting w event new
        → IsLinked (votes_of_world w) (origin_of setting) chain
        → IsLinked (votes_of_world new) (origin_of setting) chain }
{
    chain_laws();
}

/// What a state keeps, and that by what a client knows of its voters two entries chosen behind its chain are one.
pub(crate) fn states_hold()
    ensures state { (setting : Setting) (w : WorldView) → IsSetting setting → IsReached setting w → IsState setting w }
    ensures present { (setting : Setting) (w : WorldView) → IsSetting setting → IsReached setting w → length w.clients ≡ setting.clients }
    ensures known_one { (setting : Setting) (w : WorldView) → IsSetting setting → IsReached setting w → KnowsOne setting w }
{
    chain_laws();
}

/// A linked list goes on with the entry that is chosen behind it; where none is, it is the chain, of which there is one.
pub(crate) fn chains_go_on()
    ensures short { (setting : Setting) (w : WorldView) (chain : List Entry) → IsSetting setting → IsReached setting w
        → IsLinked (votes_of_world w) (origin_of setting) chain → length chain ≤ LAST_NUMBER }
    ensures goes_on { (setting : Setting) (w : WorldView) (chain : List Entry) (e : Entry) → IsSetting setting → IsReached setting w
        → IsLinked (votes_of_world w) (origin_of setting) chain
        → ChosenBy (votes_of_world w) (voters_behind (origin_of setting) chain) (length chain + 1) e
        → IsLinked (votes_of_world w) (origin_of setting) (chain ++ e ∷ []) }
    ensures ends { (setting : Setting) (w : WorldView) (chain : List Entry) → IsSetting setting → IsReached setting w
        → IsLinked (votes_of_world w) (origin_of setting) chain
        → ((e : Entry) → ¬ ChosenBy (votes_of_world w) (voters_behind (origin_of setting) chain) (length chain + 1) e)
        → IsChain (votes_of_world w) (origin_of setting) chain }
    ensures full { (setting : Setting) (w : WorldView) (chain : List Entry) → IsSetting setting → IsReached setting w
        → IsLinked (votes_of_world w) (origin_of setting) chain → LAST_NUMBER ≤ length chain
        → IsChain (votes_of_world w) (origin_of setting) chain }
    ensures one { (setting : Setting) (w : WorldView) (a b : List Entry) → IsSetting setting → IsReached setting w
        → IsChain (votes_of_world w) (origin_of setting) a
        → IsChain (votes_of_world w) (origin_of setting) b → a ≡ b }
{
    chain_laws();
}
