//! How events are spelled.

ghost use Rattle.std.specs.Prelude.{◌≡◌, ◌↔◌, ℕ, List, Some};
ghost use Rattle.ms_drill.specs.Lines.{event_at};
ghost use Rattle.ms_drill.specs.Spelling.{SpellsEvent};
ghost use Rattle.ms_world.specs.declared.event.Event.{Event};

use ms_record::plan::rules_are_tested;
use ms_text::words::one_spelling;
use ms_text::words_are_joined;

/// A line is read as an event exactly where it spells it: `docs/FORMATS.md`, drill.
pub fn events_are_spelled()
    ensures { (line : List ℕ) (event : Event) → event_at line ≡ Some event ↔ SpellsEvent line event }
{
    words_are_joined();
    one_spelling();
    rules_are_tested();
}
