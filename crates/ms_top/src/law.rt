//! What is true of all runs.

ghost use Rattle.std.specs.Prelude.{◌≡◌, ◌⊎◌, ℕ, List, Option, Some};
ghost use Rattle.ms_base.specs.Outside.{OutsideView, SinkView};
ghost use Rattle.ms_top.specs.Alike.{AreAlike, HashesCollision, IsJudged};
ghost use Rattle.ms_top.specs.Runs.{Runs};
ghost use Rattle.ms_words.specs.declared.command.Command.{Command};

use ms_record::law::one_chain;
use ms_replay::one_audit;
use ms_world::law::{every_run, one_outcome};

/// A command over the same inputs has one answer. Where the house tells its texts, two runs of it that end for no fault and for no
/// want of memory write the lines of one report and end with its status; but that of two objects of one tree with one SHA-256
/// either may be counted.
pub fn one_answer()
    ensures { (command : Option Command) (texts : List (List ℕ × List ℕ)) (old new other : OutsideView) (before after first last : SinkView) (status again : ℕ)
        → old.inputs.texts ≡ Some texts → Runs command old new before after status → Runs command old other first last again → IsJudged status → IsJudged again
        → AreAlike before after status first last again ⊎ HashesCollision command old.inputs }
{
    one_audit();
    one_outcome();
    one_chain();
    every_run();
}
