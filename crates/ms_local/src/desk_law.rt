//! What is done at a desk leaves it a desk.

ghost use Rattle.std.specs.Prelude.{◌≡◌, ℕ, List, Some, Result, slice_get};
ghost use Rattle.ms_base.specs.declared.names.Name.{Name};
ghost use Rattle.ms_base.specs.declared.outside.OutsideError.{OutsideError};
ghost use Rattle.ms_core.specs.Views.{IsClosed};
ghost use Rattle.ms_ken.specs.Known.{Known};
ghost use Rattle.ms_ken.specs.Lists.{with_told};
ghost use Rattle.ms_link.specs.Links.{IsOnBoard, Learns, LinkView};
ghost use Rattle.ms_record.specs.declared.item.Item.{Item};
ghost use Rattle.ms_record.specs.declared.item.Item.TheVariants.{Offer};
ghost use Rattle.ms_record.specs.declared.record.Record.{Record};
ghost use Rattle.ms_record.specs.declared.refusal.Refusal.{Refusal};
ghost use Rattle.ms_record.specs.declared.setting.Setting.{Setting};
ghost use Rattle.ms_record.specs.Votes.{ballot_of};
ghost use Rattle.ms_local.specs.declared.deed.Deed.{Deed};
ghost use Rattle.ms_local.specs.declared.kept.Kept.{Kept};
ghost use Rattle.ms_record.specs.declared.key.Key.TheVariants.{Object, State};
ghost use Rattle.ms_local.specs.Desks.{DeskView, HasKeptRound, IsDesk, KnowsTold, LanesStay, MayKeepRound, with_deed};
ghost use Rattle.ms_local.specs.Keeping.{WritesKept};
ghost use Rattle.ms_local.specs.Outside.{KeeperView, WhereTold, WorkView, Writes};

use ms_core::item_law::configuration_stays;

/// Each thing that a command does at a desk leaves what is true of every desk, whatever it answers.
pub fn desks_stay()
    // A deed is noted.
    ensures deed { (desk : DeskView) (deed : Deed) → IsDesk desk → IsDesk (with_deed desk deed) }
    // The folder is worked on.
    ensures work { (desk : DeskView) (work : WorkView) → IsDesk desk → IsDesk (record desk { work = work }) }
    // Links are called, and the pass learns.
    ensures call { (desk : DeskView) (pass : Known Item) (lanes : List (List LinkView)) → IsDesk desk → Learns desk.pass pass → LanesStay desk.lanes lanes
        → IsDesk (record desk { pass = pass; lanes = lanes }) }
    // A text is read.
    ensures read { (desk : DeskView) (faults : ℕ) → IsDesk desk → IsDesk (record desk { keep = record desk.keep { faults = faults } }) }
    // An object is kept.
    ensures object { (desk : DeskView) (name : Name) (text : List ℕ) (keep : KeeperView) (result : Result Unit OutsideError) → IsDesk desk → keep.told ≡ desk.keep.told
        → Writes (Object name) text desk.keep keep result → IsDesk (record desk { keep = keep }) }
    // Objects are kept.
    ensures objects { (desk : DeskView) (keep : KeeperView) → IsDesk desk → keep.told ≡ desk.keep.told → WhereTold keep.told (keep.texts State ≡ desk.keep.texts State)
        → IsDesk (record desk { keep = keep }) }
    // A state is kept whose round is not below the one that was kept.
    ensures state { (desk : DeskView) (kept : Kept) (keep : KeeperView) (result : Result Unit Refusal) → IsDesk desk → keep.told ≡ desk.keep.told → MayKeepRound desk kept.round
        → WritesKept kept desk.keep keep result → IsDesk (record desk { keep = keep }) }
    // An offer is told whose round is kept.
    ensures offer { (desk : DeskView) (offer : Record) → IsDesk desk → HasKeptRound desk (ballot_of offer).round
        → IsDesk (record desk { pass = record desk.pass { lists = with_told desk.pass.lists desk.pass.word (Offer offer) } }) }
    // Lanes stay from call to call.
    ensures lanes_self { (lanes : List (List LinkView)) → LanesStay lanes lanes }
    ensures lanes_on { (old mid new : List (List LinkView)) → LanesStay old mid → LanesStay mid new → LanesStay old new }
{}

/// A setting that is told at a desk was told there before, and stays told.
pub fn tellings_stay()
    ensures back { (desk : DeskView) (pass : Known Item) (setting : Setting) → IsDesk desk → Learns desk.pass pass → KnowsTold (record desk { pass = pass }) setting → KnowsTold desk setting }
    ensures on { (desk : DeskView) (pass : Known Item) (setting : Setting) → IsClosed pass.lists → Learns desk.pass pass → KnowsTold desk setting → KnowsTold (record desk { pass = pass }) setting }
{
    configuration_stays();
}

/// Each link of a desk is on the board of the desk and of its pass, and leads to the service of its place.
pub fn desks_lead()
    ensures board { (desk : DeskView) (lane place : ℕ) (links : List LinkView) (link : LinkView) → IsDesk desk → slice_get desk.lanes lane ≡ Some links → slice_get links place ≡ Some link
        → IsOnBoard link desk.board desk.pass }
    ensures service { (desk : DeskView) (lane place : ℕ) (links : List LinkView) (link : LinkView) → IsDesk desk → slice_get desk.lanes lane ≡ Some links → slice_get links place ≡ Some link
        → link.service ≡ place }
{}
