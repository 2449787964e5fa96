//! Laws of placing.

ghost use Rattle.std.specs.Prelude.{◌≡◌, ◌<◌, ◌≤◌, ℕ, List, Some, count_by, false, length, map, not};
ghost use Rattle.ms_base.specs.declared.limits.TheConstants.{OBJECT_BYTES};
ghost use Rattle.ms_base.specs.declared.names.Name.{Name};
ghost use Rattle.ms_core.specs.Placing.{HoldsVersion};
ghost use Rattle.ms_object.specs.Trees.{Texts};
ghost use Rattle.ms_plan.specs.Mapping.{places_of};
ghost use Rattle.ms_record.specs.declared.plan.PlanRow.{PlanRow};
ghost use Rattle.ms_record.specs.Plans.{IsPlan, PlanView};
ghost use Rattle.ms_upload.specs.Jobs.{AreFresh, Follows, IsDone, LacksPlaces};
ghost use Rattle.ms_upload.specs.Visits.{Job, Visit, did_fail};

use ms_object::object::one_spelling;
use ms_plan::orders_are_sorted;

/// What a placing comes to.
pub fn placings()
    // Where no service failed and none showed a floor, those that were visited are the object's places.
    ensures exact { (plan : PlanView) (job : Job) → Follows plan job → IsDone plan job → AreFresh job.visits → ((s : ℕ) → did_fail job.visits s ≡ false)
        → map (λ (v : Visit). v.service) job.visits ≡ places_of plan job.name }
    // Where an object lacks places, too few of the plan's services did not fail.
    ensures few { (plan : PlanView) (job : Job) (failed : List ℕ) → IsPlan plan → Follows plan job → LacksPlaces plan job failed
        → count_by (λ (row : PlanRow). not (did_fail job.visits row.service.0)) plan.rows < plan.replicas }
    // No object of a version is too long to be placed.
    ensures short { (format : ℕ) (texts : Texts) (version : Name) → HoldsVersion format texts version → (name : Name) (text : List ℕ) → texts name.0 ≡ Some text → length text ≤ OBJECT_BYTES }
{
    one_spelling();
    orders_are_sorted();
}
