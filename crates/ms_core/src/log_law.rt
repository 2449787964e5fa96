//! What holds of any logs, of services that run or of a world of drills.

ghost use Rattle.ms_core.specs.Living.{LiveLaws};

/// Where the logs' linked lists begin one another and each drop has a plan of its generation behind it, a live master stays
/// placed: no floor is above the generation in force, what was put in that generation stands, and the plan by which the
/// master was judged is the one in force at it.
pub fn live_laws()
    ensures { LiveLaws }
{}
