//! The command `drill`.

ghost use Rattle.std.specs.Prelude.{◌≡◌, ◌≤◌, length, IfOk, List};
ghost use Rattle.ms_record.specs.Chains.{IsChain};
ghost use Rattle.ms_record.specs.Settings.{origin_of};
ghost use Rattle.ms_record.specs.declared.entry.Entry.{Entry};
ghost use Rattle.ms_world.specs.Worlds.{votes_of_world};
ghost use Rattle.ms_base.specs.declared.limits.TheConstants.{INPUT_BYTES};
ghost use Rattle.ms_top.specs.Drills.{DrillSays, HoldTogether, IsInRange, LeadsTo, RunSays, RunsEvents, known_of};
ghost use Rattle.ms_top.specs.Steps.{OrNoMemory};

use ms_base::{ClientId, Items, NoMemory};
use ms_drill::{Drill, read_drill};
use ms_record::{Refusal, entry_name};
use ms_words::{Known, Report};
use ms_world::World;
use ms_world::law::every_run;
use std::alloc::Global;

/// The answer on the text of a schedule.
pub(crate) fn drill_text(alloc: Global, text: &[u8]) -> Result<Report, Refusal>
    requires { length text.now ≤ INPUT_BYTES }
    ensures { DrillSays text.now result }
{
    match read_drill(alloc, text) {
        Ok(drill) => on_drill(alloc, &drill),
        Err(refusal) => Err(refusal),
    }
}

/// The answer on a schedule.
fn on_drill(alloc: Global, drill: &Drill) -> Result<Report, Refusal>
    requires { IsInRange drill.now }
    ensures { OrNoMemory result (RunSays drill.now result) }
{
    match run_events(alloc, drill) {
        Ok(world) => on_world(alloc, drill, &world),
        Err(refusal) => Err(refusal),
    }
}

/// The world that all events lead to, or why one of them can't happen.
fn run_events(alloc: Global, drill: &Drill) -> Result<World, Refusal>
    requires { IsInRange drill.now }
    ensures { RunsEvents drill.now result }
{
    let mut world = World::start(alloc, &drill.setting)?;
    for event in drill.events.as_slice() {
        world.step(event)?;
    }
    Ok(world)
}

/// Takes nothing and gives nothing; the clients of a world hold together.
fn holds_together(world: &World)
    ensures clients { length world.now.world.clients ≡ world.now.setting.clients }
    ensures together { (entries : List Entry) → IsChain (votes_of_world world.now.world) (origin_of world.now.setting) entries → HoldTogether world.now.world entries }
{
    world.shows();
    every_run();
}

/// The chain of the world's logs, and what its clients know.
fn on_world(alloc: Global, drill: &Drill, world: &World) -> Result<Report, Refusal>
    requires { LeadsTo drill.now world.now }
    ensures { OrNoMemory result (RunSays drill.now result) }
{
    holds_together(world);
    Ok(Report::Drill {
        genesis: entry_name(&drill.setting.genesis),
        entries: world.chain()?,
        known: known(alloc, drill.setting.clients, world)?,
    })
}

/// The last position of each client.
fn known(alloc: Global, clients: u32, world: &World) -> Result<Known, NoMemory>
    requires there { clients ≡ length world.now.world.clients }
    requires all { clients ≡ world.now.setting.clients }
    ensures { IfOk result (λ known. known ≡ known_of world.now.world) }
{
    let mut known = Items::new(alloc);
    for client in 0..clients {
        known.push(world.known(ClientId(client)))?;
    }
    Ok(known)
}
