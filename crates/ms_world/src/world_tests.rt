//! A world of one service and one client.

ghost use Rattle.std.specs.Prelude.{IfSome};
ghost use Rattle.ms_record.specs.Settings.{IsSetting};

use crate::event::Event;
use crate::law::one_outcome;
use crate::world::World;
use ms_base::{ClientId, Name, ServiceId};
use ms_record::{Entry, Plan, PlanRow, Refusal, Setting, Why};
use std::test::*;

/// The name of nothing before, and of a version.
const ZEROS: Name = Name([0; 32]);

/// One service and one client; the genesis has one copy on the service.
fn small_setting() -> Option<Setting>
    ensures { IfSome result IsSetting }
{
    let rows = [PlanRow {
        service: ServiceId(0),
        capacity: 1,
    }];
    let plan = Plan::new(1, 1, 1, 1, &rows)?;
    Some(Setting {
        services: 1,
        clients: 1,
        genesis: Entry {
            before: ZEROS,
            client: ClientId(0),
            number: 0,
            version: ZEROS,
            plan: Some(plan),
        },
    })
}

/// The number of the refused event and the condition that fails.
fn refused(outcome: Result<(), Refusal>) -> Option<(u64, Why)> {
    match outcome {
        Err(Refusal::NotEnabled { event, why }) => Some((event, why)),
        _ => None,
    }
}

#[test]
fn a_refused_event_is_not_counted(rt: HostRuntime) -> Result<(), Fail> {
    let setting = small_setting().ok_or("no plan")?;
    let mut world = World::start(rt.alloc(), &setting)?;
    let client = ClientId(0);
    assert_eq!(rt;
        refused(world.step(&Event::Stop { client })),
        Some((1, Why::Off))
    );
    assert_eq!(rt;
        refused(world.step(&Event::Offer { client })),
        Some((1, Why::Off))
    );
    world.step(&Event::Start { client }).ok().ok_or("refused")?;
    assert_eq!(rt;
        refused(world.step(&Event::Start { client })),
        Some((2, Why::On))
    );
    assert_eq!(rt;
        refused(world.step(&Event::Learn { client })),
        Some((2, Why::Chosen))
    );
    world.shows();
    one_outcome();
    assert_eq!(rt; world.known(client), 0);
    assert_eq!(rt; world.chain()?.len(), 0);
    Ok(())
}

#[test]
fn a_settling_bid_has_nothing_to_offer(rt: HostRuntime) -> Result<(), Fail> {
    let setting = small_setting().ok_or("no plan")?;
    let mut world = World::start(rt.alloc(), &setting)?;
    let client = ClientId(0);
    let service = ServiceId(0);
    world.step(&Event::Start { client }).ok().ok_or("refused")?;
    world
        .step(&Event::Bid {
            client,
            round: 1,
            want: None,
        })
        .ok()
        .ok_or("refused")?;
    world
        .step(&Event::Deliver { request: 0 })
        .ok()
        .ok_or("refused")?;
    world
        .step(&Event::Read {
            client,
            service,
            upto: 1,
        })
        .ok()
        .ok_or("refused")?;
    assert_eq!(rt;
        refused(world.step(&Event::Offer { client })),
        Some((5, Why::Nothing))
    );
    assert_eq!(rt;
        refused(world.step(&Event::DropBelow { service, floor: 2 })),
        Some((5, Why::Turned))
    );
    world
        .step(&Event::DropBelow { service, floor: 1 })
        .ok()
        .ok_or("refused")?;
    Ok(())
}
