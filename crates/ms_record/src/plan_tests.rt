//! Plans and sets of services, and what links on, by values that were known before.

use crate::test_values::*;
use crate::{Entry, Plan, PlanRow, ServiceSet, links_on};
use ms_base::ServiceId;
use std::test::*;

#[test]
fn a_plan_shows_its_values(rt: HostRuntime) -> Result<(), Fail> {
    let plan = conf_plan(7).ok_or("a plan")?;
    assert_eq!(rt; plan.generation(), 7);
    assert_eq!(rt; plan.format(), 1);
    assert_eq!(rt; plan.replicas(), 2);
    assert_eq!(rt; plan.unit(), 1000);
    assert_eq!(rt;
        plan.rows(),
        [row(0, 1000), row(1, 1000), row(2, 1000)].as_slice()
    );
    Ok(())
}

/// Values that break a plan rule with two rows: generation, format, replicas and unit.
const NO_VALUES: [(u32, u32, u32, u64); 9] = [
    (0, 1, 1, 1000),
    (4_294_967_295, 1, 1, 1000),
    (1, 0, 1, 1000),
    (1, 3, 1, 1000),
    (1, 1, 0, 1000),
    (1, 1, 3, 1000),
    (1, 1, 1, 0),
    (1, 1, 1, 1001),
    (1, 1, 1, 999),
];

/// Whether these are a plan's values.
fn is_plan(values: (u32, u32, u32, u64), rows: &[PlanRow]) -> bool {
    let (generation, format, replicas, unit) = values;
    Plan::new(generation, format, replicas, unit, rows).is_some()
}

/// Whether the rows are a plan's with unit 1,000.
fn are_rows(rows: &[PlanRow]) -> bool {
    is_plan((1, 1, 1, 1000), rows)
}

#[test]
fn plan_rules(rt: HostRuntime) {
    for values in NO_VALUES {
        assert!(rt; !is_plan(values, &[row(2, 16_999), row(15, 1000)]));
    }
}

#[test]
fn plans_of_greatest_values(rt: HostRuntime) {
    assert!(rt;
        is_plan(
            (4_294_967_294, 2, 2, 1000),
            &[row(2, 16_999), row(15, 1000)]
        )
    );
}

#[test]
fn plan_rules_of_rows(rt: HostRuntime) {
    assert!(rt; are_rows(&[row(0, 1000)]));
    assert!(rt; !are_rows(&[]));
    assert!(rt; !are_rows(&[row(0, 1000); 17]));
    assert!(rt; !are_rows(&[row(0, 1000), row(0, 1000)]));
    assert!(rt; !are_rows(&[row(1, 1000), row(0, 1000)]));
    assert!(rt; !are_rows(&[row(16, 1000)]));
    assert!(rt; !are_rows(&[row(0, 17_000)]));
}

/// Whether the set is of these services.
fn is_set(set: &ServiceSet, services: &[ServiceId]) -> bool {
    set.as_slice() == services
}

#[test]
fn the_services_of_a_plan_vote(rt: HostRuntime) -> Result<(), Fail> {
    let plan = Plan::new(1, 1, 1, 1, &[row(3, 1), row(15, 1)]).ok_or("a plan")?;
    let set = ServiceSet::of_plan(&plan);
    assert!(rt; is_set(&set, &[ServiceId(3), ServiceId(15)]));
    assert!(rt; set.has(ServiceId(15)));
    assert!(rt; !set.has(ServiceId(0)));
    Ok(())
}

#[test]
fn a_first_plan_is_over_all_services(rt: HostRuntime) {
    let plan = Plan::even(2, 1);
    assert_eq!(rt; plan.rows(), [row(0, 1), row(1, 1)].as_slice());
}

#[test]
fn the_first_services_are_a_set(rt: HostRuntime) {
    let set = ServiceSet::all(2);
    assert!(rt; is_set(&set, &[ServiceId(0), ServiceId(1)]));
    assert_eq!(rt; set.len(), 2);
}

/// The generation and the format in force, how many services there are, and whether the plan of generation 2 and
/// format 1 over three services goes on.
const PLANS_OF_FORMAT_1: [(u32, u32, u32, bool); 6] = [
    (1, 1, 3, true),
    (2, 1, 3, true),
    (2, 1, 16, true),
    (3, 1, 3, false),
    (1, 1, 2, false),
    (1, 2, 3, false),
];

/// A push with this plan.
fn plan_entry(plan: Option<Plan>) -> Entry {
    Entry { plan, ..push() }
}

#[test]
fn links_on_table(rt: HostRuntime) {
    let entry = plan_entry(conf_plan(2));
    for (generation, format, services, links) in PLANS_OF_FORMAT_1 {
        assert_eq!(rt;
            links_on(&ZEROS, generation, format, services, &entry),
            links
        );
    }
}

#[test]
fn a_plan_of_format_2_links_on_to_both_formats(rt: HostRuntime) {
    let plan = Plan::new(2, 2, 1, 1000, &[row(0, 1000)]);
    let entry = plan_entry(plan);
    assert!(rt; links_on(&ZEROS, 2, 1, 1, &entry));
    assert!(rt; links_on(&ZEROS, 2, 2, 1, &entry));
}

#[test]
fn a_push_names_the_member_before(rt: HostRuntime) {
    assert!(rt; links_on(&ZEROS, 9, 2, 1, &push()));
    assert!(rt; !links_on(&ONES, 9, 2, 1, &push()));
}

#[test]
fn ballots_go_by_round_and_then_by_client(rt: HostRuntime) {
    assert!(rt; ballot(1, 15).is_below(ballot(2, 0)));
    assert!(rt; ballot(2, 0).is_below(ballot(2, 1)));
    assert!(rt; !ballot(2, 1).is_below(ballot(2, 1)));
    assert!(rt; !ballot(2, 0).is_below(ballot(1, 15)));
}
