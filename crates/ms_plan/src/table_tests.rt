//! Orders that were known before: `bench/mapping_reference.py` computes them.

use crate::{Table, orders_are_sorted, stability};
use ms_base::{Name, ServiceId};
use ms_record::{Plan, PlanRow};
use std::alloc::Global;
use std::test::*;

/// The name of the object `B`, the empty blob.
const EMPTY_BLOB: &str = "df7e70e5021544f4834bbee64a9e3789febc4be81470df629cad6ddb03320a5c";

/// A row of a plan.
fn row(service: u32, capacity: u64) -> PlanRow {
    PlanRow {
        service: ServiceId(service),
        capacity,
    }
}

/// The table of a plan of generation 1 with these replicas, this unit and these rows.
fn table(alloc: Global, replicas: u32, unit: u64, rows: &[PlanRow]) -> Result<Table, &'static str> {
    let plan = Plan::new(1, 1, replicas, unit, rows).ok_or("a plan")?;
    Table::new(alloc, &plan).ok().ok_or("memory")
}

/// A name with these first two bytes.
fn name_from(first: u8, second: u8) -> Name {
    let mut bytes = [7; 32];
    bytes[0] = first;
    bytes[1] = second;
    Name(bytes)
}

/// A name in that slot, which is below 1,024.
fn name_in(slot: u32) -> Name {
    name_from((slot / 256 % 256) as u8, (slot % 256) as u8)
}

/// Whether these are the services with these numbers.
fn are(services: &[ServiceId], numbers: &[u32]) -> bool {
    services.len() == numbers.len() && services.iter().zip(numbers).all(|(s, n)| s.0 == *n)
}

/// Whether the first is the second without that service.
fn is_without(short: &[ServiceId], long: &[ServiceId], service: ServiceId) -> bool {
    let mut next = 0;
    for place in long {
        if *place != service {
            if next >= short.len() || short[next] != *place {
                return false;
            }
            next += 1;
        }
    }
    next == short.len()
}

#[test]
fn mapping_of_the_empty_blob(rt: HostRuntime) -> Result<(), Fail> {
    let alloc = rt.alloc();
    let rows = [row(0, 1000), row(1, 1000), row(2, 1000)];
    let blob = Name(
        <[u8; 32] as hex::FromHex>::from_hex(EMPTY_BLOB.as_bytes())
            .ok()
            .ok_or("a name")?,
    );
    let three = table(alloc, 2, 1000, &rows)?;
    assert!(rt; are(three.order(&blob), &[2, 0, 1]));
    assert!(rt; are(three.places(&blob), &[2, 0]));
    assert!(rt; are(three.order(&name_in(894)), &[2, 0, 1]));
    let two = table(alloc, 2, 1000, &[rows[0], rows[2]])?;
    assert!(rt; are(two.order(&blob), &[2, 0]));
    Ok(())
}

/// The first two bytes of names, and their slots.
const SLOTS: [(u8, u8, u32); 3] = [(0xe3, 0xb0, 944), (0xba, 0x78, 632), (0xdf, 0x7e, 894)];

fn has_slot(table: &Table, slot: &(u8, u8, u32)) -> bool {
    table.order(&name_from(slot.0, slot.1)) == table.order(&name_in(slot.2))
}

/// The table of services of one, five and sixteen copies.
fn three(alloc: Global) -> Result<Table, &'static str> {
    table(
        alloc,
        2,
        1000,
        &[row(0, 1000), row(3, 5000), row(15, 16000)],
    )
}

#[test]
fn slots_of_names(rt: HostRuntime) -> Result<(), Fail> {
    let table = three(rt.alloc())?;
    for slot in SLOTS {
        assert!(rt; has_slot(&table, &slot));
    }
    Ok(())
}

/// Whether the slot has this order, and its places are the first of it.
fn has_order(table: &Table, slot: u32, order: &[u32]) -> bool {
    let name = name_in(slot);
    let places = table.places(&name);
    are(table.order(&name), order)
        && places.len() <= order.len()
        && are(places, &order[..places.len()])
}

/// Orders of services of one, five and sixteen copies.
const ORDERS_OF_THREE: [(u32, [u32; 3]); 7] = [
    (0, [15, 0, 3]),
    (1, [3, 15, 0]),
    (7, [0, 3, 15]),
    (10, [0, 15, 3]),
    (512, [15, 3, 0]),
    (632, [15, 3, 0]),
    (1023, [3, 15, 0]),
];

#[test]
fn orders_of_several_copies(rt: HostRuntime) -> Result<(), Fail> {
    let table = three(rt.alloc())?;
    for line in ORDERS_OF_THREE {
        assert!(rt; has_order(&table, line.0, &line.1));
    }
    Ok(())
}

/// The table of sixteen services, of which service s has s + 1 copies.
fn sixteen(alloc: Global) -> Result<Table, &'static str> {
    let mut rows = [row(0, 10); 16];
    for i in 0..16u32 {
        rows[i as usize] = row(i, 7 * (u64::from(i) + 1) + 3);
    }
    table(alloc, 5, 7, &rows)
}

/// Orders of sixteen services.
const ORDERS_OF_SIXTEEN: [(u32, [u32; 16]); 4] = [
    (0, [15, 13, 14, 6, 9, 12, 0, 4, 8, 2, 5, 11, 3, 1, 10, 7]),
    (5, [7, 5, 11, 9, 14, 13, 10, 6, 15, 12, 8, 3, 1, 4, 2, 0]),
    (944, [13, 14, 4, 5, 15, 12, 10, 8, 11, 9, 6, 7, 3, 2, 1, 0]),
    (1023, [5, 8, 13, 9, 11, 3, 15, 12, 10, 4, 14, 7, 2, 6, 0, 1]),
];

#[test]
fn orders_of_sixteen_services(rt: HostRuntime) -> Result<(), Fail> {
    let table = sixteen(rt.alloc())?;
    for line in ORDERS_OF_SIXTEEN {
        assert!(rt; has_order(&table, line.0, &line.1));
    }
    Ok(())
}

#[test]
fn orders_without_a_service(rt: HostRuntime) -> Result<(), Fail> {
    // The laws ask nothing of their caller, and a call of them does nothing when the program runs.
    orders_are_sorted();
    stability();
    let alloc = rt.alloc();
    let rows = [row(0, 1000), row(3, 5000), row(4, 2999), row(15, 16000)];
    let four = table(alloc, 2, 1000, &rows)?;
    let three = table(alloc, 2, 1000, &[rows[0], rows[1], rows[3]])?;
    for slot in 0..1024 {
        let name = name_in(slot);
        assert!(rt; is_without(three.order(&name), four.order(&name), ServiceId(4)));
    }
    Ok(())
}

/// Sixteen services of 16 copies each.
#[test]
fn largest_table(rt: HostRuntime) -> Result<(), Fail> {
    let alloc = rt.alloc();
    let mut rows = [row(0, 16); 16];
    for i in 0..16u32 {
        rows[i as usize] = row(i, 16);
    }
    let table = table(alloc, 16, 1, &rows)?;
    let order = [15, 3, 5, 13, 14, 6, 9, 12, 0, 4, 11, 2, 8, 1, 7, 10];
    assert!(rt; are(table.places(&name_in(0)), &order));
    Ok(())
}
