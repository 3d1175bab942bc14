ghost use Rattle.std.specs.Prelude.{◌≤◌, ◌^◌, All, IsTrue};

use reservoirs::{AreaTable, TableRefused, close};
use std::alloc::{AllocError, Global};
use std::process::Abort;
use std::test::Fail;
use water_model::types::AreaPoint;

// The points of a table, from storages and areas.
fn points_of(alloc: Global, rows: &[(u64, u64)]) -> Result<Vec<AreaPoint>, AllocError> {
    let mut points = Vec::new(alloc);
    for (storage, area) in rows {
        points.push(AreaPoint {
            storage: *storage,
            area: *area,
        })?;
    }
    Ok(points)
}

const LEVEL: [(u64, u64); 1] = [(0, 7)];

const SLOPE: [(u64, u64); 2] = [(0, 0), (100, 50)];

const STEEP: [(u64, u64); 2] = [(0, 0), (3, 1_000)];

const BENT: [(u64, u64); 3] = [(0, 5), (10, 5), (13, 11)];

const GREATEST: [(u64, u64); 2] = [(0, 0), (16_000_000_000, 1_000_000_000)];

// A table, a storage, the area there, a rate, and what evaporates.
static ROWS: [(&[(u64, u64)], u64, u64, u64, u64); 25] = [
    (&LEVEL, 0, 7, 100, 0),
    (&LEVEL, 1_000, 7, 100, 7),
    (&SLOPE, 0, 0, 120, 0),
    (&SLOPE, 1, 0, 10_000, 0),
    (&SLOPE, 20, 10, 40, 4),
    (&SLOPE, 60, 30, 0, 0),
    (&SLOPE, 60, 30, 40, 12),
    (&SLOPE, 60, 30, 120, 36),
    (&SLOPE, 99, 49, 120, 58),
    (&SLOPE, 100, 50, 120, 60),
    (&SLOPE, 101, 50, 120, 60),
    (&STEEP, 1, 333, 10, 1),
    (&STEEP, 2, 666, 10_000, 2),
    (&STEEP, 3, 1_000, 10_000, 3),
    (&BENT, 9, 5, 100, 5),
    (&BENT, 10, 5, 100, 5),
    (&BENT, 11, 7, 100, 7),
    (&BENT, 12, 9, 100, 9),
    (&BENT, 13, 11, 100, 11),
    (&BENT, 14, 11, 100, 11),
    (&GREATEST, 8_000_000_000, 500_000_000, 100, 500_000_000),
    (&GREATEST, 15_999_999_999, 999_999_999, 1, 9_999_999),
    (&GREATEST, 16_000_000_000, 1_000_000_000, 100, 1_000_000_000),
    (
        &GREATEST,
        16_000_000_000,
        1_000_000_000,
        10_000,
        16_000_000_000,
    ),
    (&GREATEST, u64::MAX, 1_000_000_000, u64::MAX, u64::MAX),
];

// The table of these points.
fn table_of(rt: &impl Abort, alloc: Global, rows: &[(u64, u64)]) -> Result<AreaTable, Fail> {
    let points = points_of(alloc, rows)?;
    assert!(rt; points.len() <= 64);
    Ok(AreaTable::build(alloc, &points)?)
}

// Compares an area, and what evaporates.
fn compare(rt: &impl Abort, table: &AreaTable, storage: u64, area: u64, rate: u64, lost: u64) {
    assert!(rt; table.area(storage) == area, "the area at {storage}");
    assert!(rt;
        table.evaporation(storage, rate) == lost,
        "at {storage} by {rate}"
    );
}

#[test]
fn areas_and_evaporation(rt: HostRuntime) -> Result<(), Fail> {
    for (rows, storage, area, rate, lost) in &ROWS {
        let table = table_of(&rt, rt.alloc(), rows)?;
        compare(&rt, &table, *storage, *area, *rate, *lost);
    }
    Ok(())
}

// The points of no table, and their first fault.
static FAULTS: [(&[(u64, u64)], TableRefused); 6] = [
    (&[], TableRefused::Empty),
    (&[(1, 0), (1, 0)], TableRefused::FirstNotZero),
    (&[(0, 0), (5, 1), (5, 2)], TableRefused::NotRising(2)),
    (&[(0, 3), (5, 1)], TableRefused::AreaFalls(1)),
    // at one point the storage is looked at first, and an earlier point before both
    (&[(0, 3), (5, 3), (4, 1)], TableRefused::NotRising(2)),
    (&[(0, 3), (5, 2), (5, 2)], TableRefused::AreaFalls(1)),
];

// What a table of these points is refused for.
fn refusal(rt: &impl Abort, alloc: Global, points: &[AreaPoint]) -> Option<TableRefused> {
    assert!(rt; points.len() <= 64);
    AreaTable::build(alloc, points).err()
}

#[test]
fn refuses_the_first_point_at_fault(rt: HostRuntime) -> Result<(), AllocError> {
    for (rows, refused) in &FAULTS {
        let points = points_of(rt.alloc(), rows)?;
        assert_eq!(rt; refusal(&rt, rt.alloc(), &points), Some(*refused));
    }
    Ok(())
}

fn are_amounts(fills: &[u64]) -> bool
    ensures { IsTrue result → All (λ n. n ≤ 10 ^ 9) fills.now }
{
    fills.iter().all(|fill| *fill <= 1_000_000_000)
}

// What the zones took, and the closing.
static CLOSINGS: [(&[u64], u64); 4] = [
    (&[], 0),
    (&[5], 5),
    (&[3, 0, 4], 7),
    (&[1_000_000_000; 16], 16_000_000_000),
];

#[test]
fn closes_with_what_the_zones_took(rt: HostRuntime) {
    for (fills, closing) in &CLOSINGS {
        assert!(rt; fills.len() <= 16);
        assert!(rt; are_amounts(fills));
        assert_eq!(rt; close(fills), *closing);
    }
}
