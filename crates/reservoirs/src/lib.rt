//! Area tables of reservoirs: their areas, what evaporates, and what a reservoir closes with.
#![tactic(auto)]

ghost use Rattle.std.specs.Prelude.{◌≡◌, ◌+◌, ◌-◌, ◌*◌, ◌/◌, ◌^◌, ◌<◌, ◌≤◌, length, sum, All, None, IfNone, IfOk, OnOk};
ghost use Rattle.std.specs.Prelude.{IfErr};
ghost use Rattle.water_model.specs.Hydrology.{area_at, area_from, evaporation};
ghost use Rattle.water_model.specs.Valid.{IsAreaTable, RisesFrom};
ghost use Rattle.reservoirs.specs.AreaFaults.{table_fault, fault_after, IsTableRefusal};

use std::alloc::Global;
use std::marker::Model;
use thiserror::Error;
use water_model::types::AreaPoint;

pub mod laws;

/// Why a list of points is no area table. Points are numbered from 0.
#[derive(Clone, Copy, Debug, PartialEq, Eq, Error)]
pub enum TableRefused {
    #[error("an area table has no point")]
    Empty,
    #[error("an area table doesn't begin at storage 0")]
    FirstNotZero,
    #[error("the storage of point {0} isn't above the one before")]
    NotRising(u32),
    #[error("the area of point {0} is below the one before")]
    AreaFalls(u32),
    #[error("out of memory")]
    OutOfMemory,
}

/// The surface of a reservoir, in hectares, at rising storages in units of 1,000 cubic metres. It begins at storage 0,
/// and no area is below the one before. Contracts see it as the list of its points.
#[derive(Drop)]
pub struct AreaTable {
    points: Vec<AreaPoint>,
}

impl Model for AreaTable {
    ghost use Rattle.std.specs.Prelude.{List};
    ghost use Rattle.water_model.specs.declared.types.AreaPoint.{AreaPoint};

    ghost Value = { List AreaPoint };

    ghost view = { λ t. t.points.items };

    ghost use Rattle.water_model.specs.Valid.{IsAreaTable};

    ghost invariant = { λ t. IsAreaTable t.points.items };
}

/// The first fault of the points after one.
fn fault_after(first: AreaPoint, rest: &[AreaPoint]) -> Option<TableRefused>
    requires { length rest.now ≤ 64 }
    ensures { result ≡ fault_after first 1 rest.now }
{
    let mut before = first;
    for (i, point) in rest.iter().enumerate() {
        let number = i as u32 + 1;
        if point.storage <= before.storage {
            return Some(TableRefused::NotRising(number));
        }
        if point.area < before.area {
            return Some(TableRefused::AreaFalls(number));
        }
        before = *point;
    }
    None
}

fn first_fault(points: &[AreaPoint]) -> Option<TableRefused>
    requires { length points.now ≤ 64 }
    ensures { result ≡ table_fault points.now }
{
    match points {
        [] => Some(TableRefused::Empty),
        [first, rest @ ..] => {
            if first.storage == 0 {
                fault_after(*first, rest)
            } else {
                Some(TableRefused::FirstNotZero)
            }
        }
    }
}

/// The first fault of a list of at most 64 points, or `None` where it is an area table. It never names want of memory.
///
/// `FirstNotZero` comes where the first storage isn't 0. After it the first point at fault decides: it is `NotRising`
/// where its storage isn't above the one before, and else `AreaFalls` where its area is below the one before.
#[tactic(auto, using(crate::proofs::Tables::sound_by))]
pub fn table_fault(points: &[AreaPoint]) -> Option<TableRefused>
    requires { length points.now ≤ 64 }
    ensures first { result ≡ table_fault points.now }
    ensures sound { IfNone result (IsAreaTable points.now) }
{
    first_fault(points)
}

/// The area at a storage between two points, rounded down.
fn area_between(before: AreaPoint, after: AreaPoint, storage: u64) -> u64
    requires from { before.storage ≤ storage }
    requires below { storage < after.storage }
    requires rises { before.area ≤ after.area }
    ensures { result ≡ before.area + (storage - before.storage) * (after.area - before.area) /
        (after.storage - before.storage) }
{
    let filled = u128::from(storage - before.storage);
    let rise = u128::from(after.area - before.area);
    let width = u128::from(after.storage - before.storage);
    before.area + (filled * rise / width) as u64
}

/// The area at a storage that isn't below the first point.
fn area_after(first: AreaPoint, rest: &[AreaPoint], storage: u64) -> u64
    requires rises { RisesFrom first rest.now }
    requires from { first.storage ≤ storage }
    ensures { result ≡ area_from first rest.now storage }
{
    let mut last = first;
    for point in rest {
        if storage < point.storage {
            return area_between(last, *point, storage);
        }
        last = *point;
    }
    last.area
}

/// What a reservoir holds when the month ends, in units of 1,000 cubic metres: the sum of what its zones took. It has
/// at most 16 zones.
pub fn close(fills: &[u64]) -> u64
    requires bounded { length fills.now ≤ 16 }
    requires each { All (λ n. n ≤ 10 ^ 9) fills.now }
    ensures { result ≡ sum fills.now }
{
    let mut closing = 0;
    for fill in fills {
        closing += *fill;
    }
    closing
}

impl AreaTable {
    /// The table with these points, at most 64, or their first fault. The points are copied, which takes memory, after
    /// the look for faults: `OutOfMemory` comes only where it runs out, and only for a list without fault.
    pub fn build(alloc: Global, points: &[AreaPoint]) -> Result<AreaTable, TableRefused>
        requires { length points.now ≤ 64 }
        ensures ok { IfOk result (λ table. table ≡ points.now) }
        ensures sound { OnOk result (IsAreaTable points.now) }
        ensures faultless { OnOk result (table_fault points.now ≡ None) }
        ensures refused { IfErr result (λ e. IsTableRefusal e points.now) }
    {
        if let Some(fault) = table_fault(points) {
            return Err(fault);
        }
        match Vec::from_slice(alloc, points) {
            Ok(points) => Ok(AreaTable { points }),
            Err(_) => Err(TableRefused::OutOfMemory),
        }
    }

    /// The area at a storage, in hectares, interpolated between the points beside it and rounded down. Beyond the last
    /// point it is the area of that point. The cost is linear in the points.
    pub fn area(&self, storage: u64) -> u64
        ensures { result ≡ area_at self.now storage }
    {
        match self.points.as_slice() {
            [] => 0,
            [first, rest @ ..] => area_after(*first, rest, storage),
        }
    }

    /// What evaporates in a month from a reservoir that holds this storage, in units of 1,000 cubic metres: the rate,
    /// in millimetres a month, times the area, rounded down, and at most the storage.
    pub fn evaporation(&self, storage: u64, rate: u64) -> u64
        ensures { result ≡ evaporation self.now storage rate }
    {
        let lost = u128::from(rate) * u128::from(self.area(storage)) / 100;
        lost.min(u128::from(storage)) as u64
    }
}
