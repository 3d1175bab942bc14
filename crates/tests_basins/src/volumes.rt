//! Wants that a volume bounds, and the months with which water years begin.
ghost use Rattle.std.specs.Prelude.{IfOk};
ghost use Rattle.water_model.specs.Valid.{IsValidBasin, IsSeriesOf};

use crate::basins::basin_of;
use inflow_file::{HEADER, series_of_text};
use std::alloc::{AllocError, Global};
use std::process::Abort;
use std::test::Fail;
use water_model::calls::{begins_year, want_of};
use water_model::types::{Basin, Series};

/// A farm that wants 10 and may take 25 in a water year, which begins with March, and a town without a volume.
const BASIN: &str = r#"format = 2
first_month = "1900-01"
months = 24
year_start = 3
node = [{ name = "head", inflow = 20 }, { name = "mouth", outlet = true }]
link = [{ name = "a", from = "head", to = "mouth" }]
diversion = [
  { name = "farm", node = "head", date = "1900-01-01", want = 10, volume = 25 },
  { name = "town", node = "head", date = "1930-01-01", want = 8 },
]
"#;

/// What was used before in the water year, and what the farm wants then.
const WANTS: [(u64, u64); 7] = [
    (0, 10),
    (15, 10),
    (16, 9),
    (24, 1),
    (25, 0),
    (26, 0),
    (18_446_744_073_709_551_615, 0),
];

/// The series of a basin that has nothing in it.
fn series_of(alloc: Global, basin: &Basin) -> Result<Series, AllocError>
    requires { IsValidBasin basin.now }
    ensures { IfOk result (IsSeriesOf basin.now) }
{
    match series_of_text(alloc, basin, HEADER) {
        Ok(series) => Ok(series),
        Err(_) => Err(AllocError),
    }
}

/// Compares the wants of the farm and of the town.
fn expect_wants<R: Abort>(rt: &R, basin: &Basin, series: &Series)
    requires basin { IsValidBasin basin.now }
    requires series { IsSeriesOf basin.now series.now }
{
    assert!(rt; basin.rights.len() == 2 && basin.months == 24);
    for (used, want) in WANTS {
        assert_eq!(rt; want_of(basin, series, 0, 0, used), want);
        assert_eq!(rt; want_of(basin, series, 1, 23, used), 8);
    }
}

#[test]
fn wants_what_is_left_of_a_volume(rt: HostRuntime) -> Result<(), Fail> {
    let basin = basin_of(rt.alloc(), BASIN)?;
    let series = series_of(rt.alloc(), &basin)?;
    expect_wants(&rt, &basin, &series);
    Ok(())
}

/// Compares which months begin a year.
fn expect_begins<R: Abort>(rt: &R, basin: &Basin)
    requires { IsValidBasin basin.now }
{
    for index in 0..36u32 {
        assert_eq!(rt; begins_year(basin, index), index % 12 == 2);
    }
}

#[test]
fn begins_a_year_with_each_march(rt: HostRuntime) -> Result<(), Fail> {
    let basin = basin_of(rt.alloc(), BASIN)?;
    expect_begins(&rt, &basin);
    Ok(())
}
