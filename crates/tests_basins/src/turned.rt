//! A record that is begun in another of its years.
ghost use Rattle.std.specs.Prelude.{◌≡◌};
ghost use Rattle.water_model.specs.Valid.{IsValidBasin};

use crate::basins::basin_of;
use index_seq::rotate;
use inflow_file::series_of_text;
use std::alloc::{AllocError, Global};
use std::process::Abort;
use std::test::Fail;
use water_model::types::{Basin, Series};

/// Two gauges over two years from October on.
const BASIN: &str = r#"format = 1
first_month = "1900-10"
months = 24
node = [
  { name = "top", inflow = "gauged" },
  { name = "hill", inflow = "gauged" },
  { name = "mouth", outlet = true },
]
link = [{ name = "a", from = "top", to = "mouth" }, { name = "b", from = "hill", to = "mouth" }]
"#;

/// In each month the amount of `top` is the month's index in three calendar years from 1900 on, and that of `hill` 100
/// more.
fn record(alloc: Global) -> Result<String, Fail> {
    let mut text = String::from_str(alloc, "month,node,amount\n")?;
    for year in 0..3u32 {
        for month in 0..12u32 {
            let (number, place) = (1900 + year, year * 12 + month);
            let zero = if month < 9 { "0" } else { "" };
            let (next, far) = (month + 1, place + 100);
            let lines = format!(in alloc;
                "{number}-{zero}{next},top,{place}\n{number}-{zero}{next},hill,{far}\n"
            )?;
            text.push_str(lines.as_str())?;
        }
    }
    Ok(text)
}

/// The amounts of a month of the run are those of this index in the record.
fn expect_month<R: Abort>(rt: &R, series: &Series, month: usize, place: u64) {
    let amounts = series.amount.as_slice();
    assert!(rt; month < 24);
    assert_eq!(rt; amounts.get(2 * month), Some(&place));
    assert_eq!(rt;
        amounts.get(2 * month + 1),
        Some(&(place.saturating_add(100)))
    );
}

/// A gauge and its user, over two calendar years.
const USER: &str = r#"format = 1
first_month = "1900-01"
months = 24
node = [{ name = "top", inflow = "gauged" }, { name = "mouth", outlet = true }]
link = [{ name = "a", from = "top", to = "mouth" }]
diversion = [{ name = "user", node = "top", date = "1900-01-01", want = 10 }]
"#;

/// A dry year and a wet one: 4 in each month of 1900, and 12 in each of 1901.
fn dry_and_wet(alloc: Global) -> Result<String, Fail> {
    let mut text = String::from_str(alloc, "month,node,amount\n")?;
    for month in 1..13u32 {
        let zero = if month < 10 { "0" } else { "" };
        let lines = format!(in alloc; "1900-{zero}{month},top,4\n1901-{zero}{month},top,12\n")?;
        text.push_str(lines.as_str())?;
    }
    Ok(text)
}

/// The series that a text spells, begun in its second year.
fn begun_of<R: Abort>(
    rt: &R,
    alloc: Global,
    basin: &Basin,
    text: &str,
) -> Result<Series, AllocError>
    requires basin { IsValidBasin basin.now }
    requires months { basin.now.months ≡ 24 }
{
    let Ok(series) = series_of_text(alloc, basin, text.as_bytes()) else {
        panic!(rt; "the record is refused");
    };
    let begun = rotate(alloc, basin, &series, 1);
    drop(series);
    begun
}

/// A series has the wet year first, and then the dry one.
fn expect_wet_first<R: Abort>(rt: &R, begun: &Series) {
    assert_eq!(rt; begun.amount.len(), 24);
    for month in 0..12usize {
        assert_eq!(rt; begun.amount.as_slice().get(month), Some(&12));
        assert_eq!(rt; begun.amount.as_slice().get(month + 12), Some(&4));
    }
}

/// Begun in its second year the record has the wet year first and the dry one after it.
#[test]
fn begins_with_the_wet_year(rt: HostRuntime) -> Result<(), Fail> {
    let basin = basin_of(rt.alloc(), USER)?;
    assert_eq!(&rt; basin.months, 24);
    let text = dry_and_wet(rt.alloc())?;
    let begun = begun_of(&rt, rt.alloc(), &basin, text.as_str())?;
    expect_wet_first(&rt, &begun);
    Ok(())
}

/// A series has the indices 21 to 32 of the record, and then 9 to 20.
fn expect_second_first<R: Abort>(rt: &R, begun: &Series) {
    for month in 0..12usize {
        expect_month(rt, begun, month, month as u64 + 21);
        expect_month(rt, begun, month + 12, month as u64 + 9);
    }
    assert_eq!(rt; begun.amount.len(), 48);
    assert!(rt; begun.wanted.len() == 0 && begun.want.len() == 0);
}

/// The run goes from index 9 to index 32. Begun one year later it has the indices 21 to 32, and then 9 to 20.
#[test]
fn begins_in_the_second_year(rt: HostRuntime) -> Result<(), Fail> {
    let basin = basin_of(rt.alloc(), BASIN)?;
    assert_eq!(&rt; basin.months, 24);
    let text = record(rt.alloc())?;
    let begun = begun_of(&rt, rt.alloc(), &basin, text.as_str())?;
    expect_second_first(&rt, &begun);
    Ok(())
}
