//! Reports of generated basins against a program of its own, which tries flows right by right.
ghost use Rattle.std.specs.Prelude.{◌≡◌, ◌<◌, ◌≤◌};
ghost use Rattle.water_model.specs.Valid.{IsSeriesOf, IsValidBasin};

use basin_gen::make;
use memory_edge::MemorySink;
use month_fold::work::Work;
use reports::{period_report, trial_report};
use std::alloc::Global;
use std::marker::Brand;
use std::process::Abort;
use std::sync::ledger::{Blank, Ledger};
use std::test::Fail;
use water_model::types::{Basin, Series};

/// Compares the report of a basin.
fn compare_report<R: Abort, P: Ledger, M: Ledger>(
    rt: &R,
    alloc: Global,
    basin: &Basin,
    series: &Series,
    want: &str,
    work: &mut Work<P, M>,
) -> Result<(), Fail>
    requires basin { IsValidBasin basin.now }
    requires series { IsSeriesOf basin.now series.now }
{
    let mut report = MemorySink::new(alloc, 4096, Vec::new(alloc))?;
    period_report(alloc, basin, series, &mut report, work)?;
    assert_eq!(rt;
        report.bytes(),
        want.as_bytes(),
        "report of {}",
        basin.nodes.len()
    );
    Ok(())
}

/// Compares the summary of the basin of a size, number 7.
fn compare_summary<R: Abort, P: Ledger, M: Ledger>(
    rt: &R,
    alloc: Global,
    size: u32,
    basin: &Basin,
    series: &Series,
    want: &str,
    work: &mut Work<P, M>,
) -> Result<(), Fail>
    requires basin { IsValidBasin basin.now }
    requires series { IsSeriesOf basin.now series.now }
{
    let mut summary = MemorySink::new(alloc, 4096, Vec::new(alloc))?;
    trial_report(alloc, 7, size, basin, series, &mut summary, work)?;
    assert_eq!(rt; summary.bytes(), want.as_bytes(), "summary of {size}");
    Ok(())
}

/// Compares the report and the summary of the basin of a size.
fn compare_texts<R: Abort, P: Ledger, M: Ledger>(
    rt: &R,
    alloc: Global,
    size: u32,
    basin: &Basin,
    series: &Series,
    want: (&str, &str),
    work: &mut Work<P, M>,
) -> Result<(), Fail>
    requires basin { IsValidBasin basin.now }
    requires series { IsSeriesOf basin.now series.now }
{
    compare_report(rt, alloc, basin, series, want.0, work)?;
    compare_summary(rt, alloc, size, basin, series, want.1, work)
}

/// Makes the basin of a size, number 7, and compares its texts.
fn compare_made<R: Abort, P: Ledger, M: Ledger>(
    rt: &R,
    alloc: Global,
    pushes: Blank,
    months: Blank,
    size: u32,
    want: (&str, &str),
) -> Result<(), Fail>
    requires pushes_name { pushes.name ≡ P.name }
    requires pushes_parts { pushes.parts ≡ P.parts }
    requires pushes_some { 0 < P.parts }
    requires months_name { months.name ≡ M.name }
    requires months_parts { months.parts ≡ M.parts }
    requires months_some { 0 < M.parts }
    requires least { 2 ≤ size }
    requires most { size ≤ 2000 }
{
    let (basin, series) = make(alloc, 7, size)?;
    let mut work = Work::<P, M>::new(pushes, months);
    let compared = compare_texts(rt, alloc, size, &basin, &series, want, &mut work);
    drop(series);
    drop(basin);
    compared
}

/// Without rights all water flows out: five times what flows in in a year.
const RIVER: (&str, &str) = (
    "report 1950-10 60\nbalance 0 2355 0 0 0 0 2355\ndone 60\n",
    "trial 7 2\nsize 2 1 0 60\nwanted 0\ndelivered 0\nshort 0\ncalled 0\nbalance 0 2355 0 0 0 0 2355\ndone 60\n",
);

/// Rights of all kinds, short in some months, in all and in none.
const BASIN: (&str, &str) = (
    "report 1950-10 60\n\
     right z0a 0 14940 14940 -\n\
     right z1a 0 9300 9300 -\n\
     right d0 60 13800 2355 1951-04\n\
     right d1 60 5880 3410 1951-02\n\
     right s3 0 16740 16740 -\n\
     right d2 60 17820 0 1950-10\n\
     right z0b 0 12840 12840 -\n\
     right z1b 34 5700 4631 1952-01\n\
     balance 554 131165 1030 713 2405 5765 123866\n\
     done 60\n",
    "trial 7 85\n\
     size 85 105 8 60\n\
     wanted 97020\n\
     delivered 64216\n\
     short 214\n\
     called 60\n\
     balance 554 131165 1030 713 2405 5765 123866\n\
     done 60\n",
);

#[test]
fn reports_generated_basins(rt: HostRuntime) -> Result<(), Fail> {
    for (size, want) in [(2, RIVER), (85, BASIN)] {
        let pushes = Blank::new(1);
        let months = Blank::new(1);
        compare_made::<HostRuntime, Brand, Brand>(&rt, rt.alloc(), pushes, months, size, want)?;
    }
    Ok(())
}
