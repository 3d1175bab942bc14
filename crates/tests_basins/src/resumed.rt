//! A run whose first month was solved by another run.
ghost use Rattle.std.specs.Prelude.{[], ◌∷◌, ◌≡◌, ◌<◌, map, IfOk};
ghost use Rattle.month_fold.specs.Runs.{RunStandsFor};
ghost use Rattle.water_model.specs.History.{IsPartialHistory};
ghost use Rattle.water_model.specs.Valid.{IsSeriesOf, IsValidBasin};

use crate::basins::basin_of;
use inflow_file::{HEADER, series_of_text};
use month_fold::run::Run;
use month_fold::work::Work;
use std::alloc::{AllocError, Global};
use std::marker::Brand;
use std::process::Abort;
use std::sync::ledger::{Blank, Ledger};
use std::test::Fail;
use water_model::rows::Rows;
use water_model::types::{Basin, MonthRecord, Series};

/// A lake from which a farm may take 30 in a water year, and a third of it comes back below a month later.
const BASIN: &str = r#"format = 2
first_month = "1900-01"
months = 3
node = [{ name = "lake", inflow = 10 }, { name = "mouth", outlet = true }]
link = [{ name = "a", from = "lake", to = "mouth" }]
reservoir = [{ node = "lake", opening = 20 }]
diversion = [{ name = "farm", node = "lake", date = "1900-01-01", want = 12, volume = 30 }]
zone = [{ name = "pool", reservoir = "lake", level = 1, date = "1910-01-01", want = 100 }]
return = [{ diversion = "farm", node = "mouth", part = 3333, lag = 1 }]
"#;

/// What the lake opens with, what the farm used before, what comes back at the mouth, what the farm is delivered, and
/// what the lake closes with: in the first month, and in the two after it. What comes back is 3.99 of 12, and 7.99 of
/// 24, each rounded down.
const FIRST: [u64; 5] = [20, 0, 0, 12, 18];

static LATER: [[u64; 5]; 2] = [[18, 12, 3, 12, 16], [16, 24, 4, 6, 20]];

/// The number at an index, or the greatest number if there is none.
fn number(amounts: &Rows<u64>, index: usize) -> u64 {
    amounts.as_slice().get(index).copied().unwrap_or(u64::MAX)
}

/// What is compared of a month.
fn numbers_of(month: &MonthRecord) -> [u64; 5] {
    [
        number(&month.opening, 0),
        number(&month.used, 0),
        number(&month.returned, 1),
        number(&month.delivered, 0),
        number(&month.closing, 0),
    ]
}

/// Solves the next month of a run, and compares it.
fn compare_month<R: Abort, P: Ledger, M: Ledger>(
    rt: &R,
    run: &mut Run,
    want: &[u64; 5],
    work: &mut Work<P, M>,
) {
    assert!(rt; run.left() > 0);
    run.step(work);
    assert_eq!(rt; numbers_of(run.month()), *want);
}

/// Solves the months that are left of a run, and compares each.
fn compare_later<R: Abort, P: Ledger, M: Ledger>(rt: &R, run: &mut Run, work: &mut Work<P, M>) {
    for want in &LATER {
        compare_month(rt, run, want, work);
    }
    assert!(rt; run.left() == 0);
}

/// Solves the first month of a run, compares it, and answers a copy of its record.
fn first_record<R: Abort, P: Ledger, M: Ledger>(
    rt: &R,
    alloc: Global,
    run: &mut Run,
    work: &mut Work<P, M>,
) -> Result<Box<MonthRecord>, AllocError>
    requires { RunStandsFor run.old [] }
    ensures basin { run.new.basin ≡ run.old.basin }
    ensures series { run.new.series ≡ run.old.series }
    ensures stands { RunStandsFor run.new (run.new.last ∷ []) }
    ensures copied { IfOk result (λ kept. kept.value ≡ run.new.last) }
{
    assert!(rt; run.left() == 3);
    run.step(work);
    assert_eq!(rt; numbers_of(run.month()), FIRST);
    run.month().copy(alloc)
}

/// The record of the first month of a basin with its series.
fn record_of<R: Abort, P: Ledger, M: Ledger>(
    rt: &R,
    alloc: Global,
    basin: &Basin,
    series: &Series,
    work: &mut Work<P, M>,
) -> Result<Box<MonthRecord>, AllocError>
    requires basin { IsValidBasin basin.now }
    requires series { IsSeriesOf basin.now series.now }
    ensures { IfOk result (λ kept. IsPartialHistory basin.now series.now (kept.value ∷ [])) }
{
    let mut run = Run::open(alloc, basin, series)?;
    let kept = first_record(rt, alloc, &mut run, work);
    drop(run);
    kept
}

/// Solves the months after these, and compares each.
fn solve_later<R: Abort, P: Ledger, M: Ledger>(
    rt: &R,
    alloc: Global,
    basin: &Basin,
    series: &Series,
    months: &[Box<MonthRecord>],
    work: &mut Work<P, M>,
) -> Result<(), AllocError>
    requires basin { IsValidBasin basin.now }
    requires series { IsSeriesOf basin.now series.now }
    requires months { IsPartialHistory basin.now series.now (map (λ m. m.value) months.now) }
{
    let mut run = Run::resume(alloc, basin, series, months)?;
    compare_later(rt, &mut run, work);
    drop(run);
    Ok(())
}

/// Solves the first month by one run, and those after it by another, which goes on from a copy of the first one's
/// record.
fn go_on<R: Abort, P: Ledger, M: Ledger>(
    rt: &R,
    alloc: Global,
    pushes: Blank,
    months: Blank,
    basin: &Basin,
    series: &Series,
) -> Result<(), Fail>
    requires pushes_name { pushes.name ≡ P.name }
    requires pushes_parts { pushes.parts ≡ P.parts }
    requires pushes_some { 0 < P.parts }
    requires months_name { months.name ≡ M.name }
    requires months_parts { months.parts ≡ M.parts }
    requires months_some { 0 < M.parts }
    requires basin { IsValidBasin basin.now }
    requires series { IsSeriesOf basin.now series.now }
{
    let mut work = Work::<P, M>::new(pushes, months);
    let mut kept = Vec::new(alloc);
    kept.push(record_of(rt, alloc, basin, series, &mut work)?)?;
    solve_later(rt, alloc, basin, series, kept.as_slice(), &mut work)?;
    Ok(())
}

/// Does so with one counter of pushes and one of months.
fn go_on_alone<R: Abort>(rt: &R, alloc: Global) -> Result<(), Fail> {
    let basin = basin_of(alloc, BASIN)?;
    let series = series_of_text(alloc, &basin, HEADER)?;
    go_on::<R, Brand, Brand>(rt, alloc, Blank::new(1), Blank::new(1), &basin, &series)
}

#[test]
fn goes_on_after_a_month(rt: HostRuntime) -> Result<(), Fail> {
    go_on_alone(&rt, rt.alloc())
}
