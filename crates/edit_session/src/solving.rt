//! Months solved and kept.
ghost use Rattle.std.specs.Prelude.{◌≡◌, ◌+◌, ◌-◌, ◌<◌, ◌≤◌, ◌++◌, ◌∷◌, [], take, vec_len, OnOk, OnErr};
ghost use Rattle.water_model.specs.Valid.{IsValidBasin, IsSeriesOf};
ghost use Rattle.month_fold.specs.Runs.{RunStandsFor, run_with};
ghost use Rattle.month_fold.specs.Works.{Solves};
ghost use Rattle.edit_session.specs.Sessions.{HasKeptMonths, records_of};

use month_fold::engine::Engine;
use month_fold::work::Work;
use std::alloc::{AllocError, Global};
use std::sync::ledger::Ledger;
use water_model::types::{MonthRecord, Series};

/// Keeps a copy of a record after those that are kept. After an AllocError those before are kept.
fn keep(
    alloc: Global,
    month: &MonthRecord,
    kept: &mut Vec<Box<MonthRecord>>,
) -> Result<(), AllocError>
    ensures records { OnOk result
        (records_of kept.new.items ≡ records_of kept.old.items ++ month.now ∷ []) }
    ensures stay { take (vec_len kept.old) kept.new.items ≡ kept.old.items }
    ensures count { OnOk result (vec_len kept.new ≡ vec_len kept.old + 1) }
    ensures same { OnErr result (kept.new.items ≡ kept.old.items) }
{
    kept.push(month.copy(alloc)?)?;
    Ok(())
}

/// Solves the month of this index, after those that are kept, and keeps its record too. After an AllocError those
/// before are kept.
fn add_month<P: Ledger, M: Ledger>(
    alloc: Global,
    engine: &mut Engine,
    series: &Series,
    index: u32,
    kept: &mut Vec<Box<MonthRecord>>,
    work: &mut Work<P, M>,
) -> Result<(), AllocError>
    requires left { index < engine.old.basin.months }
    requires stands { RunStandsFor (run_with engine.old series.now index) (records_of kept.old.items) }
    ensures basin { engine.new.basin ≡ engine.old.basin }
    ensures stands { OnOk result
        (RunStandsFor (run_with engine.new series.now (index + 1)) (records_of kept.new.items)) }
    ensures stay { take (vec_len kept.old) kept.new.items ≡ kept.old.items }
    ensures count { OnOk result (vec_len kept.new ≡ vec_len kept.old + 1) }
    ensures same { OnErr result (kept.new.items ≡ kept.old.items) }
    ensures work { Solves 1 engine.old.basin work.old work.new }
{
    engine.step(series, index, work);
    keep(alloc, engine.month(), kept)?;
    Ok(())
}

/// Solves the months after those that are kept until `count` are kept. After an AllocError some months more may be
/// kept.
pub fn solve_months<P: Ledger, M: Ledger>(
    alloc: Global,
    engine: &mut Engine,
    series: &Series,
    count: u32,
    kept: &mut Vec<Box<MonthRecord>>,
    work: &mut Work<P, M>,
) -> Result<(), AllocError>
    requires basin { IsValidBasin engine.old.basin }
    requires series { IsSeriesOf engine.old.basin series.now }
    requires count { count ≤ engine.old.basin.months }
    requires more { vec_len kept.old ≤ count }
    requires kept { HasKeptMonths (record {
      basin = engine.old.basin;
      series = series.now;
      kept = records_of kept.old.items;
    }) }
    ensures basin { engine.new.basin ≡ engine.old.basin }
    ensures kept { HasKeptMonths (record {
      basin = engine.old.basin;
      series = series.now;
      kept = records_of kept.new.items;
    }) }
    ensures stay { take (vec_len kept.old) kept.new.items ≡ kept.old.items }
    ensures solved { OnOk result (vec_len kept.new ≡ count) }
    ensures bounded { vec_len kept.new ≤ count }
    ensures work { Solves (count - vec_len kept.old) engine.old.basin work.old work.new }
{
    engine.start_after(kept.as_slice());
    for index in kept.len() as u32..count {
        add_month(alloc, engine, series, index, kept, work)?;
    }
    Ok(())
}
