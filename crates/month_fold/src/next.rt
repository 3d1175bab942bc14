//! One month more.
ghost use Rattle.std.specs.Prelude.{ℕ, List, ◌≡◌, ◌+◌, ◌^◌, ◌<◌, ◌≤◌, ◌++◌, ◌∷◌, [], All, length, map, slice_index};
ghost use Rattle.lag_returns.specs.Lags.{HasReturned, return_rows};
ghost use Rattle.lag_returns.specs.Lags as lag;
ghost use Rattle.month_terms.specs.Calendars.{IsCalendar};
ghost use Rattle.month_terms.specs.Terms.{FitsRecord, HasUsed};
ghost use Rattle.senior_hold.specs.MonthNetwork.{month_pushes};
ghost use Rattle.water_model.specs.Valid.{IsValidBasin};
ghost use Rattle.water_model.specs.declared.types.MonthRecord.{MonthRecord};
ghost use Rattle.month_fold.specs.Uses.{HasDeliveries};
ghost use Rattle.month_fold.specs.Runs.{WentThrough, HasRecords, IsNext, run_with};

use lag_returns::Lags;
use month_terms::calendar::Calendar;
use month_terms::month::{conclude, settle};
use month_terms::used::use_month;
use reservoirs::AreaTable;
use senior_hold::Solver;
use std::sync::ledger::Ledger;
use steps::Steps;
use water_model::rows::Rows;
use water_model::types::{Basin, MonthRecord, Series};

/// Writes what comes back to each node this month into its record, and what each right used of its volume before.
fn write_returns(basin: &Basin, lags: &Lags, used: &[u64], month: &mut MonthRecord)
    requires basin { IsValidBasin basin.now }
    requires rows { return_rows lags.now ≡ basin.now.returns }
    requires returned { length month.old.returned ≡ length basin.now.nodes }
    requires used { length month.old.used ≡ length used.now }
    ensures each { (deliveries : List (List ℕ)) → lag.LagsStandFor lags.now basin.now.returns deliveries →
        HasReturned basin.now deliveries month.new.returned }
    ensures used { month.new.used ≡ used.now }
    ensures rest { month.new ≡ record month.old { returned = month.new.returned; used = month.new.used } }
    ensures length { length month.new.returned ≡ length month.old.returned }
{
    lags.write_returns(basin, &mut month.returned);
    month.used.as_mut_slice().copy_from_slice(used);
}

/// Goes on to the month after the one with this index and record: `used` is what each right with a volume used of it
/// before this month, and then before the month after it.
pub fn use_volumes(basin: &Basin, index: u32, month: &MonthRecord, used: &mut Rows<u64>)
    requires basin { IsValidBasin basin.now }
    requires index { index < basin.now.months }
    requires deliveries { HasDeliveries basin.now month.now }
    requires used { length used.old ≡ length basin.now.rights }
    requires little { (r : ℕ) → r < length basin.now.rights → slice_index used.old r ≤ 10 ^ 15 }
    ensures { (deliveries : List (List ℕ)) → length deliveries ≡ index → HasUsed basin.now deliveries used.old →
        HasUsed basin.now (deliveries ++ month.now.delivered ∷ []) used.new }
{
    use_month(
        basin,
        index,
        month.delivered.as_slice(),
        used.as_mut_slice(),
    );
}

/// Solves the month with this index in a record that has the closing storage of the month before. `calendar` is the
/// basin's, `tables` has the area table of each reservoir, and `used` what each right used of its volume before in the
/// water year. Each search that finds a walk ticks `pushes` once. It takes no memory.
pub fn next_month<L: Ledger>(
    basin: &Basin,
    series: &Series,
    calendar: &Calendar,
    tables: &[AreaTable],
    lags: &Lags,
    used: &[u64],
    solver: &mut Solver,
    index: u32,
    month: &mut MonthRecord,
    pushes: &mut Steps<L>,
)
    requires calendar { IsCalendar basin.now calendar.now }
    requires tables { tables.now ≡ map (λ v. v.area) basin.now.reservoirs }
    requires solver { solver.old ≡ basin.now }
    requires index { index < basin.now.months }
    requires month { FitsRecord basin.now month.old }
    requires months { HasRecords (run_with
        (record { basin = basin.now; last = month.old; lags = lags.now; used = used.now }) series.now index) }
    ensures solver { solver.new ≡ solver.old }
    ensures fits { FitsRecord basin.now month.new }
    ensures small { All (λ n. n ≤ 10 ^ 9) month.new.delivered }
    ensures next { (records : List MonthRecord) →
        WentThrough (run_with
        (record { basin = basin.now; last = month.old; lags = lags.now; used = used.now }) series.now index) records →
        IsNext basin.now series.now records month.new }
    ensures pushes { pushes.new ≤ pushes.old + month_pushes basin.now }
{
    write_returns(basin, lags, used, month);
    settle(calendar, basin, series, tables, index, month);
    month.cuts.clear();
    solver.solve_month(
        month.month,
        month.supply.as_slice(),
        month.want.as_slice(),
        &mut month.plan,
        &mut month.cuts,
        pushes,
    );
    conclude(calendar, basin, month);
}
