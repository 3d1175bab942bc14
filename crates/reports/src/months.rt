//! All months of a run, one after the other.
ghost use Rattle.std.specs.Prelude.{List, [], ◌∷◌, ◌++◌, ◌≡◌, ◌+◌, ◌<◌, IfOk, OnErr};
ghost use Rattle.month_fold.specs.Runs.{GoesOn};
ghost use Rattle.month_fold.specs.Works.{Solves, SolvesRun};
ghost use Rattle.rights_roll.specs.Rolls.{IsRollOf};
ghost use Rattle.water_model.specs.Valid.{IsValidBasin, IsSeriesOf};
ghost use Rattle.water_model.specs.declared.types.Basin.{Basin};
ghost use Rattle.water_model.specs.declared.types.Series.{Series};
ghost use Rattle.water_model.specs.declared.types.MonthRecord.{MonthRecord};
ghost use Rattle.reports.specs.Tallies.{IsKeptBefore, IsKeptOf, IsKeptOfRun};

use month_fold::run::Run;
use month_fold::work::Work;
use rights_roll::roll::Roll;
use std::alloc::{AllocError, Global};
use std::sync::ledger::Ledger;
use water_model::types::{Basin, MonthRecord, Series};

/// What is kept of the months of a run, instead of the months.
pub trait Kept: Sized {
    /// It is of these months of a basin with a series.
    ghost is_of: { Basin → Series → List MonthRecord → Self → Type 0 };

    /// What is kept before the first month. AllocError comes where memory is lacking.
    fn open(alloc: Global, basin: &Basin) -> Result<Self, AllocError>
        requires { IsValidBasin basin.now }
        ensures { IfOk result (λ kept. (series : Series) → is_of basin.now series [] kept) };

    /// Adds the month that follows those so far.
    fn add(&mut self, basin: &Basin, series: &Series, roll: &Roll, month: &MonthRecord)
        requires basin { IsValidBasin basin.now }
        requires series { IsSeriesOf basin.now series.now }
        requires roll { IsRollOf basin.now.rights roll.now }
        requires next { IsKeptBefore is_of basin.now series.now self.old month.now }
        ensures { (records : List MonthRecord) → is_of basin.now series.now records self.old →
            is_of basin.now series.now (records ++ month.now ∷ []) self.new };
}

/// Solves the next month and adds it to what is kept.
fn keep_month<T: Kept, P: Ledger, M: Ledger>(kept: &mut T, run: &mut Run, work: &mut Work<P, M>)
    requires left { run.old.done < run.old.basin.months }
    requires kept { IsKeptOf T.is_of run.old kept.old }
    ensures goes_on { GoesOn run.old run.new }
    ensures done { run.new.done ≡ run.old.done + 1 }
    ensures kept { IsKeptOf T.is_of run.new kept.new }
    ensures work { Solves 1 run.old.basin work.old work.new }
{
    run.step(work);
    kept.add(run.basin(), run.series(), run.roll(), run.month());
}

/// Solves all months and adds them to what is kept.
fn keep_months<T: Kept, P: Ledger, M: Ledger>(kept: &mut T, run: &mut Run, work: &mut Work<P, M>)
    requires first { run.old.done ≡ 0 }
    requires kept { IsKeptOf T.is_of run.old kept.old }
    ensures goes_on { GoesOn run.old run.new }
    ensures kept { IsKeptOfRun T.is_of run.old.basin run.old.series kept.new }
    ensures work { SolvesRun run.old.basin work.old work.new }
{
    for _month in 0..run.basin().months {
        keep_month(kept, run, work);
    }
}

/// What is kept before the first month of a basin with a series, and the run that will solve it. AllocError comes where
/// memory is lacking.
fn opened<'b, 's, T: Kept>(
    alloc: Global,
    basin: &'b Basin,
    series: &'s Series,
) -> Result<(T, Run<'b, 's>), AllocError>
    requires basin { IsValidBasin basin.now }
    requires series { IsSeriesOf basin.now series.now }
    ensures first { IfOk result (λ all. all.1.done ≡ 0) }
    ensures basin { IfOk result (λ all. all.1.basin ≡ basin.now) }
    ensures series { IfOk result (λ all. all.1.series ≡ series.now) }
    ensures kept { IfOk result (λ all. IsKeptOf T.is_of all.1 all.0) }
{
    let mut run = Run::open(alloc, basin, series)?;
    // A report reads no flow.
    run.leave_flows();
    Ok((T::open(alloc, basin)?, run))
}

/// What is kept of all months of a basin with a series, and the run that solved them. AllocError comes where memory is
/// lacking, before a month is solved.
pub fn kept_of<'b, 's, T: Kept, P: Ledger, M: Ledger>(
    alloc: Global,
    basin: &'b Basin,
    series: &'s Series,
    work: &mut Work<P, M>,
) -> Result<(T, Run<'b, 's>), AllocError>
    requires basin { IsValidBasin basin.now }
    requires series { IsSeriesOf basin.now series.now }
    ensures kept { IfOk result (λ all. IsKeptOfRun T.is_of basin.now series.now all.0) }
    ensures run { IfOk result (λ all. all.1.basin ≡ basin.now) }
    ensures unsolved { OnErr result (work.new ≡ work.old) }
    ensures work { SolvesRun basin.now work.old work.new }
{
    let (mut kept, mut run) = opened::<T>(alloc, basin, series)?;
    keep_months(&mut kept, &mut run, work);
    Ok((kept, run))
}
