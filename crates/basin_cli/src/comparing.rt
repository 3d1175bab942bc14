//! The comparison of two runs.
ghost use Rattle.std.specs.Prelude.{[], ◌≡◌, ◌+◌, ◌-◌, ◌<◌, ◌++◌, length, flat_map, IfOk, OnOk};
ghost use Rattle.water_model.specs.Valid.{IsValidBasin, IsSeriesOf};
ghost use Rattle.water_text.specs.Months.{IsMonth};
ghost use Rattle.month_fold.specs.Runs.{RunStandsFor};
ghost use Rattle.month_fold.specs.Works.{Solves, SolvesBoth};
ghost use Rattle.injury.specs.Common.{common_rights, HaveDeliveries};
ghost use Rattle.injury.specs.Injuries.{injuries_of, injured_row, compared_row};
ghost use Rattle.water_edge.specs.Edge.{Rose};
ghost use Rattle.basin_cli.specs.Compared.{AreCompared, IsTextOfComparison, Compares, IsComparedEnd, ending_with};
ghost use Rattle.basin_cli.specs.Ending.{status_of};
ghost use Rattle.basin_cli.specs.Failed.{file_at};
ghost use Rattle.basin_cli.specs.Out.{IsRefusal, MayWrite};
ghost use Rattle.basin_cli.specs.Outcome.{IsQuiet};

use crate::draft::Draft;
use crate::ending::Ending;
use crate::flushing::put_whole;
use injury::{Pairing, put_compared};
use month_fold::run::Run;
use month_fold::work::Work;
use std::alloc::{AllocError, Global};
use std::sync::ledger::Ledger;
use water_edge::Sink;
use water_model::types::{Basin, MonthRecord, Series};

/// Appends the rows of a month's injuries and answers their number.
fn draft_injuries(
    draft: &mut Draft,
    pairing: &Pairing,
    basin: &Basin,
    first: &MonthRecord,
    second: &MonthRecord,
) -> Result<u32, AllocError>
    requires basin { IsValidBasin basin.now }
    requires month { IsMonth first.now.month }
    requires fits { length first.now.delivered ≡ length basin.now.rights }
    requires records { HaveDeliveries pairing.now first.now second.now }
    ensures number { IfOk result (λ count. count ≡ length (injuries_of pairing.now first.now second.now)) }
    ensures rows { OnOk result
        (draft.new.bytes.items ≡ draft.old.bytes.items ++ flat_map (injured_row basin.now)
        (injuries_of pairing.now first.now second.now)) }
{
    match pairing.put_injured(draft, basin, first, second) {
        Ok(count) => Ok(count),
        Err(_) => Err(AllocError),
    }
}

/// Solves the next month of both runs and appends the rows of its injuries. `injured` counts those of the months
/// before, and the answer those of this month too.
fn compare_month<P: Ledger, M: Ledger>(
    draft: &mut Draft,
    pairing: &Pairing,
    basin: &Basin,
    other: &Basin,
    first: &mut Run,
    second: &mut Run,
    injured: u32,
    work: &mut Work<P, M>,
) -> Result<u32, AllocError>
    requires basin { IsValidBasin basin.now }
    requires other { IsValidBasin other.now }
    requires pairing { pairing.now ≡ common_rights basin.now other.now }
    requires months { other.now.months ≡ basin.now.months }
    requires left { first.old.done < basin.now.months }
    requires abreast { second.old.done ≡ first.old.done }
    requires compared { AreCompared basin.now other.now first.old second.old draft.old.bytes.items injured }
    ensures series { first.new.series ≡ first.old.series }
    ensures other_series { second.new.series ≡ second.old.series }
    ensures done { OnOk result (first.new.done ≡ first.old.done + 1) }
    ensures abreast { OnOk result (second.new.done ≡ first.new.done) }
    ensures compared { IfOk result (AreCompared basin.now other.now first.new second.new draft.new.bytes.items) }
    ensures work { SolvesBoth 1 basin.now other.now work.old work.new }
{
    first.step(work);
    second.step(work);
    let count = draft_injuries(draft, pairing, basin, first.month(), second.month())?;
    Ok(injured + count)
}

/// Solves all months of both runs and appends the rows of their injuries. Answers how many there are.
fn compare_months<P: Ledger, M: Ledger>(
    draft: &mut Draft,
    pairing: &Pairing,
    basin: &Basin,
    other: &Basin,
    first: &mut Run,
    second: &mut Run,
    work: &mut Work<P, M>,
) -> Result<u32, AllocError>
    requires basin { IsValidBasin basin.now }
    requires other { IsValidBasin other.now }
    requires pairing { pairing.now ≡ common_rights basin.now other.now }
    requires months { other.now.months ≡ basin.now.months }
    requires fresh { first.old.done ≡ 0 }
    requires abreast { second.old.done ≡ first.old.done }
    requires compared { AreCompared basin.now other.now first.old second.old draft.old.bytes.items 0 }
    ensures series { first.new.series ≡ first.old.series }
    ensures other_series { second.new.series ≡ second.old.series }
    ensures done { OnOk result (first.new.done ≡ basin.now.months) }
    ensures abreast { OnOk result (second.new.done ≡ first.new.done) }
    ensures compared { IfOk result (AreCompared basin.now other.now first.new second.new draft.new.bytes.items) }
    ensures work { SolvesBoth basin.now.months basin.now other.now work.old work.new }
{
    let mut injured = 0;
    for _month in 0..basin.months {
        injured = compare_month(draft, pairing, basin, other, first, second, injured, work)?;
    }
    Ok(injured)
}

/// Appends the row of the counts.
fn draft_counts(draft: &mut Draft, pairing: &Pairing, injured: u32) -> Result<(), AllocError>
    ensures { OnOk result (draft.new.bytes.items ≡ draft.old.bytes.items ++ compared_row (length pairing.now) injured) }
{
    match put_compared(draft, pairing.common().len() as u32, injured) {
        Ok(()) => Ok(()),
        Err(_) => Err(AllocError),
    }
}

/// Solves all months of two runs that had none, and drafts their comparison. Answers the number of injuries in it.
fn draft_runs<P: Ledger, M: Ledger>(
    draft: &mut Draft,
    pairing: &Pairing,
    basin: &Basin,
    other: &Basin,
    first: &mut Run,
    second: &mut Run,
    work: &mut Work<P, M>,
) -> Result<u32, AllocError>
    requires basin { IsValidBasin basin.now }
    requires other { IsValidBasin other.now }
    requires pairing { pairing.now ≡ common_rights basin.now other.now }
    requires months { other.now.months ≡ basin.now.months }
    requires empty { draft.old.bytes.items ≡ [] }
    requires first { (first.old.basin ≡ basin.now) × RunStandsFor first.old [] }
    requires second { (second.old.basin ≡ other.now) × RunStandsFor second.old [] }
    ensures text { IfOk result
        (IsTextOfComparison basin.now other.now first.old.series second.old.series draft.new.bytes.items) }
    ensures work { SolvesBoth basin.now.months basin.now other.now work.old work.new }
{
    let injured = compare_months(draft, pairing, basin, other, first, second, work)?;
    draft_counts(draft, pairing, injured)?;
    Ok(injured)
}

/// Drafts the comparison of a run that had no month and the run of another basin.
fn draft_beside<P: Ledger, M: Ledger>(
    alloc: Global,
    draft: &mut Draft,
    pairing: &Pairing,
    basin: &Basin,
    other: &Basin,
    first: &mut Run,
    other_series: &Series,
    work: &mut Work<P, M>,
) -> Result<u32, AllocError>
    requires basin { IsValidBasin basin.now }
    requires other { IsValidBasin other.now }
    requires pairing { pairing.now ≡ common_rights basin.now other.now }
    requires months { other.now.months ≡ basin.now.months }
    requires empty { draft.old.bytes.items ≡ [] }
    requires first { (first.old.basin ≡ basin.now) × RunStandsFor first.old [] }
    requires other_series { IsSeriesOf other.now other_series.now }
    ensures text { IfOk result
        (IsTextOfComparison basin.now other.now first.old.series other_series.now draft.new.bytes.items) }
    ensures work { SolvesBoth basin.now.months basin.now other.now work.old work.new }
{
    let mut second = Run::open(alloc, other, other_series)?;
    let drafted = draft_runs(draft, pairing, basin, other, first, &mut second, work);
    drop(second);
    drafted
}

/// Drafts the comparison of the runs of two basins.
fn draft_comparison<P: Ledger, M: Ledger>(
    alloc: Global,
    draft: &mut Draft,
    pairing: &Pairing,
    basin: &Basin,
    other: &Basin,
    series: &Series,
    other_series: &Series,
    work: &mut Work<P, M>,
) -> Result<u32, AllocError>
    requires basin { IsValidBasin basin.now }
    requires other { IsValidBasin other.now }
    requires pairing { pairing.now ≡ common_rights basin.now other.now }
    requires months { other.now.months ≡ basin.now.months }
    requires empty { draft.old.bytes.items ≡ [] }
    requires series { IsSeriesOf basin.now series.now }
    requires other_series { IsSeriesOf other.now other_series.now }
    ensures text { IfOk result
        (IsTextOfComparison basin.now other.now series.now other_series.now draft.new.bytes.items) }
    ensures work { SolvesBoth basin.now.months basin.now other.now work.old work.new }
{
    let mut first = Run::open(alloc, basin, series)?;
    let drafted = draft_beside(
        alloc,
        draft,
        pairing,
        basin,
        other,
        &mut first,
        other_series,
        work,
    );
    drop(first);
    drafted
}

/// The comparison of two runs, before any of it is written, and the number of injuries in it.
pub fn text_of_comparison<P: Ledger, M: Ledger>(
    alloc: Global,
    basin: &Basin,
    other: &Basin,
    series: &Series,
    other_series: &Series,
    work: &mut Work<P, M>,
) -> Result<(Draft, u32), AllocError>
    requires basin { IsValidBasin basin.now }
    requires other { IsValidBasin other.now }
    requires months { other.now.months ≡ basin.now.months }
    requires series { IsSeriesOf basin.now series.now }
    requires other_series { IsSeriesOf other.now other_series.now }
    ensures text { IfOk result
        (λ drafted. IsTextOfComparison basin.now other.now series.now other_series.now drafted.0.bytes.items
        drafted.1) }
    ensures work { SolvesBoth basin.now.months basin.now other.now work.old work.new }
{
    let pairing = Pairing::build(alloc, basin, other)?;
    let mut draft = Draft {
        bytes: Vec::new(alloc),
        faults: 0,
    };
    let drafted = draft_comparison(
        alloc,
        &mut draft,
        &pairing,
        basin,
        other,
        series,
        other_series,
        work,
    );
    drop(pairing);
    Ok((draft, drafted?))
}

/// How a comparison with this many injuries ends.
fn ending_with(injured: u32) -> Ending
    ensures is { result ≡ ending_with injured }
    ensures ends { IsComparedEnd result }
    ensures at { file_at result ≡ None }
    ensures idle { IsRefusal (status_of result) → ⊥ }
{
    if injured == 0 {
        Ending::Done
    } else {
        Ending::Injured
    }
}

/// Solves the months of two basins, each with its series, and puts who is delivered less in the second.
pub fn compare_basins<K: Sink, P: Ledger, M: Ledger>(
    alloc: Global,
    basin: &Basin,
    other: &Basin,
    series: &Series,
    other_series: &Series,
    out: &mut K,
    work: &mut Work<P, M>,
) -> Ending
    requires basin { IsValidBasin basin.now }
    requires other { IsValidBasin other.now }
    requires months { other.now.months ≡ basin.now.months }
    requires series { IsSeriesOf basin.now series.now }
    requires other_series { IsSeriesOf other.now other_series.now }
    ensures compares { MayWrite (status_of result) →
        Compares basin.now other.now series.now other_series.now result (Rose (K.faults out.old) (K.faults out.new))
        (K.output out.old) (K.output out.new) }
    ensures out_stays { (MayWrite (status_of result) → ⊥) → out.new ≡ out.old }
    ensures ends { IsComparedEnd result }
    ensures at { file_at result ≡ None }
    ensures idle { IsRefusal (status_of result) → ⊥ }
    ensures work { SolvesBoth basin.now.months basin.now other.now work.old work.new }
    ensures flushed { IsQuiet (status_of result) → (K.output out.new).flushed ≡ (K.output out.new).taken }
{
    let (text, injured) = match text_of_comparison(
        alloc,
        basin,
        other,
        series,
        other_series,
        work,
    ) {
        Ok(drafted) => drafted,
        Err(_) => return Ending::OutOfMemory,
    };
    match put_whole(out, &text.bytes) {
        Ok(()) => ending_with(injured),
        Err(_) => Ending::WriteFault,
    }
}
