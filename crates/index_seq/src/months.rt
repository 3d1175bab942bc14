//! A trace, month by month and year by year.
ghost use Rattle.std.specs.Prelude.{ℕ, ◌≡◌, ◌+◌, ◌*◌, ◌<◌, ◌≤◌, length, slice_index, IfOk, OnOk};
ghost use Rattle.water_model.specs.Valid.{IsValidBasin, IsSeriesOf};
ghost use Rattle.index_seq.specs.Sums.{IsWithinTrace, IsEmptyYear, HaveSums};
ghost use Rattle.index_seq.specs.Traces.{HasWholeYears, IsRotationOf, years_of};
ghost use Rattle.month_fold.specs.Works.{Solves, SolvesRun};

use crate::begun::rotate_series;
use crate::sums::{add_month, empty_sums, end_year};
use month_fold::engine::Engine;
use month_fold::run::Run;
use month_fold::work::Work;
use std::alloc::{AllocError, Global};
use std::sync::ledger::Ledger;
use water_model::blank::zeros;
use water_model::rows::Rows;
use water_model::types::{Basin, Series};

/// Where the traces stand: how many are whole, and how many years of the next, and how many months of its next year.
#[derive(Clone, Copy)]
struct Position {
    trace: u32,
    years: u32,
    months: u32,
}

/// Solves the next month of a trace and adds it to the year.
fn run_month<P: Ledger, M: Ledger>(
    basin: &Basin,
    series: &Series,
    at: Position,
    run: &mut Run,
    sums: &[Rows<u64>],
    year: &mut [u64],
    work: &mut Work<P, M>,
)
    requires left { run.old.done < basin.now.months }
    requires under_way { IsWithinTrace basin.now series.now at.trace at.years at.months run.old sums.now year.old }
    ensures done { run.new.done ≡ run.old.done + 1 }
    ensures under_way { IsWithinTrace basin.now series.now at.trace at.years (at.months + 1) run.new sums.now year.new }
    ensures work { Solves 1 basin.now work.old work.new }
{
    run.step(work);
    add_month(year, run.month());
}

/// Solves the months of the next year of a trace and sums them up.
fn run_year<P: Ledger, M: Ledger>(
    basin: &Basin,
    series: &Series,
    trace: u32,
    years: u32,
    run: &mut Run,
    sums: &[Rows<u64>],
    year: &mut [u64],
    work: &mut Work<P, M>,
)
    requires left { run.old.done + 12 ≤ basin.now.months }
    requires under_way { IsWithinTrace basin.now series.now trace years 0 run.old sums.now year.old }
    ensures done { run.new.done ≡ run.old.done + 12 }
    ensures under_way { IsWithinTrace basin.now series.now trace years 12 run.new sums.now year.new }
    ensures work { Solves 12 basin.now work.old work.new }
{
    for months in 0..12u32 {
        let at = Position {
            trace,
            years,
            months,
        };
        run_month(basin, series, at, run, sums, year, work);
    }
}

/// Solves the next year of a trace and adds it to the sums. AllocError comes where memory is lacking.
fn next_year<P: Ledger, M: Ledger>(
    basin: &Basin,
    series: &Series,
    trace: u32,
    years: u32,
    run: &mut Run,
    sums: &mut [Rows<u64>],
    year: &mut [u64],
    work: &mut Work<P, M>,
) -> Result<(), AllocError>
    requires left { run.old.done + 12 ≤ basin.now.months }
    requires under_way { IsWithinTrace basin.now series.now trace years 0 run.old sums.old year.old }
    ensures done { OnOk result (run.new.done ≡ run.old.done + 12) }
    ensures under_way { OnOk result (IsWithinTrace basin.now series.now trace (years + 1) 0 run.new sums.new year.new) }
    ensures zeros { OnOk result ((r : ℕ) → r < length basin.now.rights → slice_index year.new r ≡ 0) }
    ensures work { Solves 12 basin.now work.old work.new }
{
    run_year(basin, series, trace, years, run, sums, year, work);
    end_year(sums, year)?;
    Ok(())
}

/// Solves all years of a trace that had none yet. AllocError comes where memory is lacking.
fn run_years<P: Ledger, M: Ledger>(
    basin: &Basin,
    series: &Series,
    trace: u32,
    run: &mut Run,
    sums: &mut [Rows<u64>],
    year: &mut [u64],
    work: &mut Work<P, M>,
) -> Result<(), AllocError>
    requires whole { HasWholeYears basin.now }
    requires first { run.old.done ≡ 0 }
    requires under_way { IsWithinTrace basin.now series.now trace 0 0 run.old sums.old year.old }
    ensures under_way { OnOk result
        (IsWithinTrace basin.now series.now trace (years_of basin.now) 0 run.new sums.new year.new) }
    ensures work { SolvesRun basin.now work.old work.new }
{
    let count = basin.months / 12;
    for years in 0..count {
        next_year(basin, series, trace, years, run, sums, year, work)?;
    }
    Ok(())
}

/// Runs the record from one more of its years, and adds the years of this trace to the sums. `begun` is written over
/// with the trace's series. AllocError comes where memory is lacking.
fn run_trace<'b, P: Ledger, M: Ledger>(
    basin: &Basin,
    series: &Series,
    trace: u32,
    engine: Engine<'b>,
    begun: &mut Series,
    sums: &mut [Rows<u64>],
    year: &mut [u64],
    work: &mut Work<P, M>,
) -> Result<Engine<'b>, AllocError>
    requires basin { IsValidBasin basin.now }
    requires whole { HasWholeYears basin.now }
    requires series { IsSeriesOf basin.now series.now }
    requires trace { trace < years_of basin.now }
    requires engine { engine.basin ≡ basin.now }
    requires begun { IsRotationOf series.now begun.old }
    requires sums { HaveSums basin.now series.now trace sums.old }
    requires year { IsEmptyYear basin.now year.old }
    ensures engine { IfOk result (λ kept. kept.basin ≡ basin.now) }
    ensures begun { IsRotationOf series.now begun.new }
    ensures sums { OnOk result (HaveSums basin.now series.now (trace + 1) sums.new) }
    ensures year { OnOk result (IsEmptyYear basin.now year.new) }
    ensures work { SolvesRun basin.now work.old work.new }
{
    rotate_series(basin, series, trace, begun);
    let mut run = Run::begin(engine, begun);
    run_years(basin, series, trace, &mut run, sums, year, work)?;
    Ok(run.close())
}

/// Runs all traces in one engine, trace by trace. `begun` is written over with the series of each. AllocError comes
/// where memory is lacking.
fn run_each<'b, P: Ledger, M: Ledger>(
    basin: &Basin,
    series: &Series,
    mut engine: Engine<'b>,
    begun: &mut Series,
    sums: &mut [Rows<u64>],
    year: &mut [u64],
    work: &mut Work<P, M>,
) -> Result<Engine<'b>, AllocError>
    requires basin { IsValidBasin basin.now }
    requires whole { HasWholeYears basin.now }
    requires series { IsSeriesOf basin.now series.now }
    requires engine { engine.basin ≡ basin.now }
    requires begun { IsRotationOf series.now begun.old }
    requires sums { HaveSums basin.now series.now 0 sums.old }
    requires year { IsEmptyYear basin.now year.old }
    ensures engine { IfOk result (λ kept. kept.basin ≡ basin.now) }
    ensures sums { OnOk result (HaveSums basin.now series.now (years_of basin.now) sums.new) }
    ensures work { Solves (years_of basin.now * basin.now.months) basin.now work.old work.new }
{
    let count = basin.months / 12;
    for trace in 0..count {
        engine = run_trace(basin, series, trace, engine, begun, sums, year, work)?;
    }
    Ok(engine)
}

/// What each right was delivered in each year of each trace, by right, and the engine that ran the traces.
#[derive(Drop)]
pub struct EnsembleState<'b> {
    pub engine: Engine<'b>,
    pub amounts: Rows<Rows<u64>>,
}

/// What all traces are run in, beside an engine: what each right was delivered so far, by right, and in the year so
/// far, and the series that the next trace begins with.
#[derive(Drop)]
struct TraceRoom {
    amounts: Rows<Rows<u64>>,
    year: Rows<u64>,
    begun: Series,
}

/// Room for the traces of a basin, in which none was run yet. AllocError comes where memory is lacking.
fn room_for_traces(alloc: Global, basin: &Basin, series: &Series) -> Result<TraceRoom, AllocError>
    requires { IsValidBasin basin.now }
    ensures sums { IfOk result (λ room. HaveSums basin.now series.now 0 room.amounts) }
    ensures year { IfOk result (λ room. IsEmptyYear basin.now room.year) }
    ensures begun { IfOk result (λ room. room.begun ≡ series.now) }
{
    let count = basin.months / 12;
    let amounts = empty_sums(alloc, basin.rights.len(), (count * count) as usize)?;
    // A year in which no right was delivered anything yet.
    let year = zeros(alloc, basin.rights.len())?;
    let begun = series.copy(alloc)?;
    Ok(TraceRoom {
        amounts,
        year,
        begun,
    })
}

/// An engine, and what each right was delivered in each year of each trace that was run in a room.
fn state_of<'b>(engine: Engine<'b>, room: TraceRoom) -> EnsembleState<'b>
    ensures engine { result.engine ≡ engine.entry }
    ensures amounts { result.amounts ≡ room.amounts }
{
    EnsembleState {
        engine,
        amounts: room.amounts,
    }
}

/// Runs all traces in one engine and one room, in which none was run yet. AllocError comes where memory is lacking.
fn run_in_room<'b, P: Ledger, M: Ledger>(
    basin: &Basin,
    series: &Series,
    engine: Engine<'b>,
    mut room: TraceRoom,
    work: &mut Work<P, M>,
) -> Result<EnsembleState<'b>, AllocError>
    requires basin { IsValidBasin basin.now }
    requires whole { HasWholeYears basin.now }
    requires series { IsSeriesOf basin.now series.now }
    requires engine { engine.basin ≡ basin.now }
    requires begun { IsRotationOf series.now room.begun }
    requires sums { HaveSums basin.now series.now 0 room.amounts }
    requires year { IsEmptyYear basin.now room.year }
    ensures engine { IfOk result (λ all. all.engine.basin ≡ basin.now) }
    ensures sums { IfOk result (λ all. HaveSums basin.now series.now (years_of basin.now) all.amounts) }
    ensures work { Solves (years_of basin.now * basin.now.months) basin.now work.old work.new }
{
    let engine = run_each(
        basin,
        series,
        engine,
        &mut room.begun,
        room.amounts.as_mut_slice(),
        room.year.as_mut_slice(),
        work,
    )?;
    Ok(state_of(engine, room))
}

/// Runs all traces in one engine, trace by trace. AllocError comes where memory is lacking: it is taken once for all
/// traces.
pub fn run_traces<'b, P: Ledger, M: Ledger>(
    alloc: Global,
    basin: &Basin,
    series: &Series,
    engine: Engine<'b>,
    work: &mut Work<P, M>,
) -> Result<EnsembleState<'b>, AllocError>
    requires basin { IsValidBasin basin.now }
    requires whole { HasWholeYears basin.now }
    requires series { IsSeriesOf basin.now series.now }
    requires engine { engine.basin ≡ basin.now }
    ensures engine { IfOk result (λ all. all.engine.basin ≡ basin.now) }
    ensures sums { IfOk result (λ all. HaveSums basin.now series.now (years_of basin.now) all.amounts) }
    ensures work { Solves (years_of basin.now * basin.now.months) basin.now work.old work.new }
{
    let room = room_for_traces(alloc, basin, series)?;
    run_in_room(basin, series, engine, room, work)
}
