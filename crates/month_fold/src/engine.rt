//! What runs of a basin are made with.
ghost use Rattle.std.specs.Prelude.{List, ◌≡◌, ◌+◌, ◌*◌, ◌<◌, ◌≤◌, ◌++◌, ◌∷◌, [], All, length, map, IfOk};
ghost use Rattle.rights_roll.specs.Rolls.{IsRollOf};
ghost use Rattle.water_model.specs.History.{IsPartialHistory, opening_after, HaveReaches, HasReaches};
ghost use Rattle.water_model.specs.Valid.{IsValidBasin, IsSeriesOf};
ghost use Rattle.water_model.specs.declared.types.Series.{Series};
ghost use Rattle.water_model.specs.declared.types.MonthRecord.{MonthRecord};
ghost use Rattle.month_fold.specs.Uses.{HasDeliveries, StateUse};
ghost use Rattle.month_fold.specs.Runs.{RunStandsFor, WentThrough, HasRecords, run_with};
ghost use Rattle.month_fold.specs.Works.{Solves};

use crate::next::{next_month, use_volumes};
use crate::resume::{replay_returns, store_after, use_after};
use crate::work::Work;
use lag_returns::Lags;
use month_terms::calendar::Calendar;
use month_terms::evaporation::tables_of;
use month_terms::opening::blank_month;
use reservoirs::AreaTable;
use rights_roll::roll::Roll;
use senior_hold::Solver;
use std::alloc::{AllocError, Global};
use std::marker::Model;
use std::sync::ledger::Ledger;
use water_model::blank::zeros;
use water_model::rows::Rows;
use water_model::types::{Basin, MonthRecord, Series};

/// What a run of a basin is made with, apart from its series: the solver, the calendar and the area tables, and the
/// memory for what is on its way, what was used of volumes and the record of the last month. One engine serves one run
/// after another.
///
/// All memory is taken where an engine is opened. The network, the roll, the calendar and the area tables are built
/// there once: no run that it serves, and no writer of such a run's results, builds them again.
#[derive(Drop)]
pub struct Engine<'b> {
    basin: &'b Basin,
    solver: Box<Solver<'b>>,
    calendar: Calendar,
    tables: Vec<AreaTable>,
    lags: Lags,
    used: Rows<u64>,
    month: Box<MonthRecord>,
}

impl<'b> Model for Engine<'b> {
    ghost use Rattle.month_fold.specs.Runs.{EngineView};

    ghost Value = { EngineView };

    ghost use Rattle.month_fold.specs.RunInside.{engine_of, IsFitted};

    ghost view = { engine_of };

    ghost invariant = { IsFitted };
}

/// The solver of the basin's months. AllocError comes where memory is lacking.
fn solver_of<'b>(alloc: Global, basin: &'b Basin) -> Result<Box<Solver<'b>>, AllocError>
    requires { IsValidBasin basin.now }
    ensures { IfOk result (λ solver. solver.value ≡ basin.now) }
{
    Ok(Box::new(alloc, Solver::open(alloc, basin)?)?)
}

impl<'b> Engine<'b> {
    /// An engine for runs of a basin. AllocError comes where memory is lacking. No other call takes memory.
    pub fn open(alloc: Global, basin: &'b Basin) -> Result<Engine<'b>, AllocError>
        requires { IsValidBasin basin.now }
        ensures { IfOk result (λ engine. engine.basin ≡ basin.now) }
    {
        let month = blank_month(alloc, basin)?;
        let used = zeros(alloc, basin.rights.len())?;
        let tables = tables_of(alloc, basin)?;
        let lags = Lags::open(alloc, basin.returns.as_slice())?;
        let solver = solver_of(alloc, basin)?;
        let calendar = Calendar::of(alloc, basin)?;
        Ok(Engine {
            basin,
            solver,
            calendar,
            tables,
            lags,
            used,
            month,
        })
    }

    /// Starts after these months of a run, which another engine may have solved: after none it stands before the first.
    /// Nothing is left of the run that it served before. No month is solved, and no memory is taken: the cost is linear
    /// in the return rows times the months.
    pub fn start_after(&mut self, months: &[Box<MonthRecord>])
        requires deliveries { All (λ m. HasDeliveries self.old.basin m.value) months.now }
        requires stated { StateUse self.old.basin (map (λ m. m.value) months.now) }
        requires stored { length (opening_after self.old.basin (map (λ m. m.value) months.now))
            ≡ length self.old.basin.reservoirs }
        ensures basin { self.new.basin ≡ self.old.basin }
        ensures went { (series : Series) → IsSeriesOf self.new.basin series →
            IsPartialHistory self.new.basin series (map (λ m. m.value) months.now) →
            WentThrough (run_with self.new series (length months.now)) (map (λ m. m.value) months.now) }
        ensures stands { (series : Series) → IsSeriesOf self.new.basin series →
            IsPartialHistory self.new.basin series (map (λ m. m.value) months.now) →
            HaveReaches self.new.basin (map (λ m. m.value) months.now) →
            RunStandsFor (run_with self.new series (length months.now)) (map (λ m. m.value) months.now) }
    {
        replay_returns(self.basin, months, &mut self.lags);
        use_after(self.basin, months, &mut self.used);
        store_after(self.basin, months, &mut *self.month);
    }

    /// The basin, which is valid.
    pub fn basin(&self) -> &'b Basin
        ensures value { result.now ≡ self.now.basin }
        ensures valid { IsValidBasin result.now }
    {
        self.basin
    }

    /// Leaves it open from now on by which links water goes: for runs of which nobody reads a flow.
    pub fn leave_flows(&mut self)
        ensures { self.new ≡ self.old }
    {
        self.solver.leave_flows();
    }

    /// The roll of the basin's rights, by which months are solved.
    pub fn roll(&self) -> &Roll
        ensures { IsRollOf self.now.basin.rights result.now }
    {
        self.solver.roll()
    }

    /// The record of the month that was solved last. Where none was since the engine was started after some months, it
    /// says only with which storage the next month opens, as its closing.
    pub fn month(&self) -> &MonthRecord
        ensures { result.now ≡ self.now.last }
    {
        &self.month
    }

    /// Solves the month after the first `done` of a series; `month` then gives its record. `work` counts each search
    /// that finds a walk, and the month.
    pub fn step<P: Ledger, M: Ledger>(&mut self, series: &Series, done: u32, work: &mut Work<P, M>)
        requires left { done < self.old.basin.months }
        requires months { HasRecords (run_with self.old series.now done) }
        ensures basin { self.new.basin ≡ self.old.basin }
        ensures went { (records : List MonthRecord) → WentThrough (run_with self.old series.now done) records →
            WentThrough (run_with self.new series.now (done + 1)) (records ++ self.new.last ∷ []) }
        ensures reaches { HasReaches self.old.basin self.new.last }
        ensures month { (records : List MonthRecord) → RunStandsFor (run_with self.old series.now done) records →
            RunStandsFor (run_with self.new series.now (done + 1)) (records ++ self.new.last ∷ []) }
        ensures counted { work.new.months ≡ work.old.months + 1 }
        ensures work { Solves 1 self.old.basin work.old work.new }
    {
        next_month(
            self.basin,
            series,
            &self.calendar,
            &self.tables,
            &self.lags,
            self.used.as_slice(),
            &mut *self.solver,
            done,
            &mut *self.month,
            &mut work.pushes,
        );
        self.lags.month_done(self.month.delivered.as_slice());
        use_volumes(self.basin, done, &self.month, &mut self.used);
        work.months.tick();
    }
}
