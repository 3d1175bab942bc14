//! A run of a basin, month by month.
ghost use Rattle.std.specs.Prelude.{List, ◌≡◌, ◌+◌, ◌-◌, ◌<◌, ◌≤◌, ◌++◌, ◌∷◌, [], map, IfOk};
ghost use Rattle.rights_roll.specs.Rolls.{IsRollOf};
ghost use Rattle.water_model.specs.Valid.{IsValidBasin, IsSeriesOf};
ghost use Rattle.water_model.specs.declared.types.MonthRecord.{MonthRecord};
ghost use Rattle.water_model.specs.History.{IsPartialHistory, HaveReaches, HasReaches};
ghost use Rattle.month_fold.specs.Runs.{RunStandsFor, WentThrough};
ghost use Rattle.month_fold.specs.Works.{Solves};

use crate::engine::Engine;
use crate::work::Work;
use rights_roll::roll::Roll;
use std::alloc::{AllocError, Global};
use std::marker::Model;
use std::sync::ledger::Ledger;
use water_model::types::{Basin, MonthRecord, Series};

/// A run of a basin with a series of inflows.
///
/// It keeps the record of the last month, what is on its way and what was used of volumes, and no record before. It
/// stands for all months that it went through: contracts say what holds for each list of records that it stands for.
#[derive(Drop)]
pub struct Run<'b, 's> {
    engine: Engine<'b>,
    series: &'s Series,
    done: u32,
}

impl<'b, 's> Model for Run<'b, 's> {
    ghost use Rattle.month_fold.specs.Runs.{RunView};

    ghost Value = { RunView };

    ghost use Rattle.month_fold.specs.RunInside.{view_of, IsValidState};

    ghost view = { view_of };

    ghost invariant = { IsValidState };
}

impl<'b, 's> Run<'b, 's> {
    /// A run before its first month. AllocError comes where memory is lacking.
    pub fn open(
        alloc: Global,
        basin: &'b Basin,
        series: &'s Series,
    ) -> Result<Run<'b, 's>, AllocError>
        requires basin { IsValidBasin basin.now }
        requires series { IsSeriesOf basin.now series.now }
        ensures basin { IfOk result (λ run. run.basin ≡ basin.now) }
        ensures series { IfOk result (λ run. run.series ≡ series.now) }
        ensures stands { IfOk result (λ run. RunStandsFor run []) }
    {
        Ok(Run::begin(Engine::open(alloc, basin)?, series))
    }

    /// A run before its first month, in the memory of an engine: it takes none. The engine may have served other runs,
    /// and nothing of them is left.
    pub fn begin(mut engine: Engine<'b>, series: &'s Series) -> Run<'b, 's>
        requires { IsSeriesOf engine.basin series.now }
        ensures basin { result.basin ≡ engine.entry.basin }
        ensures series { result.series ≡ series.now }
        ensures stands { RunStandsFor result [] }
    {
        engine.start_after(&[]);
        Run {
            engine,
            series,
            done: 0,
        }
    }

    /// Ends the run. Its engine may serve another one.
    pub fn close(self) -> Engine<'b>
        ensures { result.basin ≡ self.entry.basin }
    {
        let Run {
            engine,
            series: _,
            done: _,
        } = self;
        engine
    }

    /// A run that went through these months, which may have been solved by another run, or in another way: any partial
    /// history will do. AllocError comes where memory is lacking. No month is solved: the cost is that of opening a
    /// run, and linear in the return rows times the months.
    pub fn resume(
        alloc: Global,
        basin: &'b Basin,
        series: &'s Series,
        months: &[Box<MonthRecord>],
    ) -> Result<Run<'b, 's>, AllocError>
        requires basin { IsValidBasin basin.now }
        requires series { IsSeriesOf basin.now series.now }
        requires months { IsPartialHistory basin.now series.now (map (λ m. m.value) months.now) }
        ensures basin { IfOk result (λ run. run.basin ≡ basin.now) }
        ensures series { IfOk result (λ run. run.series ≡ series.now) }
        ensures went { IfOk result (λ run. WentThrough run (map (λ m. m.value) months.now)) }
        ensures stands { IfOk result (λ run. HaveReaches basin.now (map (λ m. m.value) months.now) →
            RunStandsFor run (map (λ m. m.value) months.now)) }
    {
        let mut engine = Engine::open(alloc, basin)?;
        engine.start_after(months);
        Ok(Run {
            engine,
            series,
            done: months.len() as u32,
        })
    }

    /// The basin, which is valid.
    pub fn basin(&self) -> &'b Basin
        ensures value { result.now ≡ self.now.basin }
        ensures valid { IsValidBasin result.now }
    {
        self.engine.basin()
    }

    /// The series, which is one of the basin.
    pub fn series(&self) -> &'s Series
        ensures value { result.now ≡ self.now.series }
        ensures fits { IsSeriesOf self.now.basin result.now }
    {
        self.series
    }

    /// Leaves it open from now on by which links water goes: for those who read no flow of the months to come. All else
    /// in a record stays what it is.
    pub fn leave_flows(&mut self)
        ensures { self.new ≡ self.old }
    {
        self.engine.leave_flows();
    }

    /// The roll of the basin's rights, by which months are solved.
    pub fn roll(&self) -> &Roll
        ensures { IsRollOf self.now.basin.rights result.now }
    {
        self.engine.roll()
    }

    /// How many months are left: at first all months of the run.
    pub fn left(&self) -> u32
        ensures { result ≡ self.now.basin.months - self.now.done }
    {
        self.engine.basin().months - self.done
    }

    /// The record of the month that was solved last. Before the first step it says only with which storage the next
    /// month opens, as its closing.
    pub fn month(&self) -> &MonthRecord
        ensures { result.now ≡ self.now.last }
    {
        self.engine.month()
    }

    /// Solves the next month; `month` then gives its record: it follows the records before it, and the set of each
    /// short right is its reach. `work` counts each search that finds a walk, and the month. It refuses nothing and
    /// takes no memory: once a run is open, each of its months has its record.
    pub fn step<P: Ledger, M: Ledger>(&mut self, work: &mut Work<P, M>)
        requires left { self.old.done < self.old.basin.months }
        ensures basin { self.new.basin ≡ self.old.basin }
        ensures series { self.new.series ≡ self.old.series }
        ensures went { (records : List MonthRecord) → WentThrough self.old records →
            WentThrough self.new (records ++ self.new.last ∷ []) }
        ensures reaches { HasReaches self.old.basin self.new.last }
        ensures month { (records : List MonthRecord) → RunStandsFor self.old records →
            RunStandsFor self.new (records ++ self.new.last ∷ []) }
        ensures counted { work.new.months ≡ work.old.months + 1 }
        ensures work { Solves 1 self.old.basin work.old work.new }
    {
        self.engine.step(self.series, self.done, work);
        self.done += 1;
    }
}
