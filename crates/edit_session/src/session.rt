//! A run whose series changes.
ghost use Rattle.std.specs.Prelude.{◌≡◌, ◌+◌, ◌-◌, ◌*◌, ◌^◌, ◌<◌, ◌≤◌, [], max, length, take, slice_get};
ghost use Rattle.std.specs.Prelude.{slice_set, Some, IfOk, OnOk};
ghost use Rattle.rights_roll.specs.Rolls.{IsRollOf};
ghost use Rattle.water_model.specs.Valid.{IsValidBasin, IsSeriesOf};
ghost use Rattle.edit_script.specs.Edits.{with_inflow, with_want};
ghost use Rattle.edit_session.specs.Sessions.{HasKeptMonths, records_of};
ghost use Rattle.month_fold.specs.Works.{Solves};

use crate::solving::solve_months;
use month_fold::engine::Engine;
use month_fold::work::Work;
use rights_roll::roll::Roll;
use std::alloc::{AllocError, Global};
use std::marker::Model;
use std::sync::ledger::Ledger;
use water_model::rows::Rows;
use water_model::types::{Basin, MonthRecord, Series};

/// Changes a number of a month in a table with one column for each of the keys, and keeps the months before, and no
/// other.
fn change(
    keys: &Rows<u32>,
    table: &mut Rows<u64>,
    kept: &mut Vec<Box<MonthRecord>>,
    index: u32,
    column: u32,
    amount: u64,
)
    requires bounded { length keys.now ≤ 2000 }
    requires month { index < 1200 }
    requires within { index * length keys.now + column < length table.old }
    ensures table { table.new ≡ slice_set table.old (index * length keys.now + column) amount }
    ensures kept { records_of kept.new.items ≡ take index (records_of kept.old.items) }
{
    let at = index as usize * keys.len() + column as usize;
    table.set(at, amount);
    kept.truncate(index as usize);
}

/// A basin, a series that may change, and the records of the first months that were solved with it.
///
/// At every moment the kept records are those of a run of the basin and of the series as it is now, with the reaches as
/// the sets of short rights.
#[derive(Drop)]
pub struct Session<'b> {
    engine: Engine<'b>,
    series: Series,
    kept: Vec<Box<MonthRecord>>,
}

impl<'b> Model for Session<'b> {
    ghost use Rattle.edit_session.specs.Sessions.{SessionView};

    ghost Value = { SessionView };

    ghost use Rattle.edit_session.specs.SessionInside.{view_of, IsValidSession};

    ghost view = { view_of };

    ghost invariant = { IsValidSession };
}

impl<'b> Session<'b> {
    /// A session with a copy of the series, in which no month is solved. AllocError comes where memory is lacking.
    pub fn open(alloc: Global, basin: &'b Basin, series: &Series) -> Result<Session<'b>, AllocError>
        requires basin { IsValidBasin basin.now }
        requires series { IsSeriesOf basin.now series.now }
        ensures basin { IfOk result (λ session. session.basin ≡ basin.now) }
        ensures series { IfOk result (λ session. session.series ≡ series.now) }
        ensures none { IfOk result (λ session. session.kept ≡ []) }
        ensures history { IfOk result HasKeptMonths }
    {
        let engine = Engine::open(alloc, basin)?;
        let series = series.copy(alloc)?;
        Ok(Session {
            engine,
            series,
            kept: Vec::new(alloc),
        })
    }

    /// The basin, which is valid.
    pub fn basin(&self) -> &'b Basin
        ensures value { result.now ≡ self.now.basin }
        ensures valid { IsValidBasin result.now }
    {
        self.engine.basin()
    }

    /// The roll of the basin's rights, by which months are solved.
    pub fn roll(&self) -> &Roll
        ensures { IsRollOf self.now.basin.rights result.now }
    {
        self.engine.roll()
    }

    /// How many months are kept.
    pub fn solved(&self) -> u32
        ensures { result ≡ length self.now.kept }
    {
        self.kept.len() as u32
    }

    /// The record of a month that is kept.
    pub fn month(&self, index: u32) -> &MonthRecord
        requires { index < length self.now.kept }
        ensures { slice_get self.now.kept index ≡ Some result.now }
    {
        &self.kept[index as usize]
    }

    /// Changes what flows in at a gauge in a month, in units of 1,000 cubic metres. The gauge is given by its index
    /// among the gauged nodes. The months before are kept, and no other. No memory is taken.
    pub fn set_inflow(&mut self, index: u32, gauge: u32, amount: u64)
        requires index { index < self.old.basin.months }
        requires gauge { gauge < length self.old.series.gauged }
        requires amount { amount ≤ 10 ^ 9 }
        ensures basin { self.new.basin ≡ self.old.basin }
        ensures series { self.new.series ≡ with_inflow self.old.series index gauge amount }
        ensures kept { self.new.kept ≡ take index self.old.kept }
        ensures history { HasKeptMonths self.new }
    {
        change(
            &self.series.gauged,
            &mut self.series.amount,
            &mut self.kept,
            index,
            gauge,
            amount,
        );
    }

    /// Changes what a right wants in a month, in units of 1,000 cubic metres. The right is given by its index among
    /// those whose wants stand in the series. The months before are kept, and no other. No memory is taken.
    pub fn set_want(&mut self, index: u32, place: u32, amount: u64)
        requires index { index < self.old.basin.months }
        requires place { place < length self.old.series.wanted }
        requires amount { amount ≤ 10 ^ 9 }
        ensures basin { self.new.basin ≡ self.old.basin }
        ensures series { self.new.series ≡ with_want self.old.series index place amount }
        ensures kept { self.new.kept ≡ take index self.old.kept }
        ensures history { HasKeptMonths self.new }
    {
        change(
            &self.series.wanted,
            &mut self.series.want,
            &mut self.kept,
            index,
            place,
            amount,
        );
    }

    /// Solves the months up to this one that are not kept yet. The records that were kept stay as they are, and no
    /// month of theirs is solved again: `work` counts the months that are.
    ///
    /// AllocError comes only where memory is lacking. Some months more may be kept then, and the session can go on.
    pub fn solve<P: Ledger, M: Ledger>(
        &mut self,
        alloc: Global,
        index: u32,
        work: &mut Work<P, M>,
    ) -> Result<(), AllocError>
        requires { index < self.old.basin.months }
        ensures basin { self.new.basin ≡ self.old.basin }
        ensures series { self.new.series ≡ self.old.series }
        ensures stay { take (length self.old.kept) self.new.kept ≡ self.old.kept }
        ensures solved { OnOk result (length self.new.kept ≡ max (length self.old.kept) (index + 1)) }
        ensures bounded { length self.new.kept ≤ max (length self.old.kept) (index + 1) }
        ensures history { HasKeptMonths self.new }
        ensures work { Solves (index + 1 - length self.old.kept) self.old.basin work.old work.new }
    {
        if index < self.solved() {
            return Ok(());
        }
        solve_months(
            alloc,
            &mut self.engine,
            &self.series,
            index + 1,
            &mut self.kept,
            work,
        )
    }
}
