//! Copies of records and series.
ghost use Rattle.std.specs.Prelude.{◌≡◌, IfOk};

use crate::cut_list::CutList;
use crate::rows::Rows;
use crate::types::{MonthRecord, Plan, Series};
use std::alloc::{AllocError, Global};

impl Plan {
    /// An equal plan. AllocError comes where memory is lacking.
    pub fn copy(&self, alloc: Global) -> Result<Plan, AllocError>
        ensures { IfOk result (λ copied. copied ≡ self.now) }
    {
        Ok(Plan {
            flow: self.flow.copy(alloc)?,
            take: self.take.copy(alloc)?,
            out: self.out.copy(alloc)?,
        })
    }
}

impl Series {
    /// An equal series. AllocError comes where memory is lacking.
    pub fn copy(&self, alloc: Global) -> Result<Series, AllocError>
        ensures { IfOk result (λ copied. copied ≡ self.now) }
    {
        Ok(Series {
            gauged: self.gauged.copy(alloc)?,
            amount: self.amount.copy(alloc)?,
            wanted: self.wanted.copy(alloc)?,
            want: self.want.copy(alloc)?,
        })
    }
}

/// An equal record, which is not in a box.
fn copy_of(alloc: Global, month: &MonthRecord) -> Result<MonthRecord, AllocError>
    ensures { IfOk result (λ copied. copied ≡ month.now) }
{
    Ok(MonthRecord {
        index: month.index,
        month: month.month,
        opening: month.opening.copy(alloc)?,
        evaporated: month.evaporated.copy(alloc)?,
        returned: month.returned.copy(alloc)?,
        used: month.used.copy(alloc)?,
        supply: month.supply.copy(alloc)?,
        want: month.want.copy(alloc)?,
        plan: month.plan.copy(alloc)?,
        delivered: month.delivered.copy(alloc)?,
        cuts: month.cuts.copy(alloc)?,
        closing: month.closing.copy(alloc)?,
    })
}

impl MonthRecord {
    /// An equal record. AllocError comes where memory is lacking.
    pub fn copy(&self, alloc: Global) -> Result<Box<MonthRecord>, AllocError>
        ensures { IfOk result (λ copied. copied.value ≡ self.now) }
    {
        let copied = copy_of(alloc, self)?;
        Ok(Box::new(alloc, copied)?)
    }
}
