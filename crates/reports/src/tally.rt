//! What is kept of the months of a run.
ghost use Rattle.std.specs.Prelude.{ℕ, List, ◌≡◌, ◌<◌, ◌++◌, ◌∷◌, [], length, slice_get, Some, IfOk};
ghost use Rattle.water_model.specs.declared.types.MonthRecord.{MonthRecord};
ghost use Rattle.reports.specs.Tallies.{figures_of, HasRoom, IsTally};

use crate::figures::RightFigures;
use crate::months::Kept;
use crate::waters::Waters;
use rights_roll::roll::Roll;
use std::alloc::{AllocError, Global};
use water_model::rows::Rows;
use water_model::types::{Basin, MonthRecord, Series};

/// The figures of each right, indexed by right, and the water of the months so far.
#[derive(Drop)]
pub struct Tally {
    pub rights: Rows<RightFigures>,
    pub waters: Waters,
}

/// The figures of `count` rights before the first month.
fn first_figures(alloc: Global, count: usize) -> Result<Rows<RightFigures>, AllocError>
    ensures count { IfOk result (λ rights. length rights ≡ count) }
    ensures each { IfOk result (λ rights. (right : ℕ) → right < count →
        slice_get rights right ≡ Some (figures_of [] right)) }
{
    let mut rights = Vec::with_capacity(alloc, count)?;
    for _right in 0..count {
        rights.push(RightFigures::first())?;
    }
    Ok(Rows::from_vec(rights))
}

/// Adds a month to the figures of each right.
fn add_rights(rights: &mut Rows<RightFigures>, month: &MonthRecord)
    requires want { length month.now.want ≡ length rights.old }
    requires delivered { length month.now.delivered ≡ length rights.old }
    requires room { (right : ℕ) (figures : RightFigures) → slice_get rights.old right ≡ Some figures →
        HasRoom figures month.now right }
    ensures count { length rights.new ≡ length rights.old }
    ensures each { (records : List MonthRecord) (right : ℕ) →
        slice_get rights.old right ≡ Some (figures_of records right) →
        slice_get rights.new right ≡ Some (figures_of (records ++ month.now ∷ []) right) }
{
    for right in 0..rights.len() {
        let figures = rights[right].with_month(month, right);
        rights.set(right, figures);
    }
}

impl Kept for Tally {
    ghost is_of = { IsTally };

    #[tactic(auto, using(crate::proofs::Rights::list_is))]
    fn open(alloc: Global, basin: &Basin) -> Result<Tally, AllocError> {
        let rights = first_figures(alloc, basin.rights.len())?;
        Ok(Tally {
            rights,
            waters: Waters::first(basin),
        })
    }

    fn add(&mut self, basin: &Basin, series: &Series, _roll: &Roll, month: &MonthRecord) {
        add_rights(&mut self.rights, month);
        self.waters = self.waters.with_month(basin, series, month);
    }
}
