//! What a run begins with.
ghost use Rattle.std.specs.Prelude.{◌≡◌, length, map, IfOk};
ghost use Rattle.month_terms.specs.Terms.{FitsRecord};
ghost use Rattle.water_model.specs.Blank.{blank_month};
ghost use Rattle.water_model.specs.Valid.{IsValidBasin};

use std::alloc::{AllocError, Global};
use water_model::blank::{blank_plan, zeros};
use water_model::cut_list::CutList;
use water_model::rows::Rows;
use water_model::types::{Basin, MonthRecord};

/// Writes what each reservoir holds when the run begins, in units of 1,000 cubic metres.
pub fn write_openings(basin: &Basin, stored: &mut [u64])
    requires { length stored.old ≡ length basin.now.reservoirs }
    ensures { stored.new ≡ map (λ v. v.opening) basin.now.reservoirs }
{
    for reservoir in 0..basin.reservoirs.len() {
        stored[reservoir] = basin.reservoirs[reservoir].opening;
    }
}

/// What each reservoir holds when the run begins, in units of 1,000 cubic metres. AllocError comes where memory is
/// lacking.
pub fn openings(alloc: Global, basin: &Basin) -> Result<Rows<u64>, AllocError>
    ensures { IfOk result (λ rows. rows ≡ map (λ v. v.opening) basin.now.reservoirs) }
{
    let mut stored = zeros(alloc, basin.reservoirs.len())?;
    write_openings(basin, stored.as_mut_slice());
    Ok(stored)
}

/// A record of the first month, which is not in a box: all its numbers are 0, and no right has a set.
fn first_month(alloc: Global, basin: &Basin) -> Result<MonthRecord, AllocError>
    requires { IsValidBasin basin.now }
    ensures { IfOk result (λ month. month ≡ blank_month basin.now 0 basin.now.first) }
{
    let nodes = basin.nodes.len();
    let reservoirs = basin.reservoirs.len();
    let rights = basin.rights.len();
    Ok(MonthRecord {
        index: 0,
        month: basin.first,
        opening: zeros(alloc, reservoirs)?,
        evaporated: zeros(alloc, reservoirs)?,
        returned: zeros(alloc, nodes)?,
        used: zeros(alloc, rights)?,
        supply: zeros(alloc, nodes)?,
        want: zeros(alloc, rights)?,
        plan: blank_plan(alloc, basin)?,
        delivered: zeros(alloc, rights)?,
        cuts: CutList::open(alloc, rights as u32, nodes as u32)?,
        closing: zeros(alloc, reservoirs)?,
    })
}

/// A record of the first month, with room for any month: all its numbers are 0, and no right has a set. AllocError
/// comes where memory is lacking.
pub fn blank_month(alloc: Global, basin: &Basin) -> Result<Box<MonthRecord>, AllocError>
    requires { IsValidBasin basin.now }
    ensures blank { IfOk result (λ month. month.value ≡ blank_month basin.now 0 basin.now.first) }
    ensures fits { IfOk result (λ month. FitsRecord basin.now month.value) }
{
    let month = first_month(alloc, basin)?;
    Ok(Box::new(alloc, month)?)
}
