//! What evaporates from reservoirs in a month.
ghost use Rattle.std.specs.Prelude.{ℕ, ◌≡◌, ◌-◌, ◌<◌, length, slice_index, map, IfOk};
ghost use Rattle.water_text.specs.Months.{IsMonth};
ghost use Rattle.water_model.specs.Hydrology.{evaporation};
ghost use Rattle.water_model.specs.Lookups.{of_entry};
ghost use Rattle.water_model.specs.Valid.{IsValidBasin};

use reservoirs::AreaTable;
use std::alloc::{AllocError, Global};
use water_model::types::Basin;
use water_text::month::Month;

/// The area table of each reservoir. AllocError comes where memory is lacking.
pub fn tables_of(alloc: Global, basin: &Basin) -> Result<Vec<AreaTable>, AllocError>
    requires { IsValidBasin basin.now }
    ensures { IfOk result (λ tables. tables.items ≡ map (λ v. v.area) basin.now.reservoirs) }
{
    let mut tables = Vec::with_capacity(alloc, basin.reservoirs.len())?;
    for reservoir in basin.reservoirs.as_slice() {
        match AreaTable::build(alloc, reservoir.area.as_slice()) {
            Ok(table) => tables.push(table)?,
            // In a valid basin a table is refused for want of memory alone.
            Err(_) => return Err(AllocError),
        }
    }
    Ok(tables)
}

/// What evaporates from a reservoir at a storage, in the month with this index in a list of twelve.
fn evaporation_of(
    basin: &Basin,
    tables: &[AreaTable],
    reservoir: usize,
    in_year: usize,
    storage: u64,
) -> u64
    requires basin { IsValidBasin basin.now }
    requires tables { tables.now ≡ map (λ v. v.area) basin.now.reservoirs }
    requires reservoir { reservoir < length basin.now.reservoirs }
    requires in_year { in_year < 12 }
    ensures { result ≡ of_entry basin.now.reservoirs reservoir
        (λ r. evaporation r.area storage (slice_index r.rate in_year)) 0 }
{
    let rate = basin.reservoirs[reservoir].rate[in_year];
    tables[reservoir].evaporation(storage, rate)
}

/// Writes what evaporates from each reservoir in a month. `tables` has the area table of each.
pub fn evaporate(
    basin: &Basin,
    tables: &[AreaTable],
    month: Month,
    opening: &[u64],
    evaporated: &mut [u64],
)
    requires basin { IsValidBasin basin.now }
    requires tables { tables.now ≡ map (λ v. v.area) basin.now.reservoirs }
    requires month { IsMonth month }
    requires opening { length opening.now ≡ length basin.now.reservoirs }
    requires evaporated { length evaporated.old ≡ length basin.now.reservoirs }
    ensures length { length evaporated.new ≡ length basin.now.reservoirs }
    ensures each { (v : ℕ) → v < length basin.now.reservoirs → slice_index evaporated.new v
        ≡ of_entry basin.now.reservoirs v
        (λ r. evaporation r.area (slice_index opening.now v) (slice_index r.rate (month.month - 1))) 0 }
{
    let in_year = month.month as usize - 1;
    for reservoir in 0..basin.reservoirs.len() {
        evaporated[reservoir] = evaporation_of(
            basin,
            tables,
            reservoir,
            in_year,
            opening[reservoir],
        );
    }
}
