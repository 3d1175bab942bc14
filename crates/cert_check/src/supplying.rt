//! What a month supplies, by what was read of it.
ghost use Rattle.std.specs.Prelude.{ℕ, ◌≡◌, ◌+◌, ◌^◌, ◌<◌, ◌≤◌, length, slice_index};
ghost use Rattle.month_terms.specs.Terms.{FitsRecord};
ghost use Rattle.result_reader.specs.ReadSoFar.{with_supply};
ghost use Rattle.water_model.specs.Hydrology.{inflow_at, stored_at};
ghost use Rattle.water_model.specs.Valid.{IsValidBasin, IsSeriesOf};

use month_terms::supply::{add_stored, read_inflows};
use water_model::types::{Basin, MonthRecord, Series};

/// Writes what flows in, what comes back and what is stored at each node.
fn sum_supply(
    basin: &Basin,
    series: &Series,
    index: u32,
    returned: &[u64],
    opening: &[u64],
    evaporated: &[u64],
    supply: &mut [u64],
)
    requires basin { IsValidBasin basin.now }
    requires series { IsSeriesOf basin.now series.now }
    requires index { index < basin.now.months }
    requires returned { length returned.now ≡ length basin.now.nodes }
    requires opening { length opening.now ≡ length basin.now.reservoirs }
    requires evaporated { length evaporated.now ≡ length basin.now.reservoirs }
    requires supply { length supply.old ≡ length basin.now.nodes }
    requires less { (v : ℕ) → v < length basin.now.reservoirs →
        slice_index evaporated.now v ≤ slice_index opening.now v }
    requires small { (n : ℕ) → n < length basin.now.nodes →
        inflow_at basin.now series.now n index + slice_index returned.now n
        + stored_at basin.now opening.now evaporated.now n < 2 ^ 64 }
    ensures length { length supply.new ≡ length supply.old }
    ensures each { (n : ℕ) → n < length basin.now.nodes → slice_index supply.new n
        ≡ inflow_at basin.now series.now n index + slice_index returned.now n + stored_at basin.now opening.now
        evaporated.now n }
{
    read_inflows(basin, series, index, returned, supply);
    add_stored(basin, opening, evaporated, supply);
}

/// Makes in a record the supply of each node, by what was read of the month's reservoirs and returns.
pub fn make_supply(basin: &Basin, series: &Series, month: &mut MonthRecord)
    requires basin { IsValidBasin basin.now }
    requires series { IsSeriesOf basin.now series.now }
    requires fits { FitsRecord basin.now month.old }
    requires index { month.old.index < basin.now.months }
    requires less { (v : ℕ) → v < length basin.now.reservoirs →
        slice_index month.old.evaporated v ≤ slice_index month.old.opening v }
    requires small { (n : ℕ) → n < length basin.now.nodes →
        inflow_at basin.now series.now n month.old.index + slice_index month.old.returned n
        + stored_at basin.now month.old.opening month.old.evaporated n < 2 ^ 64 }
    ensures { month.new ≡ with_supply basin.now series.now month.old }
{
    sum_supply(
        basin,
        series,
        month.index,
        month.returned.as_slice(),
        month.opening.as_slice(),
        month.evaporated.as_slice(),
        month.supply.as_mut_slice(),
    );
}
