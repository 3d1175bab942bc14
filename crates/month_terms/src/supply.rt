//! What a month supplies to each node.
ghost use Rattle.std.specs.Prelude.{ℕ, ◌≡◌, ◌+◌, ◌-◌, ◌<◌, ◌≤◌, ◌^◌, length, slice_index, false};
ghost use Rattle.water_model.specs.Hydrology.{in_year, inflow_at, stored_at};
ghost use Rattle.water_model.specs.Valid.{IsValidBasin, IsSeriesOf, is_gauged};
ghost use Rattle.month_terms.specs.Calendars.{IsCalendar};

use crate::add::add_at;
use crate::calendar::Calendar;
use water_model::calls::{inflow_of, month_at};
use water_model::types::{Basin, Inflow, Series};

/// What flows in at a node in the month with this index, in units of 1,000 cubic metres. `position` is that of its
/// calendar month in a list of twelve: it is the same for all nodes, and so the caller finds it once.
pub fn inflow_in_year(
    basin: &Basin,
    series: &Series,
    node: usize,
    index: u32,
    position: usize,
) -> u64
    requires basin { IsValidBasin basin.now }
    requires series { IsSeriesOf basin.now series.now }
    requires node { node < length basin.now.nodes }
    requires index { index < basin.now.months }
    requires position { position ≡ in_year basin.now index }
    ensures { result ≡ inflow_at basin.now series.now node index }
{
    match &basin.nodes[node].inflow {
        Inflow::Monthly(amounts) => amounts[position],
        Inflow::Gauged => inflow_of(basin, series, node as u32, index),
    }
}

/// Writes what flows in and what comes back at each node in the month with this index.
pub fn read_inflows(
    basin: &Basin,
    series: &Series,
    index: u32,
    returned: &[u64],
    supply: &mut [u64],
)
    requires basin { IsValidBasin basin.now }
    requires series { IsSeriesOf basin.now series.now }
    requires index { index < basin.now.months }
    requires returned { length returned.now ≡ length basin.now.nodes }
    requires supply { length supply.old ≡ length basin.now.nodes }
    requires small { (n : ℕ) → n < length basin.now.nodes →
        inflow_at basin.now series.now n index + slice_index returned.now n < 2 ^ 64 }
    ensures length { length supply.new ≡ length supply.old }
    ensures each { (n : ℕ) → n < length basin.now.nodes →
        slice_index supply.new n ≡ inflow_at basin.now series.now n index + slice_index returned.now n }
{
    let position = month_at(basin, index).month as usize - 1;
    for node in 0..basin.nodes.len() {
        supply[node] = inflow_in_year(basin, series, node, index, position) + returned[node];
    }
}

/// Writes the sum of what two lists have at each index.
fn write_sums(first: &[u64], second: &[u64], sums: &mut [u64])
    requires first { length first.now ≡ length sums.old }
    requires second { length second.now ≡ length sums.old }
    requires small { (n : ℕ) → n < length sums.old → slice_index first.now n + slice_index second.now n < 2 ^ 64 }
    ensures length { length sums.new ≡ length sums.old }
    ensures each { (n : ℕ) → n < length sums.old →
        slice_index sums.new n ≡ slice_index first.now n + slice_index second.now n }
{
    for position in 0..sums.len() {
        sums[position] = first[position] + second[position];
    }
}

/// Writes what flows in and what comes back at each gauged node in the month with this index. All else stays: it has
/// this already at the other nodes.
fn write_gauged(basin: &Basin, series: &Series, index: u32, returned: &[u64], supply: &mut [u64])
    requires basin { IsValidBasin basin.now }
    requires series { IsSeriesOf basin.now series.now }
    requires index { index < basin.now.months }
    requires returned { length returned.now ≡ length basin.now.nodes }
    requires supply { length supply.old ≡ length basin.now.nodes }
    requires small { (n : ℕ) → n < length basin.now.nodes →
        inflow_at basin.now series.now n index + slice_index returned.now n < 2 ^ 64 }
    requires others { (n : ℕ) → n < length basin.now.nodes → is_gauged basin.now n ≡ false →
        slice_index supply.old n ≡ inflow_at basin.now series.now n index + slice_index returned.now n }
    ensures length { length supply.new ≡ length supply.old }
    ensures each { (n : ℕ) → n < length basin.now.nodes →
        slice_index supply.new n ≡ inflow_at basin.now series.now n index + slice_index returned.now n }
{
    let count = series.gauged.len();
    let start = index as usize * count;
    for gauge in 0..count {
        let node = series.gauged[gauge] as usize;
        supply[node] = series.amount[start + gauge] + returned[node];
    }
}

/// Writes what flows in and what comes back at each node in the month with this index. It does what `read_inflows`
/// does, for one who has the basin's calendar, and looks no node up.
pub fn write_inflows(
    calendar: &Calendar,
    basin: &Basin,
    series: &Series,
    index: u32,
    returned: &[u64],
    supply: &mut [u64],
)
    requires calendar { IsCalendar basin.now calendar.now }
    requires basin { IsValidBasin basin.now }
    requires series { IsSeriesOf basin.now series.now }
    requires index { index < basin.now.months }
    requires returned { length returned.now ≡ length basin.now.nodes }
    requires supply { length supply.old ≡ length basin.now.nodes }
    requires small { (n : ℕ) → n < length basin.now.nodes →
        inflow_at basin.now series.now n index + slice_index returned.now n < 2 ^ 64 }
    ensures length { length supply.new ≡ length supply.old }
    ensures each { (n : ℕ) → n < length basin.now.nodes →
        slice_index supply.new n ≡ inflow_at basin.now series.now n index + slice_index returned.now n }
{
    let position = month_at(basin, index).month as usize - 1;
    let month = &calendar.months[position];
    write_sums(month.inflows.as_slice(), returned, supply);
    write_gauged(basin, series, index, returned, supply);
}

/// Adds at each node what its reservoir holds after evaporation.
pub fn add_stored(basin: &Basin, opening: &[u64], evaporated: &[u64], supply: &mut [u64])
    requires basin { IsValidBasin basin.now }
    requires opening { length opening.now ≡ length basin.now.reservoirs }
    requires evaporated { length evaporated.now ≡ length basin.now.reservoirs }
    requires supply { length supply.old ≡ length basin.now.nodes }
    requires less { (v : ℕ) → v < length basin.now.reservoirs →
        slice_index evaporated.now v ≤ slice_index opening.now v }
    requires small { (n : ℕ) → n < length basin.now.nodes →
        slice_index supply.old n + stored_at basin.now opening.now evaporated.now n < 2 ^ 64 }
    ensures length { length supply.new ≡ length supply.old }
    ensures each { (n : ℕ) → n < length basin.now.nodes →
        slice_index supply.new n ≡ slice_index supply.old n + stored_at basin.now opening.now evaporated.now n }
{
    for reservoir in 0..basin.reservoirs.len() {
        let node = basin.reservoirs[reservoir].node as usize;
        add_at(supply, node, opening[reservoir] - evaporated[reservoir]);
    }
}
