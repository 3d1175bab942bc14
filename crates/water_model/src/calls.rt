//! What a basin says of a month.
ghost use Rattle.std.specs.Prelude.{◌≡◌, ◌<◌, length, IfSome};
ghost use Rattle.std.specs.List.Sorted.{IsStrictlyIncreasing};
ghost use Rattle.water_text.specs.Months.{IsMonth};
ghost use Rattle.water_model.specs.Basin.{taking_node};
ghost use Rattle.water_model.specs.Plans.{carry_of, carry_of_kind};
ghost use Rattle.water_model.specs.Hydrology.{begins_year, inflow_at, in_year, number_of, index_in, index_in_run};
ghost use Rattle.water_model.specs.Hydrology.{run_month, target_of, want_of};
ghost use Rattle.water_model.specs.Lookups.{of_entry};
ghost use Rattle.water_model.specs.Valid.{IsValidBasin, IsValidCarry, IsSeriesOf, is_gauged, is_in_series, is_series};

use crate::types::{Basin, Carry, Inflow, RIVER_CARRY, RightKind, Series, Want};
use water_text::month::Month;

/// What a link of this kind carries in a month.
fn carry_in_month(carry: &Carry, month: Month) -> u64
    requires carry { IsValidCarry carry.now }
    requires month { IsMonth month }
    ensures { result ≡ carry_of_kind carry.now month }
{
    match carry {
        Carry::River => RIVER_CARRY,
        Carry::Canal { per_day, shut } => {
            if shut[month.month as usize - 1] {
                0
            } else {
                *per_day * u64::from(month.days())
            }
        }
    }
}

/// The most that a link carries in a month, in units of 1,000 cubic metres: 10^15 on a river, and on a canal the amount
/// of a day times the days of the month, or 0 in a calendar month in which it is shut.
pub fn carry_of(basin: &Basin, link: u32, month: Month) -> u64
    requires basin { IsValidBasin basin.now }
    requires month { IsMonth month }
    requires link { link < length basin.now.links }
    ensures { result ≡ carry_of basin.now month link }
{
    carry_in_month(&basin.links[link as usize].carry, month)
}

/// The node at which a diversion or a zone takes water, or `None` for an instream right.
pub fn taking_node(basin: &Basin, right: u32) -> Option<u32>
    requires basin { IsValidBasin basin.now }
    requires right { right < length basin.now.rights }
    ensures value { result ≡ taking_node basin.now right }
    ensures within { IfSome result (λ node. node < length basin.now.nodes) }
{
    match basin.rights[right as usize].kind {
        RightKind::Diversion { node } => Some(node),
        RightKind::Instream { .. } => None,
        RightKind::Zone { reservoir, .. } => Some(basin.reservoirs[reservoir as usize].node),
    }
}

/// The month of the run with this index.
pub fn month_at(basin: &Basin, index: u32) -> Month
    requires basin { IsValidBasin basin.now }
    requires index { index < basin.now.months }
    ensures month { result ≡ run_month basin.now index }
    ensures valid { IsMonth result }
{
    match basin.first.plus(index) {
        Some(month) => month,
        None => unreachable!(),
    }
}

/// The index of a month in the run, or `None` where the run hasn't it.
pub fn index_in_run(basin: &Basin, month: Month) -> Option<u32>
    requires basin { IsValidBasin basin.now }
    requires month { IsMonth month }
    ensures value { result ≡ index_in_run basin.now month }
    ensures within { IfSome result (λ index. index < basin.now.months) }
{
    let first = 12 * u32::from(basin.first.year) + u32::from(basin.first.month);
    let number = 12 * u32::from(month.year) + u32::from(month.month);
    if number < first {
        return None;
    }
    if number - first < basin.months {
        Some(number - first)
    } else {
        None
    }
}

/// The index, in a list of twelve, of the calendar month of the month with this index.
fn index_in_year(basin: &Basin, index: u32) -> usize
    requires basin { IsValidBasin basin.now }
    ensures position { result ≡ in_year basin.now index }
    ensures twelve { result < 12 }
{
    ((u64::from(basin.first.month) - 1 + u64::from(index)) % 12) as usize
}

/// Whether a water year begins with the month with this index, which may be past the run's last month.
pub fn begins_year(basin: &Basin, index: u32) -> bool
    requires basin { IsValidBasin basin.now }
    ensures { result ≡ begins_year basin.now index }
{
    index_in_year(basin, index) + 1 == usize::from(basin.year_start)
}

/// Whether a node is gauged.
pub fn is_gauged(basin: &Basin, node: u32) -> bool
    requires { node < length basin.now.nodes }
    ensures { result ≡ is_gauged basin.now node }
{
    match basin.nodes[node as usize].inflow {
        Inflow::Gauged => true,
        Inflow::Monthly(_) => false,
    }
}

/// Whether a want stands in the series.
pub fn is_series(want: &Want) -> bool
    ensures { result ≡ is_series want.now }
{
    match want {
        Want::Series => true,
        Want::Monthly(_) => false,
    }
}

/// Whether a right's wants stand in the series.
pub fn is_in_series(basin: &Basin, right: u32) -> bool
    requires { right < length basin.now.rights }
    ensures { result ≡ is_in_series basin.now right }
{
    is_series(&basin.rights[right as usize].want)
}

/// The index of a number in a rising list, or the list's length where it isn't there.
pub fn index_of(numbers: &[u32], number: u32) -> usize
    requires { IsStrictlyIncreasing numbers.now }
    ensures { result ≡ index_in numbers.now number }
{
    match numbers.binary_search(&number) {
        Ok(position) => position,
        Err(_) => numbers.len(),
    }
}

/// The inflow of a node in the month with this index, in units of 1,000 cubic metres: the series' amount of a gauged
/// node, and else the node's amount for the calendar month.
pub fn inflow_of(basin: &Basin, series: &Series, node: u32, index: u32) -> u64
    requires basin { IsValidBasin basin.now }
    requires series { IsSeriesOf basin.now series.now }
    requires node { node < length basin.now.nodes }
    requires index { index < basin.now.months }
    ensures { result ≡ inflow_at basin.now series.now node index }
{
    match &basin.nodes[node as usize].inflow {
        Inflow::Monthly(amounts) => amounts[index_in_year(basin, index)],
        Inflow::Gauged => {
            let gauge = index_of(series.gauged.as_slice(), node);
            series.amount[index as usize * series.gauged.len() + gauge]
        }
    }
}

/// The number of a right in the month with this index: the series' want where its wants stand there, and else its
/// number for the calendar month.
fn number_of(basin: &Basin, series: &Series, right: u32, index: u32) -> u64
    requires basin { IsValidBasin basin.now }
    requires series { IsSeriesOf basin.now series.now }
    requires right { right < length basin.now.rights }
    requires index { index < basin.now.months }
    ensures { result ≡ of_entry basin.now.rights right (λ r. number_of basin.now series.now right index r.want) 0 }
{
    match &basin.rights[right as usize].want {
        Want::Monthly(amounts) => amounts[index_in_year(basin, index)],
        Want::Series => {
            let position = index_of(series.wanted.as_slice(), right);
            series.want[index as usize * series.wanted.len() + position]
        }
    }
}

/// The target of a right in the month with this index: its number, and of an instream right on a canal at most what the
/// canal carries, because the canal can't hold more.
fn target_of(basin: &Basin, series: &Series, right: u32, index: u32) -> u64
    requires basin { IsValidBasin basin.now }
    requires series { IsSeriesOf basin.now series.now }
    requires right { right < length basin.now.rights }
    requires index { index < basin.now.months }
    ensures { result ≡ target_of basin.now series.now right index }
{
    let number = number_of(basin, series, right, index);
    match basin.rights[right as usize].kind {
        RightKind::Instream { link } => number.min(carry_of(basin, link, month_at(basin, index))),
        RightKind::Diversion { .. } => number,
        RightKind::Zone { .. } => number,
    }
}

/// The want of a right in the month with this index, in units of 1,000 cubic metres: its target, and of a diversion
/// with a volume at most what is left of the volume. `used` is what the right used of it earlier in the water year.
pub fn want_of(basin: &Basin, series: &Series, right: u32, index: u32, used: u64) -> u64
    requires basin { IsValidBasin basin.now }
    requires series { IsSeriesOf basin.now series.now }
    requires right { right < length basin.now.rights }
    requires index { index < basin.now.months }
    ensures { result ≡ want_of basin.now series.now right index used }
{
    let target = target_of(basin, series, right, index);
    match basin.rights[right as usize].volume {
        Some(volume) => target.min(volume.saturating_sub(used)),
        None => target,
    }
}
