//! What the rights want in a month, and what a plan delivers to them.
ghost use Rattle.std.specs.Prelude.{ℕ, ◌≡◌, ◌<◌, length, slice_index};
ghost use Rattle.water_text.specs.Months.{IsMonth};
ghost use Rattle.water_model.specs.Hydrology.{in_year, run_month, want_of};
ghost use Rattle.water_model.specs.Plans.{delivery};
ghost use Rattle.water_model.specs.Valid.{IsValidBasin, IsSeriesOf};
ghost use Rattle.month_terms.specs.Calendars.{IsCalendar};

use crate::calendar::{Calendar, InstreamPlace, monthly_want};
use water_model::calls::{carry_of, is_series, month_at, want_of};
use water_model::types::{Basin, Plan, RightKind, Series};
use water_text::month::Month;

/// The want of a right in the month with this index, which is `month`. `position` is that of its calendar month in a
/// list of twelve. Both are the same for all rights, and most of them want what stands there.
fn want_in_year(
    basin: &Basin,
    series: &Series,
    right: u32,
    index: u32,
    month: Month,
    position: usize,
    used: u64,
) -> u64
    requires basin { IsValidBasin basin.now }
    requires series { IsSeriesOf basin.now series.now }
    requires right { right < length basin.now.rights }
    requires index { index < basin.now.months }
    requires month { month ≡ run_month basin.now index }
    requires valid { IsMonth month }
    requires position { position ≡ in_year basin.now index }
    ensures { result ≡ want_of basin.now series.now right index used }
{
    let entry = &basin.rights[right as usize];
    if is_series(&entry.want) || entry.volume.is_some() {
        return want_of(basin, series, right, index, used);
    }
    let number = monthly_want(&entry.want, position);
    match entry.kind {
        RightKind::Instream { link } => number.min(carry_of(basin, link, month)),
        RightKind::Diversion { .. } => number,
        RightKind::Zone { .. } => number,
    }
}

/// Writes the want of each right in the month with this index. `used` is what each right used of its volume earlier in
/// the water year.
pub fn write_wants(
    calendar: &Calendar,
    basin: &Basin,
    series: &Series,
    index: u32,
    used: &[u64],
    want: &mut [u64],
)
    requires calendar { IsCalendar basin.now calendar.now }
    requires basin { IsValidBasin basin.now }
    requires series { IsSeriesOf basin.now series.now }
    requires index { index < basin.now.months }
    requires used { length used.now ≡ length basin.now.rights }
    requires want { length want.old ≡ length basin.now.rights }
    ensures length { length want.new ≡ length want.old }
    ensures each { (r : ℕ) → r < length basin.now.rights →
        slice_index want.new r ≡ want_of basin.now series.now r index (slice_index used.now r) }
{
    let month = month_at(basin, index);
    let position = month.month as usize - 1;
    want.copy_from_slice(calendar.months[position].wants.as_slice());
    for other in 0..calendar.others.len() {
        let right = calendar.others[other];
        let used = used[right as usize];
        want[right as usize] = want_in_year(basin, series, right, index, month, position, used);
    }
}

/// Writes what a plan of the basin delivers to each right: its take, or of an instream right the flow on its link that
/// is wanted.
pub fn write_deliveries(
    calendar: &Calendar,
    basin: &Basin,
    want: &[u64],
    plan: &Plan,
    delivered: &mut [u64],
)
    requires calendar { IsCalendar basin.now calendar.now }
    requires basin { IsValidBasin basin.now }
    requires want { length want.now ≡ length basin.now.rights }
    requires flow { length plan.now.flow ≡ length basin.now.links }
    requires take { length plan.now.take ≡ length basin.now.rights }
    requires delivered { length delivered.old ≡ length basin.now.rights }
    ensures length { length delivered.new ≡ length delivered.old }
    ensures each { (r : ℕ) → r < length basin.now.rights →
        slice_index delivered.new r ≡ delivery basin.now want.now plan.now r }
{
    delivered.copy_from_slice(plan.take.as_slice());
    for place in 0..calendar.instream.len() {
        let InstreamPlace { right, link } = calendar.instream[place];
        delivered[right as usize] = want[right as usize].min(plan.flow[link as usize]);
    }
}
