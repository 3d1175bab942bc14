//! A month's record, before and after its plan.
ghost use Rattle.std.specs.Prelude.{ℕ, List, ◌≡◌, ◌+◌, ◌<◌, ◌≤◌, ◌^◌, length, slice_index, map};
ghost use Rattle.water_model.specs.Hydrology.{inflow_at, stored_at};
ghost use Rattle.water_model.specs.Valid.{IsValidBasin, IsSeriesOf};
ghost use Rattle.month_terms.specs.Calendars.{IsCalendar};
ghost use Rattle.month_terms.specs.Terms.{FitsRecord, IsSettled, IsConcluded};

use crate::calendar::Calendar;
use crate::closing::close_zones;
use crate::evaporation::evaporate;
use crate::supply::{add_stored, write_inflows};
use crate::want::{write_deliveries, write_wants};
use reservoirs::AreaTable;
use water_model::calls::month_at;
use water_model::types::{Basin, MonthRecord, Series};

/// Settles in a record what is known of the month with this index before its plan: its opening, evaporation, supply and
/// wants. The record still has the closing storage of the month before, and already what comes back to each node and
/// what each right used of its volume. `calendar` is the basin's, and `tables` has the area table of each reservoir.
pub fn settle(
    calendar: &Calendar,
    basin: &Basin,
    series: &Series,
    tables: &[AreaTable],
    index: u32,
    month: &mut MonthRecord,
)
    requires calendar { IsCalendar basin.now calendar.now }
    requires basin { IsValidBasin basin.now }
    requires series { IsSeriesOf basin.now series.now }
    requires tables { tables.now ≡ map (λ v. v.area) basin.now.reservoirs }
    requires index { index < basin.now.months }
    requires month { FitsRecord basin.now month.old }
    requires small { (evaporated : List ℕ) (n : ℕ) → n < length basin.now.nodes →
        inflow_at basin.now series.now n index + slice_index month.old.returned n
        + stored_at basin.now month.old.closing evaporated n < 2 ^ 64 }
    ensures { IsSettled basin.now series.now index month.old month.new }
{
    let date = month_at(basin, index);
    month.index = index;
    month.month = date;
    month
        .opening
        .as_mut_slice()
        .copy_from_slice(month.closing.as_slice());
    evaporate(
        basin,
        tables,
        date,
        month.opening.as_slice(),
        month.evaporated.as_mut_slice(),
    );
    write_inflows(
        calendar,
        basin,
        series,
        index,
        month.returned.as_slice(),
        month.supply.as_mut_slice(),
    );
    add_stored(
        basin,
        month.opening.as_slice(),
        month.evaporated.as_slice(),
        month.supply.as_mut_slice(),
    );
    write_wants(
        calendar,
        basin,
        series,
        index,
        month.used.as_slice(),
        month.want.as_mut_slice(),
    );
}

/// Concludes a record whose plan is found: what the plan delivers to each right, and what each reservoir closes with.
/// `calendar` is the basin's.
pub fn conclude(calendar: &Calendar, basin: &Basin, month: &mut MonthRecord)
    requires calendar { IsCalendar basin.now calendar.now }
    requires basin { IsValidBasin basin.now }
    requires month { FitsRecord basin.now month.old }
    requires small { (r : ℕ) → r < length basin.now.rights → slice_index month.old.plan.take r ≤ 10 ^ 9 }
    ensures { IsConcluded basin.now month.old month.new }
{
    write_deliveries(
        calendar,
        basin,
        month.want.as_slice(),
        &month.plan,
        month.delivered.as_mut_slice(),
    );
    close_zones(
        basin,
        month.plan.take.as_slice(),
        month.closing.as_mut_slice(),
    );
}
