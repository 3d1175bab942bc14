//! The rows of a verdict that compare one line with what the lines before it say.
//!
//! `month` is a record that shows what was read of the current month. A row answers whether it holds of the line.
ghost use Rattle.std.specs.Prelude.{◌≡◌, ◌<◌, ◌==◌, ◌&&◌, is_none, length, map, not, slice_index};
ghost use Rattle.result_lines.specs.OfBasin.{IsOfBasin};
ghost use Rattle.result_reader.specs.Due.{is_member};
ghost use Rattle.result_reader.specs.ReadSoFar.{ReadSoFar};
ghost use Rattle.water_text.specs.Months.{IsMonth, is_same_month};
ghost use Rattle.water_model.specs.Basin.{instream_link};
ghost use Rattle.water_model.specs.History.{FitsBasin};
ghost use Rattle.water_model.specs.Hydrology.{evaporation, run_month};
ghost use Rattle.water_model.specs.Lookups.{of_entry};
ghost use Rattle.water_model.specs.declared.types.Series.{Series};
ghost use Rattle.water_model.specs.Valid.{IsValidBasin, IsSeriesOf};
ghost use Rattle.cert_check.specs.Checking as checking;
ghost use Rattle.cert_check.specs.Ready.{is_before_calls};
ghost use Rattle.cert_check.specs.Shows.{Shows};

use cut_cert::calls::is_short;
use reservoirs::AreaTable;
use result_lines::item::Item;
use result_lines::quantity::Quantity;
use water_model::calls::{carry_of, want_of};
use water_model::types::{Basin, MonthRecord, RightKind, Series};
use water_text::month::Month;

/// Whether a line is an `in` line.
pub fn is_member(item: &Item) -> bool
    ensures { result ≡ is_member item.now }
{
    match *item {
        Item::Member { .. } => true,
        _ => false,
    }
}

/// Whether a line is the last of a text.
pub fn is_done(item: &Item) -> bool
    ensures { result ≡ checking.is_done item.now }
{
    match *item {
        Item::Done { .. } => true,
        _ => false,
    }
}

fn is_closing(quantity: Quantity) -> bool
    ensures { result ≡ checking.is_closing quantity }
{
    match quantity {
        Quantity::Closing => true,
        _ => false,
    }
}

/// Whether a line stands after the `call` lines of a month.
pub fn is_after_calls(item: &Item) -> bool
    ensures { result ≡ checking.is_after_calls item.now }
{
    match *item {
        Item::Called { .. } | Item::End => true,
        Item::Amount { quantity, .. } => is_closing(quantity),
        _ => false,
    }
}

/// Whether a line stands before the `call` lines of a month and gives an amount or a delivery.
fn is_before_calls(item: &Item) -> bool
    ensures { result ≡ is_before_calls item.now }
{
    match *item {
        Item::Amount { quantity, .. } => !is_closing(quantity),
        Item::Deliver { .. } => true,
        _ => false,
    }
}

/// Whether no row of the calls looks at a line, by the right whose nodes came before it: the line gives an amount or a
/// delivery before the `call` lines of a month, and ends the nodes of no set.
pub fn is_free_of_calls(calling: Option<u32>, item: &Item) -> bool
    ensures { result ≡ (is_none calling && is_before_calls item.now) }
{
    calling.is_none() && is_before_calls(item)
}

fn is_same_month(one: Month, other: Month) -> bool
    ensures { result ≡ is_same_month one other }
{
    one.year == other.year && one.month == other.month
}

/// Whether a run has another first month or number of months than the basin.
pub fn head_wrong(basin: &Basin, first: Month, months: u32) -> bool
    ensures { result ≡ checking.head_wrong basin.now first months }
{
    !(is_same_month(first, basin.first) && months == basin.months)
}

/// Whether a line is the `call` of a right that isn't short.
pub fn cut_needless(basin: &Basin, month: &MonthRecord, item: &Item) -> bool
    requires fits { FitsBasin basin.now month.now }
    requires item { IsOfBasin basin.now item.now }
    ensures { (t : ReadSoFar) → Shows month.now t.now → result ≡ checking.cut_needless t item.now }
{
    match *item {
        Item::Call { right } => !is_short(month, right),
        _ => false,
    }
}

/// Whether an amount is another than that of the entry in a list.
pub fn differs(amounts: &[u64], entry: u32, amount: u64) -> bool
    requires { entry < length amounts.now }
    ensures { result ≡ not (amount == slice_index amounts.now entry) }
{
    !(amount == amounts[entry as usize])
}

/// Whether a flow is more than the link carries.
pub fn flow_wrong(basin: &Basin, month: &MonthRecord, link: u32, amount: u64) -> bool
    requires basin { IsValidBasin basin.now }
    requires month { IsMonth month.now.month }
    requires link { link < length basin.now.links }
    ensures { (series : Series) (t : ReadSoFar) → Shows month.now t.now →
        result ≡ checking.quantity_wrong basin.now series t Quantity.Flow link amount }
{
    carry_of(basin, link, month.month) < amount
}

/// What evaporates from a reservoir that opens with an amount, in the month at this index of a list of twelve.
fn evaporation_of(
    basin: &Basin,
    tables: &[AreaTable],
    reservoir: u32,
    position: usize,
    storage: u64,
) -> u64
    requires tables { tables.now ≡ map (λ v. v.area) basin.now.reservoirs }
    requires reservoir { reservoir < length basin.now.reservoirs }
    requires position { position < 12 }
    ensures { result ≡ of_entry basin.now.reservoirs reservoir
        (λ r. evaporation r.area storage (slice_index r.rate position)) 0 }
{
    let rate = basin.reservoirs[reservoir as usize].rate[position];
    tables[reservoir as usize].evaporation(storage, rate)
}

/// Whether an amount isn't what evaporates from the reservoir, by what it opens with. `tables` has the area table of
/// each reservoir.
pub fn evaporation_wrong(
    basin: &Basin,
    tables: &[AreaTable],
    month: &MonthRecord,
    reservoir: u32,
    amount: u64,
) -> bool
    requires tables { tables.now ≡ map (λ v. v.area) basin.now.reservoirs }
    requires fits { FitsBasin basin.now month.now }
    requires calendar { IsMonth month.now.month }
    requires month { month.now.month ≡ run_month basin.now month.now.index }
    requires reservoir { reservoir < length basin.now.reservoirs }
    ensures { (series : Series) (t : ReadSoFar) → Shows month.now t.now →
        result ≡ checking.quantity_wrong basin.now series t Quantity.Evaporated reservoir amount }
{
    let position = month.month.month as usize - 1;
    let storage = month.opening[reservoir as usize];
    !(amount == evaporation_of(basin, tables, reservoir, position, storage))
}

/// Whether an amount that is delivered is wrong by the want: a take above it, or for an instream right another amount
/// than the lesser of want and flow.
fn amount_wrong(basin: &Basin, flow: &[u64], right: u32, amount: u64, want: u64) -> bool
    requires basin { IsValidBasin basin.now }
    requires right { right < length basin.now.rights }
    requires flow { length flow.now ≡ length basin.now.links }
    ensures { result ≡ checking.amount_wrong (instream_link basin.now right) flow.now amount want }
{
    match basin.rights[right as usize].kind {
        RightKind::Instream { link } => !(amount == want.min(flow[link as usize])),
        RightKind::Diversion { .. } => want < amount,
        RightKind::Zone { .. } => want < amount,
    }
}

/// Whether this isn't the right's want, or what it is delivered is wrong by it.
pub fn delivery_wrong(
    basin: &Basin,
    series: &Series,
    month: &MonthRecord,
    right: u32,
    amount: u64,
    want: u64,
) -> bool
    requires basin { IsValidBasin basin.now }
    requires flow { length month.now.plan.flow ≡ length basin.now.links }
    requires series { IsSeriesOf basin.now series.now }
    requires used { length month.now.used ≡ length basin.now.rights }
    requires index { month.now.index < basin.now.months }
    requires right { right < length basin.now.rights }
    ensures { (t : ReadSoFar) → Shows month.now t.now →
        result ≡ checking.delivery_wrong basin.now series.now t right amount want }
{
    !(want
        == want_of(
            basin,
            series,
            right,
            month.index,
            month.used[right as usize],
        ))
        || amount_wrong(basin, month.plan.flow.as_slice(), right, amount, want)
}
