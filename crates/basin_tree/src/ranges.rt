//! Numbers and months out of their range.
ghost use Rattle.std.specs.Prelude.{◌≡◌, not, true};
ghost use Rattle.std.specs.List.{list_all};
ghost use Rattle.std.specs.Option.{option_map_or};
ghost use Rattle.toml.specs.Data.{as_array};
ghost use Rattle.toml.specs.View.{view, table_view, items_view};
ghost use Rattle.basin_tree.specs.Ranges.{number_in, listed_in, numbers_in, pair_in, points_in, in_range, ends_late};
ghost use Rattle.basin_tree.specs.KeyFaults.{out_of_range, runs_late};

use crate::document::Document;
use crate::keys::{ValueTest, any_value};
use crate::tables::{BasinTable, Kind, MAX_AMOUNT, MAX_STORED};
use crate::walk::EntryTest;
use toml::{Table, Value};
use toml_tree::values::{integer_at, is_between, items_of, text_or_empty};
use water_text::month::Month;

/// The test of `BasinFault::OutOfRange`.
pub struct OutOfRange;

impl ValueTest for OutOfRange {
    ghost fails = { λ _ kind d. not (in_range kind d) };

    fn fails_for(_document: &Document, kind: Kind, value: &Value) -> bool {
        !in_range(kind, value)
    }
}

impl EntryTest for OutOfRange {
    ghost fails = { out_of_range };

    fn fails_at(document: &Document, table: BasinTable, _number: u64, row: &Table) -> bool {
        any_value::<OutOfRange>(document, table, row) || runs_late(table, row)
    }
}

fn ends_late(top: &Table) -> bool
    ensures { result ≡ ends_late (table_view top.now) }
{
    match Month::read(text_or_empty(top, "first_month").as_bytes()) {
        Some(first) => {
            let months = integer_at(top, "months", 1, 1_200, 1) as u32;
            first.plus(months - 1).is_none()
        }
        None => false,
    }
}

fn runs_late(table: BasinTable, row: &Table) -> bool
    ensures { result ≡ runs_late table (table_view row.now) }
{
    match table {
        BasinTable::Top => ends_late(row),
        _ => false,
    }
}

fn number_in(value: &Value, least: u64, most: u64) -> bool
    ensures { result ≡ number_in least most (view value.now) }
{
    value
        .as_integer()
        .is_none_or(|z| is_between(z, least, most))
}

fn all_in(values: &[Value], least: u64, most: u64) -> bool
    ensures { result ≡ list_all (λ v. number_in least most (view v)) values.now }
{
    values.iter().all(|value| number_in(value, least, most))
}

fn items_in(value: &Value, least: u64, most: u64) -> bool
    ensures { result ≡ listed_in least most (view value.now) }
{
    match items_of(value) {
        Some(values) => all_in(values, least, most),
        None => true,
    }
}

fn numbers_in(value: &Value, most: u64) -> bool
    ensures { result ≡ numbers_in most (view value.now) }
{
    number_in(value, 0, most) && items_in(value, 0, most)
}

fn pair_in(values: &[Value]) -> bool
    ensures { result ≡ pair_in (items_view values.now) }
{
    match values {
        [storage, area, ..] => {
            number_in(storage, 0, MAX_STORED) && number_in(area, 0, MAX_AMOUNT)
        }
        _ => true,
    }
}

fn point_in(value: &Value) -> bool
    ensures { result ≡ option_map_or pair_in (as_array (view value.now)) true }
{
    items_of(value).is_none_or(|values| pair_in(values))
}

fn all_points_in(values: &[Value]) -> bool
    ensures { result ≡ list_all (λ v. option_map_or pair_in (as_array (view v)) true) values.now }
{
    values.iter().all(|value| point_in(value))
}

fn points_in(value: &Value) -> bool
    ensures { result ≡ points_in (view value.now) }
{
    match items_of(value) {
        Some(values) => all_points_in(values),
        None => true,
    }
}

fn in_range(kind: Kind, value: &Value) -> bool
    ensures { result ≡ in_range kind (view value.now) }
{
    match kind {
        Kind::Integer(least, most) => number_in(value, least, most),
        Kind::Monthly(most) => numbers_in(value, most),
        Kind::Want => numbers_in(value, MAX_AMOUNT),
        Kind::CalendarMonths => items_in(value, 1, 12),
        Kind::Inflow => numbers_in(value, MAX_AMOUNT),
        Kind::MonthText => value
            .as_str()
            .is_none_or(|text| Month::read(text.as_bytes()).is_some()),
        Kind::Points => points_in(value),
        _ => true,
    }
}
