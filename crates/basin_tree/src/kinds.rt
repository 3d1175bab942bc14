//! Values of the wrong kind.
ghost use Rattle.std.specs.Prelude.{◌≡◌, ◌==◌, ◌&&◌, not, false, is_some, length};
ghost use Rattle.std.specs.List.{list_all};
ghost use Rattle.std.specs.Option.{option_map_or};
ghost use Rattle.std.specs.Str.{bytes_eq};
ghost use Rattle.toml.specs.Data.{as_array, as_table};
ghost use Rattle.toml.specs.View.{view};
ghost use Rattle.toml_tree.specs.Items.{items_all};
ghost use Rattle.basin_tree.specs.Kinds.{has_kind, is_integer_value, is_listed, is_monthly, is_text};
ghost use Rattle.basin_tree.specs.Kinds.{is_integer_list};
ghost use Rattle.basin_tree.specs.KeyFaults.{format_of, wrong_kind};

use crate::document::Document;
use crate::keys::{ValueTest, any_value};
use crate::tables::{BasinTable, Kind};
use crate::walk::EntryTest;
use toml::{Table, Value};
use toml_tree::values::items_of;
use water_text::day::has_day_shape;
use water_text::month::has_month_shape;

/// The test of `BasinFault::WrongKind`.
pub struct WrongKind;

impl ValueTest for WrongKind {
    ghost fails = { λ tree kind d. not (has_kind (format_of tree) kind d) };

    fn fails_for(document: &Document, kind: Kind, value: &Value) -> bool {
        !has_kind(document.format(), kind, value)
    }
}

impl EntryTest for WrongKind {
    ghost fails = { wrong_kind };

    fn fails_at(document: &Document, table: BasinTable, _number: u64, row: &Table) -> bool {
        any_value::<WrongKind>(document, table, row)
    }
}

fn are_integer(values: &[Value]) -> bool
    ensures { result ≡ list_all (λ v. is_integer_value (view v)) values.now }
{
    values.iter().all(|value| value.is_integer())
}

fn are_so_many_integer(values: &[Value], count: usize) -> bool
    ensures { result ≡ (length values.now == count && list_all (λ v. is_integer_value (view v)) values.now) }
{
    values.len() == count && are_integer(values)
}

fn is_integer_list(value: &Value) -> bool
    ensures { result ≡ is_integer_list (view value.now) }
{
    match items_of(value) {
        Some(values) => are_integer(values),
        None => false,
    }
}

fn is_list_of(value: &Value, count: usize) -> bool
    ensures { result ≡ is_listed is_integer_value count (view value.now) }
{
    match items_of(value) {
        Some(values) => are_so_many_integer(values, count),
        None => false,
    }
}

fn is_monthly(value: &Value) -> bool
    ensures { result ≡ is_monthly (view value.now) }
{
    value.is_integer() || is_list_of(value, 12)
}

fn are_tables(values: &[Value]) -> bool
    ensures { result ≡ list_all (λ v. is_some (as_table (view v))) values.now }
{
    values.iter().all(|value| value.is_table())
}

fn is_table_list(value: &Value) -> bool
    ensures { result ≡ option_map_or (items_all (λ x. is_some (as_table x))) (as_array (view value.now)) false }
{
    match items_of(value) {
        Some(values) => are_tables(values),
        None => false,
    }
}

fn are_pairs(values: &[Value]) -> bool
    ensures { result ≡ list_all (λ v. is_listed is_integer_value 2 (view v)) values.now }
{
    values.iter().all(|value| is_list_of(value, 2))
}

fn is_pair_list(value: &Value) -> bool
    ensures { result ≡ option_map_or (items_all (is_listed is_integer_value 2)) (as_array (view value.now)) false }
{
    match items_of(value) {
        Some(values) => are_pairs(values),
        None => false,
    }
}

/// Whether a value is this text.
fn is_text(value: &Value, wanted: &str) -> bool
    ensures { result ≡ is_text (bytes_eq wanted.now) (view value.now) }
{
    value.as_str().is_some_and(|text| wanted == text)
}

fn has_kind(format: u64, kind: Kind, value: &Value) -> bool
    ensures { result ≡ has_kind format kind (view value.now) }
{
    match kind {
        Kind::Tables => is_table_list(value),
        Kind::Integer(..) => value.is_integer(),
        Kind::Truth => value.is_bool(),
        Kind::Name => value.is_str(),
        Kind::Refers(_) => value.is_str(),
        Kind::MonthText => value
            .as_str()
            .is_some_and(|text| has_month_shape(text.as_bytes())),
        Kind::DateText => value
            .as_str()
            .is_some_and(|text| has_day_shape(text.as_bytes())),
        Kind::Monthly(_) => is_monthly(value),
        Kind::Want => is_monthly(value) || (2 <= format && is_text(value, "series")),
        Kind::CalendarMonths => is_integer_list(value),
        Kind::Inflow => is_monthly(value) || is_text(value, "gauged"),
        Kind::Points => is_pair_list(value),
    }
}
