//! Tests of keys, and of the values at the keys that a table has.
ghost use Rattle.std.specs.Prelude.{◌≡◌, nat_le, ◌&&◌, ◌||◌, ◌==◌, Bool, not, false, is_some, string_bytes};
ghost use Rattle.std.specs.List.{list_any};
ghost use Rattle.std.specs.Option.{option_map_or};
ghost use Rattle.std.specs.Str.{bytes_eq};
ghost use Rattle.std.specs.BTreeMap.{keys as map_keys};
ghost use Rattle.toml.specs.Data.{Data, Members, get_member, as_array};
ghost use Rattle.toml.specs.View.{view, table_view};
ghost use Rattle.toml_tree.specs.Items.{items_len};
ghost use Rattle.basin_tree.specs.Documents.{tree_of};
ghost use Rattle.basin_tree.specs.declared.tables.Kind.{Kind};
ghost use Rattle.basin_tree.specs.KeyFaults.{unknown_key, missing_key, lacks_key, has_no_nodes, shuts_no_canal};
ghost use Rattle.basin_tree.specs.KeyFaults.{any_value};

use crate::document::Document;
use crate::tables::{BasinTable, Key, Kind, keys};
use crate::walk::EntryTest;
use toml::{Table, Value};
use toml_tree::values::{count_of, items_of, member};

/// The test of `BasinFault::UnknownKey`.
pub struct UnknownKey;

impl EntryTest for UnknownKey {
    ghost fails = { unknown_key };

    fn fails_at(document: &Document, table: BasinTable, _number: u64, row: &Table) -> bool {
        has_unknown_key(document.format(), keys(table), row)
    }
}

fn is_known(format: u64, known: &[Key], name: &str) -> bool
    ensures { result ≡ list_any (λ key. nat_le key.since format && bytes_eq name.now key.name.now) known.now }
{
    known
        .iter()
        .any(|key| key.since <= format && name == key.name)
}

fn has_unknown_key(format: u64, known: &[Key], row: &Table) -> bool
    ensures { result ≡ list_any
        (λ name. not (list_any (λ key. nat_le key.since format && bytes_eq (string_bytes name) key.name.now) known.now))
        (map_keys row.now) }
{
    row.keys()
        .any(|name| !is_known(format, known, name.as_str()))
}

/// The test of `BasinFault::MissingKey`.
pub struct MissingKey;

impl EntryTest for MissingKey {
    ghost fails = { missing_key };

    fn fails_at(_document: &Document, table: BasinTable, _number: u64, row: &Table) -> bool {
        lacks_key(table, row) || has_no_nodes(table, row) || shuts_no_canal(table, row)
    }
}

fn lacks_some(wanted: &[Key], row: &Table) -> bool
    ensures { result ≡ list_any
        (λ key. key.is_required && not (is_some (get_member key.name.now (table_view row.now)))) wanted.now }
{
    wanted
        .iter()
        .any(|key| key.is_required && member(row, key.name).is_none())
}

fn lacks_key(table: BasinTable, row: &Table) -> bool
    ensures { result ≡ lacks_key table (table_view row.now) }
{
    lacks_some(keys(table), row)
}

fn is_empty_list(value: &Value) -> bool
    ensures { result ≡ option_map_or (λ items. items_len items == 0) (as_array (view value.now)) false }
{
    items_of(value).is_some_and(|items| count_of(items) == 0)
}

fn has_no_nodes(table: BasinTable, row: &Table) -> bool
    ensures { result ≡ has_no_nodes table (table_view row.now) }
{
    match table {
        BasinTable::Top => member(row, "node").is_some_and(|value| is_empty_list(value)),
        _ => false,
    }
}

fn shuts_no_canal(table: BasinTable, row: &Table) -> bool
    ensures { result ≡ shuts_no_canal table (table_view row.now) }
{
    match table {
        BasinTable::Link => member(row, "closed").is_some() && member(row, "per_day").is_none(),
        _ => false,
    }
}

/// A test of a value, given the whole document and the kind of the key that has it.
pub trait ValueTest {
    ghost fails: { Members → Kind → Data → Bool };

    /// Whether the value is at fault.
    fn fails_for(document: &Document, kind: Kind, value: &Value) -> bool
        ensures { result ≡ fails (tree_of document.now) kind (view value.now) };
}

fn any_at<T: ValueTest>(document: &Document, keys: &[Key], row: &Table) -> bool
    ensures { result ≡ list_any
        (λ key. option_map_or
        (T.fails (tree_of document.now) key.kind) (get_member key.name.now (table_view row.now)) false)
        keys.now }
{
    keys.iter().any(|key| match member(row, key.name) {
        Some(value) => T::fails_for(document, key.kind, value),
        None => false,
    })
}

/// Whether the value at some key of the row fails the test.
pub fn any_value<T: ValueTest>(document: &Document, table: BasinTable, row: &Table) -> bool
    ensures { result ≡ any_value (T.fails (tree_of document.now)) table (table_view row.now) }
{
    any_at::<T>(document, keys(table), row)
}
