//! Names that are no names, that repeat, or that name nothing.
ghost use Rattle.std.specs.Prelude.{◌≡◌, ◌+◌, ◌-◌, not, false, is_some, codes, option_and_then};
ghost use Rattle.std.specs.Option.{option_map_or};
ghost use Rattle.toml.specs.Data.{get, as_str, as_bool};
ghost use Rattle.toml.specs.View.{view, table_view};
ghost use Rattle.water_text.specs.Names.{is_name};
ghost use Rattle.toml_tree.specs.Values.{text_at};
ghost use Rattle.basin_tree.specs.Documents.{tree_of};
ghost use Rattle.basin_tree.specs.NameFaults.{is_bad_name, bad_name, own_space, stands_before, repeats_name, same_name};
ghost use Rattle.basin_tree.specs.NameFaults.{names_none, no_such_name, is_outlet_at, stands_at_outlet};
ghost use Rattle.basin_tree.specs.NameFaults.{outlet_reservoir};
ghost use Rattle.basin_tree.specs.Indices.{named_at, own_key};

use crate::counts::{is_below_sum, rights_before};
use crate::document::{Document, own_key};
use crate::keys::{ValueTest, any_value};
use crate::tables::{BasinTable, Kind, Space};
use crate::walk::EntryTest;
use toml::{Table, Value};
use toml_tree::values::{item_at, text_at};
use water_text::name::is_name;

/// The test of `BasinFault::BadName`.
pub struct BadName;

impl ValueTest for BadName {
    ghost fails = { λ _. is_bad_name };

    fn fails_for(_document: &Document, kind: Kind, value: &Value) -> bool {
        is_bad_name(kind, value)
    }
}

impl EntryTest for BadName {
    ghost fails = { bad_name };

    fn fails_at(document: &Document, table: BasinTable, _number: u64, row: &Table) -> bool {
        any_value::<BadName>(document, table, row)
    }
}

fn is_bad_name(kind: Kind, value: &Value) -> bool
    ensures { result ≡ is_bad_name kind (view value.now) }
{
    match kind {
        Kind::Name => value.as_str().is_some_and(|text| !is_name(text.as_bytes())),
        _ => false,
    }
}

/// The test of `BasinFault::SameName`.
pub struct SameName;

impl EntryTest for SameName {
    ghost fails = { same_name };

    fn fails_at(document: &Document, table: BasinTable, number: u64, row: &Table) -> bool {
        match own_space(table) {
            Some(space) => repeats_name(document, table, number, row, space),
            None => false,
        }
    }
}

/// The space in which the entries of a table have their names.
fn own_space(table: BasinTable) -> Option<Space>
    ensures { result ≡ own_space table }
{
    match table {
        BasinTable::Top => None,
        BasinTable::Node => Some(Space::Nodes),
        BasinTable::Link => Some(Space::Links),
        BasinTable::Reservoir => Some(Space::Reservoirs),
        BasinTable::Diversion => Some(Space::Rights),
        BasinTable::Instream => Some(Space::Rights),
        BasinTable::Zone => Some(Space::Rights),
        BasinTable::Return => None,
    }
}

/// Whether an entry before the index `first + more` of the space has the text as its name.
fn stands_before(document: &Document, space: Space, first: u64, more: u64, text: &str) -> bool
    ensures { result ≡ stands_before (tree_of document.now) space (first + more) text.now }
{
    document
        .named_at(space, text)
        .is_some_and(|at| is_below_sum(at, first, more))
}

fn repeats_name(
    document: &Document,
    table: BasinTable,
    number: u64,
    row: &Table,
    space: Space,
) -> bool
    ensures { result ≡ repeats_name
        (tree_of document.now) (record { table = table; number = number; row = table_view row.now }) space }
{
    let before = rights_before(document, table);
    match text_at(row, own_key(table)) {
        Some(text) => stands_before(document, space, before, number.saturating_sub(1), text),
        None => false,
    }
}

/// The test of `BasinFault::NoSuchName`.
pub struct NoSuchName;

impl ValueTest for NoSuchName {
    ghost fails = { names_none };

    fn fails_for(document: &Document, kind: Kind, value: &Value) -> bool {
        match kind {
            Kind::Refers(space) => is_unknown_text(document, space, value),
            _ => false,
        }
    }
}

impl EntryTest for NoSuchName {
    ghost fails = { no_such_name };

    fn fails_at(document: &Document, table: BasinTable, _number: u64, row: &Table) -> bool {
        any_value::<NoSuchName>(document, table, row)
    }
}

fn is_unknown_text(document: &Document, space: Space, value: &Value) -> bool
    ensures { result ≡ option_map_or
        (λ text. not (is_some (named_at (tree_of document.now) space text))) (as_str (view value.now)) false }
{
    match value.as_str() {
        Some(text) => document.named_at(space, text).is_none(),
        None => false,
    }
}

/// The test of `BasinFault::OutletReservoir`.
pub struct OutletReservoir;

impl EntryTest for OutletReservoir {
    ghost fails = { outlet_reservoir };

    fn fails_at(document: &Document, table: BasinTable, _number: u64, row: &Table) -> bool {
        match table {
            BasinTable::Reservoir => is_at_outlet(document, row),
            _ => false,
        }
    }
}

fn is_outlet_node(node: &Value) -> bool
    ensures { result ≡ option_map_or
        (λ outlet. outlet) (option_and_then as_bool (get (codes "outlet") (view node.now))) false }
{
    node.get("outlet")
        .is_some_and(|outlet| outlet.as_bool().unwrap_or(false))
}

fn is_outlet(document: &Document, at: u64) -> bool
    ensures { result ≡ is_outlet_at (tree_of document.now) at }
{
    match item_at(document.items_at(BasinTable::Node), at) {
        Some(node) => is_outlet_node(node),
        None => false,
    }
}

fn names_outlet(document: &Document, text: &str) -> bool
    ensures { result ≡ option_map_or
        (is_outlet_at (tree_of document.now)) (named_at (tree_of document.now) Space.Nodes text.now) false }
{
    match document.named_at(Space::Nodes, text) {
        Some(at) => is_outlet(document, at),
        None => false,
    }
}

fn is_at_outlet(document: &Document, row: &Table) -> bool
    ensures { result ≡ stands_at_outlet BasinTable.Reservoir (tree_of document.now) (table_view row.now) }
{
    match text_at(row, "node") {
        Some(text) => names_outlet(document, text),
        None => false,
    }
}
