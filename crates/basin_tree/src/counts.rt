//! Tables with too many entries.
ghost use Rattle.std.specs.Prelude.{◌≡◌, ◌+◌, nat_lt, false};
ghost use Rattle.std.specs.Option.{option_map_or};
ghost use Rattle.toml.specs.Data.{as_array};
ghost use Rattle.toml.specs.View.{view, table_view, items_view};
ghost use Rattle.toml_tree.specs.Items.{items_len};
ghost use Rattle.basin_tree.specs.Documents.{tree_of};
ghost use Rattle.basin_tree.specs.NameFaults.{rights_before, has_many_points, too_many};

use crate::document::Document;
use crate::tables::BasinTable;
use crate::walk::EntryTest;
use toml::{Table, Value};
use toml_tree::values::{count_of, items_of, member};

/// The test of `BasinFault::TooMany`.
pub struct TooMany;

impl EntryTest for TooMany {
    ghost fails = { too_many };

    fn fails_at(document: &Document, table: BasinTable, number: u64, row: &Table) -> bool {
        match table {
            BasinTable::Top => false,
            BasinTable::Node => number > 2_000,
            BasinTable::Link => number > 4_000,
            BasinTable::Reservoir => has_many_points(row),
            BasinTable::Diversion => is_below_sum(2_000, rights_before(document, table), number),
            BasinTable::Instream => is_below_sum(2_000, rights_before(document, table), number),
            BasinTable::Zone => is_below_sum(2_000, rights_before(document, table), number),
            BasinTable::Return => document.earlier_rows(number.saturating_sub(1)) >= 8,
        }
    }
}

/// Whether a number is below a sum, which may be past the end of `u64`.
pub fn is_below_sum(n: u64, first: u64, more: u64) -> bool
    ensures { result ≡ nat_lt n (first + more) }
{
    n < first || n - first < more
}

fn count_of_two(items: &[Value], others: &[Value]) -> u64
    ensures { result ≡ items_len (items_view items.now) + items_len (items_view others.now) }
{
    items.len() as u64 + others.len() as u64
}

/// How many rights stand in the tables before this one.
pub fn rights_before(document: &Document, table: BasinTable) -> u64
    ensures { result ≡ rights_before (tree_of document.now) table }
{
    let diversions = document.items_at(BasinTable::Diversion);
    match table {
        BasinTable::Instream => count_of(diversions),
        BasinTable::Zone => count_of_two(diversions, document.items_at(BasinTable::Instream)),
        _ => 0,
    }
}

fn is_long_list(value: &Value) -> bool
    ensures { result ≡ option_map_or (λ points. nat_lt 64 (items_len points)) (as_array (view value.now)) false }
{
    items_of(value).is_some_and(|points| count_of(points) > 64)
}

fn has_many_points(row: &Table) -> bool
    ensures { result ≡ has_many_points (table_view row.now) }
{
    member(row, "area").is_some_and(|value| is_long_list(value))
}
