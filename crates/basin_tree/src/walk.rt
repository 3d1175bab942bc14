//! The first entry that fails a test, for any test of an entry.
ghost use Rattle.std.specs.Prelude.{◌≡◌, Bool, option_map};
ghost use Rattle.std.specs.List.{find};
ghost use Rattle.toml.specs.Data.{Members};
ghost use Rattle.toml.specs.View.{table_view, items_view};
ghost use Rattle.basin_tree.specs.Documents.{tree_of};
ghost use Rattle.basin_tree.specs.Entries.{Entry, entries_after, entries_in, first_some, found, found_at};
ghost use Rattle.basin_tree.specs.Order.{found_by};
ghost use Rattle.basin_tree.specs.Tables.{listed};

use crate::document::Document;
use crate::fault::BasinFault;
use crate::tables::BasinTable;
use toml::{Table, Value};

/// A fault, and the entry that has it. The top's entry is 0, and others count from 1 in their table.
#[derive(Clone, Copy)]
pub struct Finding {
    pub fault: BasinFault,
    pub table: BasinTable,
    pub entry: u32,
}

/// A test of an entry, given the whole document.
pub trait EntryTest {
    ghost fails: { Members → Entry → Bool };

    /// Whether the entry of this table and number, with these keys and values, is at fault.
    fn fails_at(document: &Document, table: BasinTable, number: u64, row: &Table) -> bool
        ensures { result ≡ fails
            (tree_of document.now) (record { table = table; number = number; row = table_view row.now }) };
}

/// A fault at the entry of a table and number.
pub fn found(fault: BasinFault, table: BasinTable, number: u64) -> Finding
    ensures { result ≡ found fault table number }
{
    Finding {
        fault,
        table,
        entry: u32::try_from(number).unwrap_or(u32::MAX),
    }
}

fn first_in_rows<T: EntryTest>(
    document: &Document,
    fault: BasinFault,
    table: BasinTable,
    rows: &[Value],
) -> Option<Finding>
    ensures { result ≡ option_map (found_at fault)
        (find (T.fails (tree_of document.now)) (entries_after table 0 (items_view rows.now))) }
{
    for (i, value) in rows.iter().enumerate() {
        if let Some(row) = value.as_table() {
            let number = i as u64 + 1;
            if T::fails_at(document, table, number, row) {
                return Some(found(fault, table, number));
            }
        }
    }
    None
}

fn first_in<T: EntryTest>(
    document: &Document,
    fault: BasinFault,
    table: BasinTable,
) -> Option<Finding>
    ensures { result ≡ option_map (found_at fault)
        (find (T.fails (tree_of document.now)) (entries_in (tree_of document.now) table)) }
{
    first_in_rows::<T>(document, fault, table, document.items_at(table))
}

/// The first entry below the top that fails the test.
fn first_listed<T: EntryTest>(document: &Document, fault: BasinFault) -> Option<Finding>
    ensures { result ≡ first_some
        (λ table. option_map (found_at fault)
        (find (T.fails (tree_of document.now)) (entries_in (tree_of document.now) table))) listed }
{
    if let Some(finding) = first_in::<T>(document, fault, BasinTable::Node) {
        return Some(finding);
    }
    if let Some(finding) = first_in::<T>(document, fault, BasinTable::Link) {
        return Some(finding);
    }
    if let Some(finding) = first_in::<T>(document, fault, BasinTable::Reservoir) {
        return Some(finding);
    }
    if let Some(finding) = first_in::<T>(document, fault, BasinTable::Diversion) {
        return Some(finding);
    }
    if let Some(finding) = first_in::<T>(document, fault, BasinTable::Instream) {
        return Some(finding);
    }
    if let Some(finding) = first_in::<T>(document, fault, BasinTable::Zone) {
        return Some(finding);
    }
    first_in::<T>(document, fault, BasinTable::Return)
}

/// The first entry that fails the test, in the order of tables and entries.
pub fn first_finding<T: EntryTest>(document: &Document, fault: BasinFault) -> Option<Finding>
    ensures { result ≡ found_by (fault, T.fails) (tree_of document.now) }
{
    if T::fails_at(document, BasinTable::Top, 0, document.tree) {
        return Some(found(fault, BasinTable::Top, 0));
    }
    first_listed::<T>(document, fault)
}
