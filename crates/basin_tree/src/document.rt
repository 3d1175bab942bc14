//! A document, and where the entries stand that its names name.
ghost use Rattle.std.specs.Prelude.{◌≡◌, [], codes, IfOk};
ghost use Rattle.toml.specs.View.{table_view, items_view};
ghost use Rattle.first_index.specs.Indices.{index_at};
ghost use Rattle.toml_tree.specs.FirstIndices.{KeepsIndices, earlier_from};
ghost use Rattle.toml_tree.specs.Texts.{texts_after, earlier_like};
ghost use Rattle.basin_tree.specs.Entries.{items_at};
ghost use Rattle.basin_tree.specs.KeyFaults.{format_of};
ghost use Rattle.basin_tree.specs.Indices.{own_key, texts_in, texts_of, named_at};
ghost use Rattle.basin_tree.specs.declared.tables.BasinTable.TheVariants.{Return};
ghost use Rattle.basin_tree.specs.declared.tables.Space.TheVariants.{Nodes, Links, Reservoirs, Diversions, Rights};

use crate::tables::{BasinTable, Space};
use indexmap::IndexMap;
use std::alloc::{AllocError, Global};
use toml::{Table, Value};
use toml_tree::indices::{add_indices, earlier_of, indices_of};
use toml_tree::values::{integer_at, items_of, member};

/// A document with, for each name of a space, the first index that has it, and for each return row the number of
/// earlier rows of its diversion.
#[derive(Drop)]
pub struct Document<'a> {
    pub tree: &'a Table,
    nodes: IndexMap<&'a [u8], u64>,
    links: IndexMap<&'a [u8], u64>,
    reservoirs: IndexMap<&'a [u8], u64>,
    diversions: IndexMap<&'a [u8], u64>,
    rights: IndexMap<&'a [u8], u64>,
    earlier: Vec<u64>,
    ghost nodes_kept: { KeepsIndices nodes (texts_of (table_view tree.now) Nodes) },
    ghost links_kept: { KeepsIndices links (texts_of (table_view tree.now) Links) },
    ghost reservoirs_kept: { KeepsIndices reservoirs (texts_of (table_view tree.now) Reservoirs) },
    ghost diversions_kept: { KeepsIndices diversions (texts_of (table_view tree.now) Diversions) },
    ghost rights_kept: { KeepsIndices rights (texts_of (table_view tree.now) Rights) },
    ghost earlier_kept: { earlier.items
        ≡ earlier_from [] (texts_after (codes "diversion") (items_at (table_view tree.now) Return)) },
}

/// What a table lists.
fn listed_at(tree: &Table, table: BasinTable) -> &[Value]
    ensures { items_view result.now ≡ items_at (table_view tree.now) table }
{
    match member(tree, table.name()) {
        Some(value) => match items_of(value) {
            Some(items) => items,
            None => &[],
        },
        None => &[],
    }
}

/// The key whose text names an entry.
pub fn own_key(table: BasinTable) -> &'static str
    ensures { result.now ≡ own_key table }
{
    match table {
        BasinTable::Reservoir => "node",
        BasinTable::Top
        | BasinTable::Node
        | BasinTable::Link
        | BasinTable::Diversion
        | BasinTable::Instream
        | BasinTable::Zone
        | BasinTable::Return => "name",
    }
}

fn table_indices<'a>(
    alloc: Global,
    tree: &'a Table,
    table: BasinTable,
) -> Result<IndexMap<&'a [u8], u64>, AllocError>
    ensures { IfOk result (λ indices. KeepsIndices indices (texts_in (table_view tree.now) table)) }
{
    indices_of(alloc, listed_at(tree, table), own_key(table))
}

fn right_indices<'a>(alloc: Global, tree: &'a Table) -> Result<IndexMap<&'a [u8], u64>, AllocError>
    ensures { IfOk result (λ indices. KeepsIndices indices (texts_of (table_view tree.now) Space.Rights)) }
{
    let diversions = listed_at(tree, BasinTable::Diversion);
    let instreams = listed_at(tree, BasinTable::Instream);
    let zones = listed_at(tree, BasinTable::Zone);
    let mut indices = indices_of(alloc, diversions, "name")?;
    add_indices(&mut indices, instreams, "name", diversions.len() as u64)?;
    add_indices(
        &mut indices,
        zones,
        "name",
        diversions.len() as u64 + instreams.len() as u64,
    )?;
    Ok(indices)
}

fn index_of(indices: &IndexMap<&[u8], u64>, name: &str) -> Option<u64>
    ensures { result ≡ index_at indices.now name.now }
{
    indices.get(&name.as_bytes()).copied()
}

/// The indices of the names of two tables. AllocError comes where memory is lacking.
fn two_indices<'a>(
    alloc: Global,
    tree: &'a Table,
    first: BasinTable,
    second: BasinTable,
) -> Result<(IndexMap<&'a [u8], u64>, IndexMap<&'a [u8], u64>), AllocError>
    ensures first { IfOk result (λ both. KeepsIndices both.0 (texts_in (table_view tree.now) first)) }
    ensures second { IfOk result (λ both. KeepsIndices both.1 (texts_in (table_view tree.now) second)) }
{
    let one = table_indices(alloc, tree, first)?;
    let other = table_indices(alloc, tree, second)?;
    Ok((one, other))
}

/// The indices of the names of the rights, and for each return row the number of earlier rows of its diversion.
/// AllocError comes where memory is lacking.
fn rights_and_earlier<'a>(
    alloc: Global,
    tree: &'a Table,
) -> Result<(IndexMap<&'a [u8], u64>, Vec<u64>), AllocError>
    ensures rights { IfOk result (λ both. KeepsIndices both.0 (texts_of (table_view tree.now) Space.Rights)) }
    ensures earlier { IfOk result (λ both. both.1.items
        ≡ earlier_from [] (texts_after (codes "diversion") (items_at (table_view tree.now) BasinTable.Return))) }
{
    let earlier = earlier_of(alloc, listed_at(tree, BasinTable::Return), "diversion")?;
    let rights = right_indices(alloc, tree)?;
    Ok((rights, earlier))
}

/// The indices of the names of nodes and links, and those of reservoirs and diversions. AllocError comes where memory
/// is lacking.
fn entry_indices<'a>(
    alloc: Global,
    tree: &'a Table,
) -> Result<
    (
        (IndexMap<&'a [u8], u64>, IndexMap<&'a [u8], u64>),
        (IndexMap<&'a [u8], u64>, IndexMap<&'a [u8], u64>),
    ),
    AllocError,
>
    ensures nodes { IfOk result (λ found. KeepsIndices found.0.0 (texts_of (table_view tree.now) Space.Nodes)) }
    ensures links { IfOk result (λ found. KeepsIndices found.0.1 (texts_of (table_view tree.now) Space.Links)) }
    ensures reservoirs { IfOk result
        (λ found. KeepsIndices found.1.0 (texts_of (table_view tree.now) Space.Reservoirs)) }
    ensures diversions { IfOk result
        (λ found. KeepsIndices found.1.1 (texts_of (table_view tree.now) Space.Diversions)) }
{
    let nodes_and_links = two_indices(alloc, tree, BasinTable::Node, BasinTable::Link)?;
    let others = two_indices(alloc, tree, BasinTable::Reservoir, BasinTable::Diversion)?;
    Ok((nodes_and_links, others))
}

/// The document with the indices of its entries, and with those of its rights and the numbers of earlier return rows.
fn with_indices<'a>(
    tree: &'a Table,
    entries: (
        (IndexMap<&'a [u8], u64>, IndexMap<&'a [u8], u64>),
        (IndexMap<&'a [u8], u64>, IndexMap<&'a [u8], u64>),
    ),
    rights_and_earlier: (IndexMap<&'a [u8], u64>, Vec<u64>),
) -> Document<'a>
    requires nodes { KeepsIndices entries.0.0 (texts_of (table_view tree.now) Space.Nodes) }
    requires links { KeepsIndices entries.0.1 (texts_of (table_view tree.now) Space.Links) }
    requires reservoirs { KeepsIndices entries.1.0 (texts_of (table_view tree.now) Space.Reservoirs) }
    requires diversions { KeepsIndices entries.1.1 (texts_of (table_view tree.now) Space.Diversions) }
    requires rights { KeepsIndices rights_and_earlier.0 (texts_of (table_view tree.now) Space.Rights) }
    requires earlier { rights_and_earlier.1.items
        ≡ earlier_from [] (texts_after (codes "diversion") (items_at (table_view tree.now) BasinTable.Return)) }
    ensures { result.tree.now ≡ tree.now }
{
    let ((nodes, links), (reservoirs, diversions)) = entries;
    let (rights, earlier) = rights_and_earlier;
    Document {
        tree,
        nodes,
        links,
        reservoirs,
        diversions,
        rights,
        earlier,
    }
}

impl<'a> Document<'a> {
    ghost use Rattle.basin_tree.specs.Documents.{tree_of};

    /// The document with this top table. Its maps of names take memory, and AllocError comes where that is lacking.
    pub fn of(alloc: Global, tree: &'a Table) -> Result<Document<'a>, AllocError>
        ensures { IfOk result (λ document. tree_of document ≡ table_view tree.now) }
    {
        let rights_and_earlier = rights_and_earlier(alloc, tree)?;
        let entries = entry_indices(alloc, tree)?;
        Ok(with_indices(tree, entries, rights_and_earlier))
    }

    /// The format of the document: 2 where `format` is this number, and else 1.
    pub fn format(&self) -> u64
        ensures { result ≡ format_of (tree_of self.now) }
    {
        integer_at(self.tree, "format", 1, 2, 1)
    }

    /// What a table lists, in the order of the file.
    pub fn items_at(&self, table: BasinTable) -> &[Value]
        ensures { items_view result.now ≡ items_at (tree_of self.now) table }
    {
        listed_at(self.tree, table)
    }

    /// The index in its space, from 0, of the first entry that has the name.
    pub fn named_at(&self, space: Space, name: &str) -> Option<u64>
        ensures { result ≡ named_at (tree_of self.now) space name.now }
    {
        match space {
            Space::Nodes => index_of(&self.nodes, name),
            Space::Links => index_of(&self.links, name),
            Space::Reservoirs => index_of(&self.reservoirs, name),
            Space::Diversions => index_of(&self.diversions, name),
            Space::Rights => index_of(&self.rights, name),
        }
    }

    /// How many earlier return rows have the row's diversion, by the index of the row from 0.
    pub fn earlier_rows(&self, index: u64) -> u64
        ensures { result
            ≡ earlier_like (texts_after (codes "diversion") (items_at (tree_of self.now) BasinTable.Return)) index }
    {
        self.earlier.get(index as usize).copied().unwrap_or(0)
    }
}
