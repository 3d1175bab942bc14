//! The basin of a document, entry by entry.
ghost use Rattle.std.specs.Prelude.{◌≡◌, ◌++◌, [], map, unwrap_or, IfOk, OnOk, codes};
ghost use Rattle.toml.specs.Data.{get_member, as_array, no_items};
ghost use Rattle.toml.specs.View.{view, table_view, items_view};
ghost use Rattle.basin_tree.specs.Documents.{tree_of};
ghost use Rattle.basin_file.specs.Spelled.{rows_after, rows_in, point_in, points_in, no_area, area_of, reservoir_of};
ghost use Rattle.basin_file.specs.Spelled.{rights_of, basin_of, IsPlain};

use crate::parts::{
    DiversionReader, EntryReader, InstreamReader, LinkReader, NodeReader, ReturnReader, ZoneReader,
    first_of, number_at, point_in,
};
use basin_tree::document::Document;
use basin_tree::tables::{BasinTable, MAX_STORED, Space};
use std::alloc::{AllocError, Global};
use toml::{Table, Value};
use toml_tree::values::{integer_at, items_of, member, monthly_at, text_or_empty};
use water_model::rows::Rows;
use water_model::types::{AreaPoint, Basin, Link, Node, Reservoir, ReturnRow, Right};

fn point_of(value: &Value) -> AreaPoint
    ensures { result ≡ point_in (unwrap_or (as_array (view value.now)) no_items) }
{
    point_in(items_of(value).unwrap_or(&[]))
}

fn points_in(alloc: Global, items: &[Value]) -> Result<Vec<AreaPoint>, AllocError>
    ensures { IfOk result (λ points. points.items ≡ points_in (items_view items.now)) }
{
    let mut points = Vec::new(alloc);
    for value in items {
        points.push(point_of(value))?;
    }
    Ok(points)
}

fn no_area(alloc: Global) -> Result<Vec<AreaPoint>, AllocError>
    ensures { IfOk result (λ points. points.items ≡ no_area) }
{
    let mut points = Vec::new(alloc);
    points.push(AreaPoint {
        storage: 0,
        area: 0,
    })?;
    Ok(points)
}

fn area_at(alloc: Global, row: &Table) -> Result<Vec<AreaPoint>, AllocError>
    ensures { IfOk result (λ points. points.items ≡ area_of (get_member (codes "area") (table_view row.now))) }
{
    match member(row, "area").and_then(|value| items_of(value)) {
        Some(items) => points_in(alloc, items),
        None => no_area(alloc),
    }
}

/// Adds the entries among some values.
fn add_entries<E: Drop, R: EntryReader<E>>(
    into: &mut Vec<E>,
    alloc: Global,
    document: &Document,
    values: &[Value],
) -> Result<(), AllocError>
    ensures { OnOk result
        (into.new.items ≡ into.old.items ++ map (R.spells (tree_of document.now))
        (rows_after (items_view values.now))) }
{
    for value in values {
        if let Some(row) = value.as_table() {
            into.push(R::read(alloc, document, row)?)?;
        }
    }
    Ok(())
}

fn table_of<E: Drop, R: EntryReader<E>>(
    alloc: Global,
    document: &Document,
    table: BasinTable,
) -> Result<Rows<E>, AllocError>
    ensures { IfOk result
        (λ rows. rows ≡ map (R.spells (tree_of document.now)) (rows_in (tree_of document.now) table)) }
{
    let mut entries = Vec::new(alloc);
    add_entries::<E, R>(&mut entries, alloc, document, document.items_at(table))?;
    Ok(Rows::from_vec(entries))
}

/// The reservoir of an entry.
struct ReservoirReader;

impl EntryReader<Reservoir> for ReservoirReader {
    ghost spells = { reservoir_of };

    fn read(alloc: Global, document: &Document, row: &Table) -> Result<Reservoir, AllocError> {
        let area = area_at(alloc, row)?;
        Ok(Reservoir {
            node: number_at(document, Space::Nodes, row, "node"),
            opening: integer_at(row, "opening", 0, MAX_STORED, 0),
            area: Rows::from_vec(area),
            rate: monthly_at(row, "rate", 10_000),
        })
    }
}

fn rights_of(alloc: Global, document: &Document) -> Result<Rows<Right>, AllocError>
    ensures { IfOk result (λ rights. rights ≡ rights_of (tree_of document.now)) }
{
    let mut rights = Vec::new(alloc);
    let diversions = document.items_at(BasinTable::Diversion);
    add_entries::<Right, DiversionReader>(&mut rights, alloc, document, diversions)?;
    let instreams = document.items_at(BasinTable::Instream);
    add_entries::<Right, InstreamReader>(&mut rights, alloc, document, instreams)?;
    let zones = document.items_at(BasinTable::Zone);
    add_entries::<Right, ZoneReader>(&mut rights, alloc, document, zones)?;
    Ok(Rows::from_vec(rights))
}

/// The nodes and the links of the basin that a document spells. AllocError comes where memory is lacking.
fn network_of(alloc: Global, document: &Document) -> Result<(Rows<Node>, Rows<Link>), AllocError>
    ensures nodes { IfOk result (λ parts. parts.0 ≡ (basin_of (tree_of document.now)).nodes) }
    ensures links { IfOk result (λ parts. parts.1 ≡ (basin_of (tree_of document.now)).links) }
{
    let nodes = table_of::<Node, NodeReader>(alloc, document, BasinTable::Node)?;
    let links = table_of::<Link, LinkReader>(alloc, document, BasinTable::Link)?;
    Ok((nodes, links))
}

/// Its rights and its return rows. AllocError comes where memory is lacking.
fn users_of(
    alloc: Global,
    document: &Document,
) -> Result<(Rows<Right>, Rows<ReturnRow>), AllocError>
    ensures rights { IfOk result (λ parts. parts.0 ≡ (basin_of (tree_of document.now)).rights) }
    ensures returns { IfOk result (λ parts. parts.1 ≡ (basin_of (tree_of document.now)).returns) }
{
    let rights = rights_of(alloc, document)?;
    let returns = table_of::<ReturnRow, ReturnReader>(alloc, document, BasinTable::Return)?;
    Ok((rights, returns))
}

/// Its nodes, links, rights and return rows. AllocError comes where memory is lacking.
fn lists_of(
    alloc: Global,
    document: &Document,
) -> Result<((Rows<Node>, Rows<Link>), (Rows<Right>, Rows<ReturnRow>)), AllocError>
    ensures nodes { IfOk result (λ parts. parts.0.0 ≡ (basin_of (tree_of document.now)).nodes) }
    ensures links { IfOk result (λ parts. parts.0.1 ≡ (basin_of (tree_of document.now)).links) }
    ensures rights { IfOk result (λ parts. parts.1.0 ≡ (basin_of (tree_of document.now)).rights) }
    ensures returns { IfOk result (λ parts. parts.1.1 ≡ (basin_of (tree_of document.now)).returns) }
{
    let network = network_of(alloc, document)?;
    let users = users_of(alloc, document)?;
    Ok((network, users))
}

/// The basin that a document spells. What can't be there in a document without a fault has a default.
pub fn basin_of(alloc: Global, document: &Document) -> Result<Basin, AllocError>
    ensures basin { IfOk result (λ basin. basin ≡ basin_of (tree_of document.now)) }
    ensures plain { IfOk result IsPlain }
{
    let reservoirs = table_of::<Reservoir, ReservoirReader>(
        alloc,
        document,
        BasinTable::Reservoir,
    )?;
    let ((nodes, links), (rights, returns)) = lists_of(alloc, document)?;
    let top = document.tree;
    Ok(Basin {
        format: document.format() as u32,
        unit: None,
        first: first_of(text_or_empty(top, "first_month").as_bytes()),
        months: integer_at(top, "months", 1, 1_200, 1) as u32,
        year_start: integer_at(top, "year_start", 1, 12, 10) as u8,
        nodes,
        links,
        reservoirs,
        rights,
        returns,
        due: Rows::new(alloc),
        accounts: Rows::new(alloc),
        draws: Rows::new(alloc),
    })
}
