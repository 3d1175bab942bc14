//! The parts of a basin, each from the keys and values of its entry.
ghost use Rattle.std.specs.Prelude.{◌≡◌, ◌<◌, ◌==◌, Some, false, codes, option_map, IfOk};
ghost use Rattle.std.specs.List.{list_any};
ghost use Rattle.std.specs.Option.{option_map_or};
ghost use Rattle.toml.specs.Data.{Members, get_member};
ghost use Rattle.toml.specs.View.{view, table_view, items_view};
ghost use Rattle.toml_tree.specs.Values.{integer_of};
ghost use Rattle.basin_tree.specs.Documents.{tree_of};
ghost use Rattle.basin_file.specs.Spelled.{name_of, name_at, truth_at, inflow_of, lists_month, shut_of, carry_of};
ghost use Rattle.basin_file.specs.Spelled.{want_of, number_at, point_in, date_of, first_of, node_of, link_of};
ghost use Rattle.basin_file.specs.Spelled.{volume_of, right_of, diversion_of, instream_of, zone_of, return_of};

use basin_tree::document::Document;
use basin_tree::tables::{MAX_AMOUNT, MAX_STORED, Space};
use std::alloc::{AllocError, Global};
use toml::{Table, Value};
use toml_tree::values::{
    integer_at, integer_of, item_at, items_of, member, monthly_at, text_or_empty,
};
use water_model::types::{AreaPoint, Carry, Inflow, Link, Node, ReturnRow, Right, RightKind, Want};
use water_text::day::Day;
use water_text::month::Month;
use water_text::name::Name;

fn name_of(text: &[u8]) -> Name
    ensures { result ≡ name_of text.now }
{
    Name::read(text).unwrap_or(Name::dash())
}

fn name_at(row: &Table, key: &str) -> Name
    ensures { result ≡ name_at key.now (table_view row.now) }
{
    name_of(text_or_empty(row, key).as_bytes())
}

fn truth_at(row: &Table, key: &str) -> bool
    ensures { result ≡ truth_at key.now (table_view row.now) }
{
    member(row, key).is_some_and(|value| value.as_bool().unwrap_or(false))
}

fn inflow_at(row: &Table) -> Inflow
    ensures { result ≡ inflow_of (get_member (codes "inflow") (table_view row.now)) }
{
    if member(row, "inflow").is_some_and(|value| value.is_str()) {
        Inflow::Gauged
    } else {
        Inflow::Monthly(monthly_at(row, "inflow", MAX_AMOUNT))
    }
}

fn has_month(items: &[Value], month: u64) -> bool
    ensures { result ≡ list_any (λ v. integer_of 1 12 0 (Some (view v)) == month) items.now }
{
    items
        .iter()
        .any(|item| integer_of(Some(item), 1, 12, 0) == month)
}

/// Whether a list of calendar months has a month, from 1 for January.
fn lists_month(value: &Value, month: u64) -> bool
    ensures { result ≡ lists_month month (view value.now) }
{
    match items_of(value) {
        Some(items) => has_month(items, month),
        None => false,
    }
}

fn is_shut(closed: Option<&Value>, month: u64) -> bool
    ensures { result ≡ option_map_or (lists_month month) (option_map (λ x. view x.now) closed.entry) false }
{
    closed.is_some_and(|value| lists_month(value, month))
}

/// For each calendar month whether a canal is shut in it.
fn shut_at(row: &Table) -> [bool; 12]
    ensures { result ≡ shut_of (get_member (codes "closed") (table_view row.now)) }
{
    let closed = member(row, "closed");
    let mut shut = [false; 12];
    for i in 0..12 {
        shut[i as usize] = is_shut(closed, i + 1);
    }
    shut
}

fn carry_at(row: &Table) -> Carry
    ensures { result ≡ carry_of (get_member (codes "per_day") (table_view row.now))
        (get_member (codes "closed") (table_view row.now)) }
{
    match member(row, "per_day") {
        Some(value) => Carry::Canal {
            per_day: integer_of(Some(value), 0, MAX_AMOUNT, 0),
            shut: shut_at(row),
        },
        None => Carry::River,
    }
}

/// The index, from 0, of the entry that the text at a key names.
pub fn number_at(document: &Document, space: Space, row: &Table, key: &str) -> u32
    ensures { result ≡ number_at (tree_of document.now) space key.now (table_view row.now) }
{
    match document.named_at(space, text_or_empty(row, key)) {
        Some(at) => { if at < 4_294_967_296 { at as u32 } else { 0 } }
        None => 0,
    }
}

/// The point of a pair of a storage and an area.
pub fn point_in(pair: &[Value]) -> AreaPoint
    ensures { result ≡ point_in (items_view pair.now) }
{
    AreaPoint {
        storage: integer_of(item_at(pair, 0), 0, MAX_STORED, 0),
        area: integer_of(item_at(pair, 1), 0, MAX_AMOUNT, 0),
    }
}

fn date_of(text: &[u8]) -> Day
    ensures { result ≡ date_of text.now }
{
    Day::read(text).unwrap_or(Day {
        year: 0,
        month: 0,
        day: 0,
    })
}

/// The first month of the run.
pub fn first_of(text: &[u8]) -> Month
    ensures { result ≡ first_of text.now }
{
    Month::read(text).unwrap_or(Month {
        year: 1800,
        month: 1,
    })
}

fn volume_at(row: &Table) -> Option<u64>
    ensures { result ≡ volume_of (get_member (codes "volume") (table_view row.now)) }
{
    member(row, "volume").map(|value| integer_of(Some(value), 0, MAX_STORED, 0))
}

/// What a right wants: a text stands for wants in the series.
fn want_at(row: &Table) -> Want
    ensures { result ≡ want_of (get_member (codes "want") (table_view row.now)) }
{
    if member(row, "want").is_some_and(|value| value.is_str()) {
        Want::Series
    } else {
        Want::Monthly(monthly_at(row, "want", MAX_AMOUNT))
    }
}

fn right_of(kind: RightKind, volume: Option<u64>, row: &Table) -> Right
    ensures { result ≡ right_of kind volume (table_view row.now) }
{
    Right {
        name: name_at(row, "name"),
        date: date_of(text_or_empty(row, "date").as_bytes()),
        order: integer_at(row, "order", 0, 1_000_000, 0) as u32,
        kind,
        want: want_at(row),
        volume,
        used: 0,
        season: [true; 12],
    }
}

/// Reads one entry of a table.
pub trait EntryReader<E> {
    ghost spells: { Members → Members → E };

    fn read(alloc: Global, document: &Document, row: &Table) -> Result<E, AllocError>
        ensures { IfOk result (λ entry. entry ≡ spells (tree_of document.now) (table_view row.now)) };
}

/// The node of an entry.
pub struct NodeReader;

impl EntryReader<Node> for NodeReader {
    ghost spells = { λ _. node_of };

    fn read(_alloc: Global, _document: &Document, row: &Table) -> Result<Node, AllocError> {
        Ok(Node {
            name: name_at(row, "name"),
            outlet: truth_at(row, "outlet"),
            inflow: inflow_at(row),
        })
    }
}

/// The link of an entry.
pub struct LinkReader;

impl EntryReader<Link> for LinkReader {
    ghost spells = { link_of };

    fn read(_alloc: Global, document: &Document, row: &Table) -> Result<Link, AllocError> {
        Ok(Link {
            name: name_at(row, "name"),
            from: number_at(document, Space::Nodes, row, "from"),
            to: number_at(document, Space::Nodes, row, "to"),
            carry: carry_at(row),
        })
    }
}

/// The right of a diversion's entry.
pub struct DiversionReader;

impl EntryReader<Right> for DiversionReader {
    ghost spells = { diversion_of };

    fn read(_alloc: Global, document: &Document, row: &Table) -> Result<Right, AllocError> {
        let node = number_at(document, Space::Nodes, row, "node");
        Ok(right_of(RightKind::Diversion { node }, volume_at(row), row))
    }
}

/// The right of an instream right's entry.
pub struct InstreamReader;

impl EntryReader<Right> for InstreamReader {
    ghost spells = { instream_of };

    fn read(_alloc: Global, document: &Document, row: &Table) -> Result<Right, AllocError> {
        let link = number_at(document, Space::Links, row, "link");
        Ok(right_of(RightKind::Instream { link }, None, row))
    }
}

/// The right of a zone's entry.
pub struct ZoneReader;

impl EntryReader<Right> for ZoneReader {
    ghost spells = { zone_of };

    fn read(_alloc: Global, document: &Document, row: &Table) -> Result<Right, AllocError> {
        let reservoir = number_at(document, Space::Reservoirs, row, "reservoir");
        let level = integer_at(row, "level", 1, 16, 1) as u8;
        Ok(right_of(RightKind::Zone { reservoir, level }, None, row))
    }
}

/// The row of a return's entry.
pub struct ReturnReader;

impl EntryReader<ReturnRow> for ReturnReader {
    ghost spells = { return_of };

    fn read(_alloc: Global, document: &Document, row: &Table) -> Result<ReturnRow, AllocError> {
        Ok(ReturnRow {
            right: number_at(document, Space::Diversions, row, "diversion"),
            node: number_at(document, Space::Nodes, row, "node"),
            part: integer_at(row, "part", 1, 10_000, 1) as u32,
            lag: integer_at(row, "lag", 1, 120, 1) as u32,
            rest: 0,
        })
    }
}
