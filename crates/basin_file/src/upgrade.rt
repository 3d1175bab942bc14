//! The table of format 2 that stands for a basin.
ghost use Rattle.std.specs.Prelude.{◌≡◌, ◌<◌, ◌≤◌, ◌^◌, ◌+◌, length, map, codes, true, All, IfOk, OnOk};
ghost use Rattle.std.specs.Prelude.{Some, None, option_map, option_to_list, string_bytes};
ghost use Rattle.std.specs.Str.{IsAscii};
ghost use Rattle.toml.specs.Data.{string, array, table, Members};
ghost use Rattle.toml.specs.View.{view, table_view, items_view, items_of};
ghost use Rattle.toml_tree.specs.Document.{document_of};
ghost use Rattle.water_text.specs.Days.{is_date};
ghost use Rattle.water_text.specs.Months.{IsMonth, month_digits};
ghost use Rattle.water_text.specs.Names.{is_name};
ghost use Rattle.water_model.specs.Basin.{node_name};
ghost use Rattle.water_model.specs.Valid.{IsValidBasin, IsValidInflow, IsValidNode, IsValidLink, IsValidReservoir};
ghost use Rattle.water_model.specs.Valid.{IsValidPoint, IsValidRight, IsValidReturn, IsValidWant, IsMonthly};
ghost use Rattle.water_model.specs.declared.types.Basin.{Basin};
ghost use Rattle.basin_file.specs.BasinFaults.{Spells, file_fault};
ghost use Rattle.basin_file.specs.Spelled.{IsPlain};
ghost use Rattle.basin_file.specs.Upgraded.{with_member, with_option, two_digits, day_text, number, numbers};
ghost use Rattle.basin_file.specs.Upgraded.{inflow_data, node_row, shut_months, some_items, link_row, point_data};
ghost use Rattle.basin_file.specs.Upgraded.{reservoir_row, want_data, right_row, return_row, rights_in, listed};
ghost use Rattle.basin_file.specs.Upgraded.{basin_table};

use crate::findings::is_in_table;
use basin_tree::tables::BasinTable;
use std::alloc::{AllocError, Global};
use toml::ser::Error;
use toml::{Table, Value};
use water_model::types::{
    AreaPoint, Basin, Carry, Inflow, Link, Node, Reservoir, ReturnRow, Right, RightKind, Want,
};
use water_text::day::Day;
use water_text::line::Line;
use water_text::month::Month;

/// Adds a key and its value to a table.
fn put(alloc: Global, row: &mut Table, key: &str, value: Value) -> Result<(), AllocError>
    ensures { OnOk result (table_view row.new ≡ with_member key.now (view value) (table_view row.old)) }
{
    let name = String::from_str(alloc, key)?;
    let _ = row.insert(name, value)?;
    Ok(())
}

/// Adds a text of ASCII bytes.
fn put_text(alloc: Global, row: &mut Table, key: &str, text: &[u8]) -> Result<(), AllocError>
    requires { IsAscii text.now }
    ensures { OnOk result (table_view row.new ≡ with_member key.now (string text.now) (table_view row.old)) }
{
    match std::str::from_utf8(text) {
        Ok(text) => put(alloc, row, key, Value::string(alloc, text)?),
        Err(_) => unreachable!(),
    }
}

/// Adds a name.
#[tactic(auto, using(crate::proofs::Values::name_ascii))]
fn put_name(alloc: Global, row: &mut Table, key: &str, name: &[u8]) -> Result<(), AllocError>
    requires { is_name name.now ≡ true }
    ensures { OnOk result (table_view row.new ≡ with_member key.now (string name.now) (table_view row.old)) }
{
    put_text(alloc, row, key, name)
}

/// The name of a node.
fn node_name(basin: &Basin, node: u32) -> &[u8]
    requires basin { IsValidBasin basin.now }
    requires node { node < length basin.now.nodes }
    ensures value { result.now ≡ node_name basin.now node }
    ensures name { is_name result.now ≡ true }
{
    basin.nodes[node as usize].name.bytes()
}

fn number(n: u64) -> Value
    requires { n < 2 ^ 63 }
    ensures { view result ≡ number n }
{
    Value::Integer(n as i64)
}

/// Adds a whole number.
fn put_number(alloc: Global, row: &mut Table, key: &str, n: u64) -> Result<(), AllocError>
    requires { n < 2 ^ 63 }
    ensures { OnOk result (table_view row.new ≡ with_member key.now (number n) (table_view row.old)) }
{
    put(alloc, row, key, number(n))
}

/// Adds a list, unless it is empty.
fn put_list(alloc: Global, row: &mut Table, key: &str, list: Vec<Value>) -> Result<(), AllocError>
    ensures { OnOk result
        (table_view row.new ≡ with_option key.now (some_items (items_view list.items)) (table_view row.old)) }
{
    if list.as_slice().is_empty() {
        return Ok(());
    }
    put(alloc, row, key, Value::Array(list))
}

/// A list of whole numbers.
fn numbers(alloc: Global, amounts: &[u64]) -> Result<Value, AllocError>
    requires { All (λ n. n ≤ 10 ^ 12) amounts.now }
    ensures { IfOk result (λ value. view value ≡ array (numbers amounts.now)) }
{
    let mut list = Vec::with_capacity(alloc, amounts.len())?;
    for n in amounts {
        list.push(number(*n))?;
    }
    Ok(Value::Array(list))
}

/// The two digits of a number below 100.
fn two_digits(n: u16) -> [u8; 2]
    requires { n < 100 }
    ensures { result ≡ two_digits n }
{
    [b'0' + (n / 10) as u8, b'0' + (n % 10) as u8]
}

/// Adds a month.
fn put_month(alloc: Global, row: &mut Table, key: &str, month: Month) -> Result<(), AllocError>
    requires { IsMonth month }
    ensures { OnOk result
        (table_view row.new ≡ with_member key.now (string (month_digits month)) (table_view row.old)) }
{
    let mut line = Line::new();
    month.put_into(&mut line);
    put_text(alloc, row, key, line.bytes())
}

/// The text of a day.
#[tactic(auto, unfolding(crate::specs::Upgraded::day_text))]
fn day_text(day: Day) -> [u8; 10]
    requires { is_date day ≡ true }
    ensures { result ≡ day_text day }
{
    let [c, d] = two_digits(day.year / 100);
    let [y, z] = two_digits(day.year % 100);
    let [m, n] = two_digits(u16::from(day.month));
    let [i, j] = two_digits(u16::from(day.day));
    [c, d, y, z, b'-', m, n, b'-', i, j]
}

/// Adds a date.
fn put_date(alloc: Global, row: &mut Table, key: &str, date: Day) -> Result<(), AllocError>
    requires { is_date date ≡ true }
    ensures { OnOk result (table_view row.new ≡ with_member key.now (string (day_text date)) (table_view row.old)) }
{
    let text = day_text(date);
    put_text(alloc, row, key, &text)
}

fn inflow_value(alloc: Global, inflow: &Inflow) -> Result<Value, AllocError>
    requires { IsValidInflow inflow.now }
    ensures { IfOk result (λ value. view value ≡ inflow_data inflow.now) }
{
    match inflow {
        Inflow::Monthly(amounts) => numbers(alloc, amounts),
        Inflow::Gauged => Value::string(alloc, "gauged"),
    }
}

/// The calendar months in which a canal is shut.
fn months_shut(alloc: Global, shut: &[bool]) -> Result<Vec<Value>, AllocError>
    requires { length shut.now ≤ 12 }
    ensures { IfOk result (λ list. items_view list.items ≡ numbers (shut_months 1 shut.now)) }
{
    let mut list = Vec::new(alloc);
    for (i, is_shut) in shut.iter().enumerate() {
        if *is_shut {
            list.push(number(i as u64 + 1))?;
        }
    }
    Ok(list)
}

fn point_value(alloc: Global, point: AreaPoint) -> Result<Value, AllocError>
    requires { IsValidPoint point }
    ensures { IfOk result (λ value. view value ≡ point_data point) }
{
    numbers(alloc, &[point.storage, point.area])
}

/// The points of an area table.
fn points(alloc: Global, area: &[AreaPoint]) -> Result<Vec<Value>, AllocError>
    requires { All IsValidPoint area.now }
    ensures { IfOk result (λ list. items_view list.items ≡ items_of (map point_data area.now)) }
{
    let mut list = Vec::new(alloc);
    for point in area {
        list.push(point_value(alloc, *point)?)?;
    }
    Ok(list)
}

fn want_value(alloc: Global, want: &Want) -> Result<Value, AllocError>
    requires { IsValidWant want.now }
    ensures { IfOk result (λ value. view value ≡ want_data want.now) }
{
    match want {
        Want::Monthly(amounts) => numbers(alloc, amounts),
        Want::Series => Value::string(alloc, "series"),
    }
}

/// Adds the keys that a right has whatever its kind.
fn put_right(alloc: Global, row: &mut Table, right: &Right) -> Result<(), AllocError>
    requires name { is_name right.now.name ≡ true }
    requires order { right.now.order ≤ 1000000 }
    requires want { IsValidWant right.now.want }
    requires date { is_date right.now.date ≡ true }
    ensures { OnOk result (table_view row.new ≡ with_member (codes "want") (want_data right.now.want)
        (with_member (codes "order") (number right.now.order)
        (with_member (codes "name") (string right.now.name)
        (with_member (codes "date") (string (day_text right.now.date)) (table_view row.old))))) }
{
    put_date(alloc, row, "date", right.date)?;
    put_name(alloc, row, "name", right.name.bytes())?;
    put_number(alloc, row, "order", u64::from(right.order))?;
    put(alloc, row, "want", want_value(alloc, &right.want)?)
}

/// Adds the volume of a diversion, if it has one.
fn put_volume(alloc: Global, row: &mut Table, volume: Option<u64>) -> Result<(), AllocError>
    requires { All (λ n. n ≤ 16000000000) (option_to_list volume) }
    ensures { OnOk result
        (table_view row.new ≡ with_option (codes "volume") (option_map number volume) (table_view row.old)) }
{
    match volume {
        Some(volume) => put_number(alloc, row, "volume", volume),
        None => Ok(()),
    }
}

/// The table of a right.
fn right_row(alloc: Global, basin: &Basin, right: &Right) -> Result<Table, AllocError>
    requires basin { IsValidBasin basin.now }
    requires right { IsValidRight basin.now right.now }
    requires date { is_date right.now.date ≡ true }
    ensures { IfOk result (λ row. table_view row ≡ right_row basin.now right.now) }
{
    let mut row = Table::new(alloc);
    put_right(alloc, &mut row, right)?;
    match right.kind {
        RightKind::Diversion { node } => {
            put_name(alloc, &mut row, "node", node_name(basin, node))?;
            put_volume(alloc, &mut row, right.volume)?;
        }
        RightKind::Instream { link } => {
            let name = basin.links[link as usize].name.bytes();
            put_name(alloc, &mut row, "link", name)?;
        }
        RightKind::Zone { reservoir, level } => {
            let node = basin.reservoirs[reservoir as usize].node;
            put_name(alloc, &mut row, "reservoir", node_name(basin, node))?;
            put_number(alloc, &mut row, "level", u64::from(level))?;
        }
    }
    Ok(row)
}

/// Makes the table of one entry.
trait RowWriter<E> {
    ghost fits: { Basin → E → Type 0 };

    ghost table_of: { Basin → E → Members };

    fn write(alloc: Global, basin: &Basin, entry: &E) -> Result<Table, AllocError>
        requires basin { IsValidBasin basin.now }
        requires fits { fits basin.now entry.now }
        ensures { IfOk result (λ made. table_view made ≡ table_of basin.now entry.now) };
}

/// The table of a node.
struct NodeWriter;

impl RowWriter<Node> for NodeWriter {
    ghost fits = { λ _ node. IsValidNode node };

    ghost table_of = { λ _ node. node_row node };

    fn write(alloc: Global, _basin: &Basin, node: &Node) -> Result<Table, AllocError> {
        let mut row = Table::new(alloc);
        put_name(alloc, &mut row, "name", node.name.bytes())?;
        put(alloc, &mut row, "outlet", Value::Boolean(node.outlet))?;
        put(
            alloc,
            &mut row,
            "inflow",
            inflow_value(alloc, &node.inflow)?,
        )?;
        Ok(row)
    }
}

/// The table of a link.
struct LinkWriter;

impl RowWriter<Link> for LinkWriter {
    ghost fits = { λ b link. IsValidLink b link };

    ghost table_of = { λ b link. link_row b link };

    fn write(alloc: Global, basin: &Basin, link: &Link) -> Result<Table, AllocError> {
        let mut row = Table::new(alloc);
        put_name(alloc, &mut row, "name", link.name.bytes())?;
        put_name(alloc, &mut row, "from", node_name(basin, link.from))?;
        put_name(alloc, &mut row, "to", node_name(basin, link.to))?;
        match &link.carry {
            Carry::River => {}
            Carry::Canal { per_day, shut } => {
                put_number(alloc, &mut row, "per_day", *per_day)?;
                put_list(alloc, &mut row, "closed", months_shut(alloc, shut)?)?;
            }
        }
        Ok(row)
    }
}

/// The table of a reservoir.
struct ReservoirWriter;

impl RowWriter<Reservoir> for ReservoirWriter {
    ghost fits = { λ b reservoir. IsValidReservoir b reservoir };

    ghost table_of = { λ b reservoir. reservoir_row b reservoir };

    fn write(alloc: Global, basin: &Basin, reservoir: &Reservoir) -> Result<Table, AllocError> {
        let mut row = Table::new(alloc);
        put_name(alloc, &mut row, "node", node_name(basin, reservoir.node))?;
        put_number(alloc, &mut row, "opening", reservoir.opening)?;
        put(
            alloc,
            &mut row,
            "area",
            Value::Array(points(alloc, reservoir.area.as_slice())?),
        )?;
        put(alloc, &mut row, "rate", numbers(alloc, &reservoir.rate)?)?;
        Ok(row)
    }
}

/// The table of a return row.
struct ReturnWriter;

impl RowWriter<ReturnRow> for ReturnWriter {
    ghost fits = { λ b entry. IsValidReturn b entry };

    ghost table_of = { λ b entry. return_row b entry };

    fn write(alloc: Global, basin: &Basin, entry: &ReturnRow) -> Result<Table, AllocError> {
        let mut row = Table::new(alloc);
        let right = basin.rights[entry.right as usize].name.bytes();
        put_name(alloc, &mut row, "diversion", right)?;
        put_name(alloc, &mut row, "node", node_name(basin, entry.node))?;
        put_number(alloc, &mut row, "part", u64::from(entry.part))?;
        put_number(alloc, &mut row, "lag", u64::from(entry.lag))?;
        Ok(row)
    }
}

/// The tables of some entries.
fn rows_of<E, W: RowWriter<E>>(
    alloc: Global,
    basin: &Basin,
    entries: &[E],
) -> Result<Vec<Value>, AllocError>
    requires basin { IsValidBasin basin.now }
    requires fits { All (W.fits basin.now) entries.now }
    ensures { IfOk result
        (λ list. items_view list.items ≡ items_of (map (λ e. table (W.table_of basin.now e)) entries.now)) }
{
    let mut list = Vec::new(alloc);
    for entry in entries {
        list.push(Value::Table(W::write(alloc, basin, entry)?))?;
    }
    Ok(list)
}

/// The tables of the rights of one kind.
fn rights_of(alloc: Global, basin: &Basin, which: BasinTable) -> Result<Vec<Value>, AllocError>
    requires { IsValidBasin basin.now }
    ensures { IfOk result
        (λ list. items_view list.items ≡ items_of
        (map (λ r. table (right_row basin.now r)) (rights_in which basin.now.rights))) }
{
    let mut list = Vec::new(alloc);
    for right in basin.rights.as_slice() {
        if is_in_table(which, &right.kind) {
            list.push(Value::Table(right_row(alloc, basin, right)?))?;
        }
    }
    Ok(list)
}

/// Adds the entries of a table, unless there are none.
fn put_rows<E, W: RowWriter<E>>(
    alloc: Global,
    top: &mut Table,
    key: &str,
    basin: &Basin,
    entries: &[E],
) -> Result<(), AllocError>
    requires basin { IsValidBasin basin.now }
    requires fits { All (W.fits basin.now) entries.now }
    ensures { OnOk result
        (table_view top.new ≡ with_option key.now (listed (W.table_of basin.now) entries.now) (table_view top.old)) }
{
    put_list(alloc, top, key, rows_of::<E, W>(alloc, basin, entries)?)
}

/// Adds the rights of one kind, unless there are none.
fn put_rights(
    alloc: Global,
    top: &mut Table,
    key: &str,
    basin: &Basin,
    which: BasinTable,
) -> Result<(), AllocError>
    requires { IsValidBasin basin.now }
    ensures { OnOk result
        (table_view top.new ≡ with_option key.now (listed (right_row basin.now) (rights_in which basin.now.rights))
        (table_view top.old)) }
{
    put_list(alloc, top, key, rights_of(alloc, basin, which)?)
}

/// The table of format 2 that stands for a basin: every key with its value, monthly values as lists of twelve. What a
/// river, a canal that is never shut and a right without a volume don't have is left out, and so is an empty list.
///
/// It takes memory, for each value of the basin. AllocError comes only where that is lacking.
pub fn spelled(alloc: Global, basin: &Basin) -> Result<Table, AllocError>
    requires { IsValidBasin basin.now }
    ensures { IfOk result (λ made. table_view made ≡ basin_table basin.now) }
{
    let mut top = Table::new(alloc);
    put_rights(alloc, &mut top, "zone", basin, BasinTable::Zone)?;
    put_number(alloc, &mut top, "year_start", u64::from(basin.year_start))?;
    let returns = basin.returns.as_slice();
    put_rows::<ReturnRow, ReturnWriter>(alloc, &mut top, "return", basin, returns)?;
    let reservoirs = basin.reservoirs.as_slice();
    put_rows::<Reservoir, ReservoirWriter>(alloc, &mut top, "reservoir", basin, reservoirs)?;
    let nodes = basin.nodes.as_slice();
    put_rows::<Node, NodeWriter>(alloc, &mut top, "node", basin, nodes)?;
    put_number(alloc, &mut top, "months", u64::from(basin.months))?;
    let links = basin.links.as_slice();
    put_rows::<Link, LinkWriter>(alloc, &mut top, "link", basin, links)?;
    put_rights(alloc, &mut top, "instream", basin, BasinTable::Instream)?;
    put_number(alloc, &mut top, "format", 2)?;
    put_month(alloc, &mut top, "first_month", basin.first)?;
    put_rights(alloc, &mut top, "diversion", basin, BasinTable::Diversion)?;
    Ok(top)
}

/// The text of a file of format 2 that spells a basin: it is read as the basin's table, which spells the basin itself,
/// but for the format, and it has no fault.
///
/// It takes memory, for the table and for the text. AllocError comes only where that is lacking.
pub fn upgraded(alloc: Global, basin: &Basin) -> Result<String, AllocError>
    requires valid { IsValidBasin basin.now }
    requires plain { IsPlain basin.now }
    ensures table { IfOk result (λ text. document_of (string_bytes text) ≡ Some (basin_table basin.now)) }
    ensures spells { IfOk result (λ text. Spells (string_bytes text) (record basin.now { format = 2 })) }
    ensures sound { IfOk result (λ text. file_fault (string_bytes text) ≡ None) }
{
    let table = spelled(alloc, basin)?;
    match toml::table_to_string(alloc, &table) {
        Ok(text) => Ok(text),
        Err(Error::OutOfMemory) => Err(AllocError),
        // No value of the table is a date of TOML.
        Err(Error::DateInvalid) => unreachable!(),
    }
}
