//! The columns of a series: the gauged nodes of a basin, and its rights whose wants stand in the series.
ghost use Rattle.std.specs.Prelude.{◌≡◌, ℕ, ◌+◌, ◌<◌, ◌≤◌, ◌++◌, ◌∷◌, [], length, slice_index, true, false};
ghost use Rattle.std.specs.Prelude.{if◌then◌else◌, IfOk, OnOk};
ghost use Rattle.csv.specs.Records.{fields_of};
ghost use Rattle.water_model.specs.Hydrology.{index_in};
ghost use Rattle.water_model.specs.Valid.{IsValidBasin};
ghost use Rattle.inflow_file.specs.Columns.{IsColumn, AreIndices, column_numbers, columns_from, count_of_both};
ghost use Rattle.inflow_file.specs.Columns.{is_column};
ghost use Rattle.inflow_file.specs.CsvRecords.{with_kind};
ghost use Rattle.inflow_file.specs.Entries.{IsEntry, column_of, gauge_of, read_record, wanted_of};

use crate::entry::SeriesRecord;
use crate::records::fields_with_kind;
use crate::refused::SeriesFault;
use basin_names::BothNames;
use csv::ByteRecord;
use std::alloc::{AllocError, Global};
use water_model::calls::{is_gauged, is_in_series};
use water_model::types::Basin;
use water_text::amount::read_amount;
use water_text::month::Month;

/// The columns, and for each number how many of them stand before it.
#[derive(Drop)]
struct Indices {
    numbers: Vec<u32>,
    of_number: Vec<u32>,
}

/// A basin with its names, the columns of a series of it, and for each number how many columns stand before it. Nodes
/// are numbered from 0, and rights go on after them.
#[derive(Drop)]
pub(crate) struct Columns<'a> {
    pub basin: &'a Basin,
    names: BothNames<'a>,
    pub numbers: Vec<u32>,
    indices: Vec<u32>,
    ghost bounded: { count_of_both basin.now ≤ 4000 },
    ghost named: { names.basin.now ≡ basin.now },
    ghost columns_are: { numbers.items ≡ column_numbers basin.now },
    ghost count: { length indices.items ≡ count_of_both basin.now },
    ghost placed: { (n : ℕ) → n < count_of_both basin.now → is_column basin.now n ≡ true →
        slice_index indices.items n ≡ index_in numbers.items n },
}

fn is_column(basin: &Basin, number: u32) -> bool
    requires basin { IsValidBasin basin.now }
    requires number { number < count_of_both basin.now }
    ensures { result ≡ is_column basin.now number }
{
    let nodes = basin.nodes.len() as u32;
    if number < nodes {
        is_gauged(basin, number)
    } else {
        is_in_series(basin, number - nodes)
    }
}

/// Appends a number, where another one is that of a column.
fn add_column(
    numbers: &mut Vec<u32>,
    basin: &Basin,
    column: u32,
    number: u32,
) -> Result<(), AllocError>
    requires basin { IsValidBasin basin.now }
    requires column { column < count_of_both basin.now }
    ensures { OnOk result
        (numbers.new.items ≡ numbers.old.items ++ (if is_column basin.now column then number ∷ [] else [])) }
{
    if is_column(basin, column) {
        numbers.push(number)?;
    }
    Ok(())
}

/// How many nodes and rights there are.
fn count_of_both(basin: &Basin) -> u32
    requires { IsValidBasin basin.now }
    ensures { result ≡ count_of_both basin.now }
{
    (basin.nodes.len() + basin.rights.len()) as u32
}

/// The columns of a basin.
fn indices_of(alloc: Global, basin: &Basin) -> Result<Indices, AllocError>
    requires { IsValidBasin basin.now }
    ensures { IfOk result (λ indices. AreIndices basin.now indices.numbers.items indices.of_number.items) }
{
    let mut numbers = Vec::new(alloc);
    let mut of_number = Vec::new(alloc);
    for number in 0..count_of_both(basin) {
        of_number.push(numbers.len() as u32)?;
        add_column(&mut numbers, basin, number, number)?;
    }
    Ok(Indices { numbers, of_number })
}

/// The columns among `count` numbers from one on, counted from there: the gauged nodes from 0 on, and the rights whose
/// wants stand in the series from the number of nodes on. AllocError comes where memory is lacking.
#[tactic(auto, using(crate::proofs::ColumnLaws::filters))]
pub(crate) fn columns_from(
    alloc: Global,
    basin: &Basin,
    from: u32,
    count: u32,
) -> Result<Vec<u32>, AllocError>
    requires basin { IsValidBasin basin.now }
    requires numbers { from + count ≤ count_of_both basin.now }
    ensures { IfOk result (λ listed. listed.items ≡ columns_from basin.now from count) }
{
    let mut listed = Vec::new(alloc);
    for number in 0..count {
        add_column(&mut listed, basin, from + number, number)?;
    }
    Ok(listed)
}

impl<'a> Columns<'a> {
    /// The columns of a basin.
    pub fn of(alloc: Global, basin: &'a Basin) -> Result<Columns<'a>, AllocError>
        requires { IsValidBasin basin.now }
        ensures { IfOk result (λ columns. columns.basin.now ≡ basin.now) }
    {
        let Indices { numbers, of_number } = indices_of(alloc, basin)?;
        let names = BothNames::of(alloc, basin)?;
        Ok(Columns {
            basin,
            names,
            numbers,
            indices: of_number,
        })
    }

    /// How many columns there are.
    pub fn count(&self) -> usize
        ensures { result ≡ length (column_numbers self.now.basin.now) }
    {
        self.numbers.len()
    }

    /// The index of a column in the list of the columns.
    pub fn index_of(&self, number: u32) -> u32
        requires { IsColumn self.now.basin.now number }
        ensures { result ≡ index_in (column_numbers self.now.basin.now) number }
    {
        self.indices[number as usize]
    }

    /// The gauged node of a name.
    #[tactic(auto, using(crate::proofs::ColumnLaws::is_gauge))]
    fn gauge_of(&self, name: &[u8]) -> Result<u32, SeriesFault>
        ensures reads { result ≡ gauge_of self.now.basin.now name.now }
        ensures column { IfOk result (IsColumn self.now.basin.now) }
    {
        let node = self.names.node_named(name).ok_or(SeriesFault::NoSuchNode)?;
        if !is_gauged(self.basin, node) {
            return Err(SeriesFault::NotGauged);
        }
        Ok(node)
    }

    /// The number of the right of a name, whose wants stand in the series.
    #[tactic(auto, using(crate::proofs::ColumnLaws::is_want))]
    fn wanted_of(&self, name: &[u8]) -> Result<u32, SeriesFault>
        ensures reads { result ≡ wanted_of self.now.basin.now name.now }
        ensures column { IfOk result (IsColumn self.now.basin.now) }
    {
        let Some(right) = self.names.right_named(name) else {
            return Err(SeriesFault::NoSuchRight);
        };
        if !is_in_series(self.basin, right) {
            return Err(SeriesFault::NotSeries);
        }
        Ok(self.basin.nodes.len() as u32 + right)
    }

    /// The column that a kind and a name stand for.
    fn column_of(&self, kind: &[u8], name: &[u8]) -> Result<u32, SeriesFault>
        ensures reads { result ≡ column_of self.now.basin.now kind.now name.now }
        ensures column { IfOk result (IsColumn self.now.basin.now) }
    {
        if kind == b"inflow".as_slice() {
            self.gauge_of(name)
        } else if kind == b"want".as_slice() {
            self.wanted_of(name)
        } else {
            Err(SeriesFault::BadKind)
        }
    }

    /// What the fields of a record say, or the first fault in them.
    #[tactic(auto, unfolding(crate::specs::Entries::read_record))]
    fn read_fields(
        &self,
        month: &[u8],
        kind: &[u8],
        name: &[u8],
        amount: &[u8],
    ) -> Result<SeriesRecord, SeriesFault>
        ensures reads { result ≡ read_record self.now.basin.now (month.now ∷ kind.now ∷ name.now ∷ amount.now ∷ []) }
        ensures entry { IfOk result (IsEntry self.now.basin.now) }
    {
        let month = Month::read(month).ok_or(SeriesFault::BadMonth)?;
        let column = self.column_of(kind, name)?;
        let amount = read_amount(amount, 1_000_000_000).ok_or(SeriesFault::BadAmount)?;
        Ok(SeriesRecord {
            month,
            column,
            amount,
        })
    }

    /// What a record says after a header with kinds or without, or the first fault that it has by itself.
    #[tactic(auto, using(crate::proofs::FieldLaws::not_four))]
    pub fn read_record(&self, kinds: bool, row: &ByteRecord) -> Result<SeriesRecord, SeriesFault>
        ensures reads { result ≡ read_record self.now.basin.now (with_kind kinds (fields_of row.now)) }
        ensures entry { IfOk result (IsEntry self.now.basin.now) }
    {
        match fields_with_kind(row, kinds) {
            Some((month, kind, name, amount)) => self.read_fields(month, kind, name, amount),
            None => Err(SeriesFault::Csv),
        }
    }
}
