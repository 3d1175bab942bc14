//! Reads a series.
ghost use Rattle.std.specs.Prelude.{◌≡◌, [], ◌||◌, ◌<◌, ◌+◌, ◌*◌, ◌^◌, List, ℕ, length, map, None, IfOk, IfErr, OnOk};
ghost use Rattle.csv.specs.Records.{fields_of};
ghost use Rattle.water_model.specs.Valid.{IsValidBasin, IsSeriesOf};
ghost use Rattle.inflow_file.specs.Columns.{column_numbers};
ghost use Rattle.inflow_file.specs.CsvRecords.{records_of, is_header, with_kind};
ghost use Rattle.inflow_file.specs.Given.{given_by, Takes, TakesAll, TakesTable, TookTable};
ghost use Rattle.inflow_file.specs.RecordsLeft.{IsReading, records_left};
ghost use Rattle.inflow_file.specs.SeriesFaults.{IsSeriesRefusal, SpellsSeries, series_fault, has_kinds};

use crate::cells::{complete, enter};
use crate::columns::Columns;
use crate::records::{is_header, is_kind_header, read_row, reader_of};
use crate::refused::{SeriesFault, SeriesRefused};
use csv::{ByteRecord, Reader};
use std::alloc::{AllocError, Global};
use water_model::types::{Basin, Series};

/// Takes a record after the header, unless it is at fault.
fn take(
    columns: &Columns,
    kinds: bool,
    amounts: &mut [Option<u64>],
    row: &ByteRecord,
) -> Result<(), SeriesFault>
    requires basin { IsValidBasin columns.now.basin.now }
    requires count { length amounts.old ≡ columns.now.basin.now.months * length (column_numbers columns.now.basin.now) }
    ensures { (before : List (List (List ℕ))) →
        Takes columns.now.basin.now before (with_kind kinds (fields_of row.now)) amounts.old amounts.new result }
{
    let entry = match columns.read_record(kinds, row) {
        Ok(entry) => entry,
        Err(fault) => return Err(fault),
    };
    enter(columns, amounts, &entry)
}

/// Takes the records that a reader has left after the header, or refuses the first that is at fault.
fn take_all(
    reader: &mut Reader<&[u8]>,
    row: &mut ByteRecord,
    columns: &Columns,
    kinds: bool,
    amounts: &mut [Option<u64>],
) -> Result<(), SeriesRefused>
    requires reader { IsReading reader.old }
    requires bounded { length (records_left reader.old) + 1 < 2 ^ 64 }
    requires basin { IsValidBasin columns.now.basin.now }
    requires empty { amounts.old ≡ given_by columns.now.basin.now [] }
    ensures { TakesAll columns.now.basin.now (map (with_kind kinds) (records_left reader.old)) amounts.new result }
{
    let mut number = 1;
    'rows: while read_row(reader, row)? {
        number += 1;
        if let Err(fault) = take(columns, kinds, amounts, row) {
            return Err(SeriesRefused::Record { fault, number });
        }
    }
    Ok(())
}

fn no_header() -> SeriesRefused
    ensures { result ≡ SeriesRefused.Record SeriesFault.Header 1 }
{
    SeriesRefused::Record {
        fault: SeriesFault::Header,
        number: 1,
    }
}

/// Whether a header has kinds. That of a basin of format 1 never has.
fn has_kinds(basin: &Basin, row: &ByteRecord) -> bool
    ensures { result ≡ has_kinds basin.now (fields_of row.now) }
{
    basin.format == 2 && is_kind_header(row)
}

/// Whether a record is a header, without kinds or with them.
fn has_header(row: &ByteRecord, kinds: bool) -> bool
    ensures { result ≡ (is_header (fields_of row.now) || kinds) }
{
    is_header(row) || kinds
}

/// Takes the records that a reader has, whose first has to be a header.
fn take_records(
    reader: &mut Reader<&[u8]>,
    row: &mut ByteRecord,
    columns: &Columns,
    amounts: &mut [Option<u64>],
) -> Result<(), SeriesRefused>
    requires reader { IsReading reader.old }
    requires bounded { length (records_left reader.old) < 2 ^ 64 }
    requires basin { IsValidBasin columns.now.basin.now }
    requires empty { amounts.old ≡ given_by columns.now.basin.now [] }
    ensures { TakesTable columns.now.basin.now (records_left reader.old) amounts.new result }
{
    let found = read_row(reader, row)?;
    if !found {
        return Err(no_header());
    }
    let kinds = has_kinds(columns.basin, row);
    if !has_header(row, kinds) {
        return Err(no_header());
    }
    take_all(reader, row, columns, kinds, amounts)
}

/// Takes the records of a table, whose first has to be a header.
fn take_table(
    alloc: Global,
    text: &[u8],
    columns: &Columns,
    amounts: &mut [Option<u64>],
) -> Result<(), SeriesRefused>
    requires basin { IsValidBasin columns.now.basin.now }
    requires empty { amounts.old ≡ given_by columns.now.basin.now [] }
    ensures { TakesTable columns.now.basin.now (records_of text.now) amounts.new result }
{
    let mut reader = reader_of(alloc, text);
    let mut row = ByteRecord::new(alloc);
    take_records(&mut reader, &mut row, columns, amounts)
}

/// A cell for each amount that is due, none of which is given.
fn no_amounts(alloc: Global, columns: &Columns) -> Result<Vec<Option<u64>>, AllocError>
    requires { IsValidBasin columns.now.basin.now }
    ensures { IfOk result (λ amounts. amounts.items ≡ given_by columns.now.basin.now []) }
{
    let due = columns.basin.months as usize * columns.count();
    vec![in alloc; None; due]
}

/// The amounts that a table gives for what is due.
fn read_amounts(
    alloc: Global,
    columns: &Columns,
    text: &[u8],
) -> Result<Vec<Option<u64>>, SeriesRefused>
    requires { IsValidBasin columns.now.basin.now }
    ensures ok { IfOk result (λ amounts. TookTable columns.now.basin.now (records_of text.now) amounts.items) }
    ensures refused { IfErr result (λ e. IsSeriesRefusal e columns.now.basin.now text.now) }
{
    let mut amounts = no_amounts(alloc, columns)?;
    take_table(alloc, text, columns, amounts.as_mut_slice())?;
    Ok(amounts)
}

/// The series of the columns' basin that a table spells, or the first fault in the table.
fn read_with(alloc: Global, columns: &Columns, text: &[u8]) -> Result<Series, SeriesRefused>
    requires { IsValidBasin columns.now.basin.now }
    ensures spelled { IfOk result (SpellsSeries columns.now.basin.now text.now) }
    ensures valid { IfOk result (IsSeriesOf columns.now.basin.now) }
    ensures faultless { OnOk result (series_fault columns.now.basin.now text.now ≡ None) }
    ensures refused { IfErr result (λ e. IsSeriesRefusal e columns.now.basin.now text.now) }
{
    let amounts = read_amounts(alloc, columns, text)?;
    complete(alloc, columns, amounts.as_slice())
}

/// The bytes of a table of the header alone: the series of a basin without gauges and without wants in the series.
pub const HEADER: &[u8] = b"month,node,amount\n";

/// The series of a basin that a table spells: for each month of the run an inflow of each gauged node, and a want of
/// each right whose wants stand in the series, in units of 1,000 cubic metres. Where the table is at fault, the first
/// fault is reported, and want of memory may come at any point.
///
/// A record takes the time of a look-up by name. The memory is that of the series and of a mark for each of its
/// amounts: records aren't kept.
pub fn series_of_text(alloc: Global, basin: &Basin, text: &[u8]) -> Result<Series, SeriesRefused>
    requires { IsValidBasin basin.now }
    ensures spelled { IfOk result (SpellsSeries basin.now text.now) }
    ensures valid { IfOk result (IsSeriesOf basin.now) }
    ensures faultless { OnOk result (series_fault basin.now text.now ≡ None) }
    ensures refused { IfErr result (λ e. IsSeriesRefusal e basin.now text.now) }
{
    let columns = Columns::of(alloc, basin)?;
    read_with(alloc, &columns, text)
}
