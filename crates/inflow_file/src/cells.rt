//! The amounts that records give, column by column in each month of the run.
ghost use Rattle.std.specs.Prelude.{◌≡◌, ◌++◌, ◌∷◌, [], ◌<◌, ◌≤◌, ◌+◌, ◌*◌, ◌/◌, ◌%◌, List, ℕ, length, slice_index};
ghost use Rattle.std.specs.Prelude.{slice_index_or, is_some, unwrap_or, Some, None, MatchResult, IfOk, true, false};
ghost use Rattle.water_model.specs.Hydrology.{run_month, index_in};
ghost use Rattle.water_model.specs.Valid.{IsValidBasin};
ghost use Rattle.inflow_file.specs.Entries.{IsEntry};
ghost use Rattle.inflow_file.specs.Given.{given, given_by, Completes};
ghost use Rattle.inflow_file.specs.Cells.{IsPart, cell_in};
ghost use Rattle.inflow_file.specs.Columns.{IsColumn, column_numbers};
ghost use Rattle.inflow_file.specs.SeriesFaults.{missing_of, repeats};
ghost use Rattle.inflow_file.specs.declared.entry.SeriesRecord.{SeriesRecord};

use crate::columns::{Columns, columns_from};
use crate::entry::SeriesRecord;
use crate::refused::{SeriesFault, SeriesRefused};
use std::alloc::{AllocError, Global};
use water_model::calls::{index_in_run, month_at};
use water_model::rows::Rows;
use water_model::types::{Basin, Series};
use water_text::month::Month;

/// The cell of a column's amount in the month with this index.
fn cell_of(columns: &Columns, index: u32, number: u32) -> usize
    requires basin { IsValidBasin columns.now.basin.now }
    requires index { index < columns.now.basin.now.months }
    requires column { IsColumn columns.now.basin.now number }
    ensures cell { result ≡ index * length (column_numbers columns.now.basin.now) + index_in
        (column_numbers columns.now.basin.now) number }
    ensures within { result < columns.now.basin.now.months * length (column_numbers columns.now.basin.now) }
{
    index as usize * columns.count() + columns.index_of(number) as usize
}

/// Enters the amount of an entry, or refuses the entry where an earlier one has its month and column. An entry for a
/// month outside the run changes nothing.
pub(crate) fn enter(
    columns: &Columns,
    amounts: &mut [Option<u64>],
    entry: &SeriesRecord,
) -> Result<(), SeriesFault>
    requires basin { IsValidBasin columns.now.basin.now }
    requires entry { IsEntry columns.now.basin.now entry.now }
    requires count { length amounts.old ≡ columns.now.basin.now.months * length (column_numbers columns.now.basin.now) }
    ensures { (earlier : List SeriesRecord) → amounts.old ≡ given columns.now.basin.now earlier → MatchResult result
        (λ _. (repeats columns.now.basin.now earlier entry.now ≡ false) ×
        (amounts.new ≡ given columns.now.basin.now (earlier ++ entry.now ∷ [])))
        (λ fault. (fault ≡ SeriesFault.Repeated) × (repeats columns.now.basin.now earlier entry.now ≡ true)) }
{
    let Some(index) = index_in_run(columns.basin, entry.month) else {
        return Ok(());
    };
    let cell = cell_of(columns, index, entry.column);
    if amounts[cell].is_some() {
        return Err(SeriesFault::Repeated);
    }
    amounts[cell] = Some(entry.amount);
    Ok(())
}

/// The cell of the first amount that isn't there, or the number of cells.
fn first_gap(amounts: &[Option<u64>]) -> usize
    ensures within { result ≤ length amounts.now }
    ensures before { (k : ℕ) → k < result → is_some (slice_index_or amounts.now k None) ≡ true }
    ensures here { result < length amounts.now → is_some (slice_index_or amounts.now result None) ≡ false }
{
    for (cell, amount) in amounts.iter().enumerate() {
        if amount.is_none() {
            return cell;
        }
    }
    amounts.len()
}

/// The refusal for want of the amount of a month and a column.
fn missing_of(basin: &Basin, month: Month, number: u32) -> SeriesRefused
    requires { IsValidBasin basin.now }
    ensures { result ≡ missing_of basin.now month number }
{
    let nodes = basin.nodes.len() as u32;
    if number < nodes {
        SeriesRefused::Missing {
            month,
            node: number,
        }
    } else {
        SeriesRefused::MissingWant {
            month,
            right: number - nodes,
        }
    }
}

/// The refusal where the amount of a cell isn't there.
fn missing_at(columns: &Columns, cell: usize) -> SeriesRefused
    requires basin { IsValidBasin columns.now.basin.now }
    requires cell { cell < columns.now.basin.now.months * length (column_numbers columns.now.basin.now) }
    ensures { result ≡ missing_of columns.now.basin.now
        (run_month columns.now.basin.now (cell / length (column_numbers columns.now.basin.now)))
        (slice_index (column_numbers columns.now.basin.now) (cell % length (column_numbers columns.now.basin.now))) }
{
    let count = columns.count();
    missing_of(
        columns.basin,
        month_at(columns.basin, (cell / count) as u32),
        columns.numbers[cell % count],
    )
}

/// Amount number `cell` of those of the `count` columns from column `from` on. `cells` has all columns, `width` in each
/// month.
fn cell_in(cells: &[Option<u64>], width: usize, from: usize, count: usize, cell: usize) -> u64
    requires count { 0 < count }
    requires within { cell / count * width + from + cell % count < length cells.now }
    requires small { length cells.now ≤ 4800000 }
    ensures { result ≡ cell_in cells.now width from count cell }
{
    let row = cell / count;
    cells[row * width + from + cell % count].unwrap_or(0)
}

/// The amounts of the `count` columns from column `from` on, month by month, out of those of all columns.
fn part_of(
    alloc: Global,
    columns: &Columns,
    cells: &[Option<u64>],
    from: usize,
    count: usize,
) -> Result<Vec<u64>, AllocError>
    requires basin { IsValidBasin columns.now.basin.now }
    requires columns { from + count ≤ length (column_numbers columns.now.basin.now) }
    requires cells { length cells.now ≡ columns.now.basin.now.months * length (column_numbers columns.now.basin.now) }
    ensures { IfOk result
        (λ part. IsPart cells.now (length (column_numbers columns.now.basin.now)) from columns.now.basin.now.months
        count part.items) }
{
    let width = columns.count();
    let end = columns.basin.months as usize * count;
    let mut part = Vec::with_capacity(alloc, end)?;
    for cell in 0..end {
        part.push(cell_in(cells, width, from, count, cell))?;
    }
    Ok(part)
}

/// The series of the amounts, or the first month and column for which none is there.
pub(crate) fn complete(
    alloc: Global,
    columns: &Columns,
    amounts: &[Option<u64>],
) -> Result<Series, SeriesRefused>
    requires basin { IsValidBasin columns.now.basin.now }
    requires count { length amounts.now ≡ columns.now.basin.now.months * length (column_numbers columns.now.basin.now) }
    ensures { (rows : List (List (List ℕ))) → amounts.now ≡ given_by columns.now.basin.now rows →
        Completes columns.now.basin.now rows result }
{
    let gap = first_gap(amounts);
    if gap < amounts.len() {
        return Err(missing_at(columns, gap));
    }
    let nodes = columns.basin.nodes.len() as u32;
    let rights = columns.basin.rights.len() as u32;
    let gauged = columns_from(alloc, columns.basin, 0, nodes)?;
    let wanted = columns_from(alloc, columns.basin, nodes, rights)?;
    let gauges = gauged.len();
    let wants = wanted.len();
    let amount = part_of(alloc, columns, amounts, 0, gauges)?;
    let want = part_of(alloc, columns, amounts, gauges, wants)?;
    Ok(Series {
        gauged: Rows::from_vec(gauged),
        amount: Rows::from_vec(amount),
        wanted: Rows::from_vec(wanted),
        want: Rows::from_vec(want),
    })
}
