//! The files of a comparison: two basins whose runs have the same months, and one series for both.
ghost use Rattle.std.specs.Prelude.{◌≤◌, ◌↔◌, IfOk, OnOk, IfErr, IfSome, IsTrue, MatchResult, option_map};
ghost use Rattle.water_edge.specs.Edge.{AsksFor, Rose, SameShelf};
ghost use Rattle.water_model.specs.Valid.{IsValidBasin};
ghost use Rattle.basin_cli.specs.Command.{ServesSeries, named};
ghost use Rattle.basin_cli.specs.Comparison.{HaveSameMonths, StopsComparing};
ghost use Rattle.basin_cli.specs.Ending.{CanBePrinted};
ghost use Rattle.basin_cli.specs.Failed.{AskForEach, AskUpTo, IsAt, pair_to};
ghost use Rattle.basin_cli.specs.Pairs.{ArePaired, IsOtherRun, SecondReadEnds};
ghost use Rattle.basin_cli.specs.Series.{IsBasinText};

use crate::command::Inputs;
use crate::ending::{Ending, File, SecondFinding, of_second};
use crate::files::{
    Loaded, accept_basin, accept_series, read_basin_file, read_file, read_table, table,
};
use std::alloc::Global;
use water_edge::Shelf;
use water_model::types::Basin;

/// Two basins, each with its series.
#[derive(Drop)]
pub struct BasinPair {
    pub first: Loaded,
    pub second: Loaded,
}

/// The second basin, of the file with this name, or how the call ends.
fn read_second<S: Shelf>(alloc: Global, shelf: &mut S, name: &str) -> Result<Basin, Ending>
    requires { S.serves shelf.old name.now }
    ensures same { SameShelf (S.known shelf.old) (S.known shelf.new) (S.serves shelf.old) (S.serves shelf.new) }
    ensures later { S.faults shelf.old ≤ S.faults shelf.new }
    ensures asked { AsksFor (S.asked shelf.old) (S.asked shelf.new) name.now }
    ensures valid { IfOk result IsValidBasin }
    ensures text { IfOk result (λ basin. IfSome (S.known shelf.old name.now) (IsBasinText basin)) }
    ensures ends { IfErr result
        (SecondReadEnds (S.known shelf.old name.now) (Rose (S.faults shelf.old) (S.faults shelf.new))) }
    ensures at { IfErr result (IsAt File.SecondBasin) }
{
    let text = read_file(alloc, shelf, name, File::SecondBasin)?;
    match accept_basin(alloc, &text) {
        Ok(basin) => Ok(basin),
        Err(ending) => Err(of_second(ending)),
    }
}

/// Whether the runs of two basins have the same months.
fn have_same_months(first: &Basin, second: &Basin) -> bool
    ensures { IsTrue result ↔ HaveSameMonths first.now second.now }
{
    second.first == first.first && second.months == first.months
}

/// Refuses a second basin whose run has other months than the first's.
fn match_months(first: &Basin, second: &Basin) -> Result<(), Ending>
    ensures { MatchResult result (λ _. HaveSameMonths first.now second.now) (IsOtherRun first.now second.now) }
{
    if have_same_months(first, second) {
        Ok(())
    } else {
        Err(Ending::SecondRefused(SecondFinding::OtherRun))
    }
}

/// The two basins of a comparison, or how the call ends.
fn read_basins<S: Shelf>(
    alloc: Global,
    shelf: &mut S,
    inputs: Inputs,
    second: &str,
) -> Result<(Basin, Basin), Ending>
    requires first { S.serves shelf.old inputs.basin.now }
    requires second { S.serves shelf.old second.now }
    ensures same { SameShelf (S.known shelf.old) (S.known shelf.new) (S.serves shelf.old) (S.serves shelf.new) }
    ensures later { S.faults shelf.old ≤ S.faults shelf.new }
    ensures reads { OnOk result (AskForEach (pair_to (named inputs.entry) second.now File.SecondBasin)
        (S.asked shelf.old) (S.asked shelf.new)) }
    ensures up_to { IfErr result
        (λ e. AskUpTo (pair_to (named inputs.entry) second.now) e (S.asked shelf.old) (S.asked shelf.new)) }
    ensures valid { IfOk result (λ basins. IsValidBasin basins.0) }
    ensures second_valid { IfOk result (λ basins. IsValidBasin basins.1) }
    ensures text { IfOk result (λ basins. IfSome (S.known shelf.old inputs.entry.basin.now) (IsBasinText basins.0)) }
    ensures second_text { IfOk result (λ basins. IfSome (S.known shelf.old second.now) (IsBasinText basins.1)) }
    ensures months { IfOk result (λ basins. HaveSameMonths basins.0 basins.1) }
    ensures stops { IfErr result
        (λ e. StopsComparing (named inputs.entry) second.now e (S.known shelf.old)
        (Rose (S.faults shelf.old) (S.faults shelf.new))) }
    ensures printable { IfErr result CanBePrinted }
{
    let basin = read_basin_file(alloc, shelf, inputs.basin)?;
    let other = read_second(alloc, shelf, second)?;
    match_months(&basin, &other)?;
    Ok((basin, other))
}

/// Two basins and the series of each, or how the call ends.
pub fn read_pair<S: Shelf>(
    alloc: Global,
    shelf: &mut S,
    inputs: Inputs,
    second: &str,
) -> Result<BasinPair, Ending>
    requires basin { S.serves shelf.old inputs.basin.now }
    requires series { ServesSeries (S.serves shelf.old) (option_map (λ n. n.now) inputs.series) }
    requires second { S.serves shelf.old second.now }
    ensures up_to { IfErr result
        (λ e. AskUpTo (pair_to (named inputs.entry) second.now) e (S.asked shelf.old) (S.asked shelf.new)) }
    ensures paired { IfOk result (λ pair. ArePaired (S.known shelf.old) (named inputs.entry) second.now pair) }
    ensures stops { IfErr result
        (λ e. StopsComparing (named inputs.entry) second.now e (S.known shelf.old)
        (Rose (S.faults shelf.old) (S.faults shelf.new))) }
    ensures printable { IfErr result CanBePrinted }
{
    let (basin, other) = read_basins(alloc, shelf, inputs, second)?;
    let text = read_table(alloc, shelf, inputs.series)?;
    let series = accept_series(alloc, &basin, table(&text))?;
    let other_series = match accept_series(alloc, &other, table(&text)) {
        Ok(series) => series,
        Err(ending) => return Err(of_second(ending)),
    };
    Ok(BasinPair {
        first: Loaded { basin, series },
        second: Loaded {
            basin: other,
            series: other_series,
        },
    })
}
