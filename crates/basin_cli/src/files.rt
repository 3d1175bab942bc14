//! The files of a command: a basin, and a series of its gauged inflows.
ghost use Rattle.std.specs.Prelude.{◌≡◌, ◌≢◌, ◌<◌, ◌≤◌, ℕ, List, Some, None, IfOk, OnOk, IfErr, IfSome, IsSome, length};
ghost use Rattle.std.specs.Prelude.{OnErr, option_map};
ghost use Rattle.water_edge.specs.Edge.{AsksFor, Rose, SameShelf};
ghost use Rattle.basin_file.specs.BasinFaults.{Spells, file_fault};
ghost use Rattle.basin_file.specs.Spelled.{IsPlain};
ghost use Rattle.index_seq.specs.Traces.{HasWholeYears};
ghost use Rattle.inflow_file.specs.SeriesFaults.{series_fault, SpellsSeries};
ghost use Rattle.water_text.specs.Months.{IsMonth};
ghost use Rattle.water_model.specs.Basin.{node_name, right_name};
ghost use Rattle.water_model.specs.Valid.{IsValidBasin, IsSeriesOf};
ghost use Rattle.basin_cli.specs.Command.{ServesSeries, named};
ghost use Rattle.basin_cli.specs.Ending.{CanBePrinted};
ghost use Rattle.basin_cli.specs.Failed.{AskForEach, AskUpTo, IsAt, inputs_to, series_file};
ghost use Rattle.basin_cli.specs.Header.{table_of};
ghost use Rattle.basin_cli.specs.Bytes.{file_limit, known_series};
ghost use Rattle.basin_cli.specs.Outcome.{StopsReadingYears};
ghost use Rattle.basin_cli.specs.Reading.{StopsReading};
ghost use Rattle.basin_cli.specs.Series.{AreLoaded, FileEnds, BasinEnds, BasinReadEnds, SeriesEnds, SeriesReadEnds};
ghost use Rattle.basin_cli.specs.Series.{IsBasinText, IsSeriesText};

use crate::command::Inputs;
use crate::ending::{Ending, File, SeriesFinding};
use basin_file::{BasinRefused, read_basin};
use basin_tree::walk::Finding;
use inflow_file::{HEADER, SeriesRefused, series_of_text};
use std::alloc::Global;
use water_edge::{Shelf, ShelfRefused};
use water_model::types::{Basin, Series};
use water_text::month::Month;
use water_text::name::Name;

const FILE_LIMIT: u64 = 67_108_864;

/// The bytes of a file of the command.
pub fn read_file<S: Shelf>(
    alloc: Global,
    shelf: &mut S,
    name: &str,
    file: File,
) -> Result<Vec<u8>, Ending>
    requires { S.serves shelf.old name.now }
    ensures same { SameShelf (S.known shelf.old) (S.known shelf.new) (S.serves shelf.old) (S.serves shelf.new) }
    ensures later { S.faults shelf.old ≤ S.faults shelf.new }
    ensures asked { AsksFor (S.asked shelf.old) (S.asked shelf.new) name.now }
    ensures within { IfOk result (λ text. length text.items ≤ file_limit) }
    ensures bytes { IfOk result (λ text. IfSome (S.known shelf.old name.now) (λ bytes. text.items ≡ bytes)) }
    ensures ends { IfErr result
        (λ e. FileEnds file (S.known shelf.old name.now) (Rose (S.faults shelf.old) (S.faults shelf.new)) e) }
    ensures at { IfErr result (IsAt file) }
{
    match shelf.read_whole(alloc, name, FILE_LIMIT) {
        Ok(text) => Ok(text),
        Err(ShelfRefused::Failed) => Err(Ending::ReadFault(file)),
        Err(ShelfRefused::TooLong) => Err(Ending::InputTooLong(file)),
        Err(ShelfRefused::OutOfMemory) => Err(Ending::OutOfMemory),
    }
}

/// The basin that the bytes spell, or how the call ends.
pub fn accept_basin(alloc: Global, text: &[u8]) -> Result<Basin, Ending>
    ensures spelled { IfOk result (λ basin. Spells text.now basin) }
    ensures valid { IfOk result IsValidBasin }
    ensures plain { IfOk result IsPlain }
    ensures sound { OnOk result (file_fault text.now ≡ None) }
    ensures ends { IfErr result (λ e. BasinEnds text.now e) }
    ensures at { IfErr result (IsAt File.Basin) }
{
    match read_basin(alloc, text) {
        Ok(basin) => Ok(basin),
        Err(BasinRefused::OutOfMemory) => Err(Ending::OutOfMemory),
        Err(
            BasinRefused::Refused {
                fault,
                table,
                entry,
            },
        ) => Err(Ending::BasinRefused(Finding {
            fault,
            table,
            entry,
        })),
    }
}

/// The basin of the file with this name, or how the call ends.
pub fn read_basin_file<S: Shelf>(alloc: Global, shelf: &mut S, name: &str) -> Result<Basin, Ending>
    requires { S.serves shelf.old name.now }
    ensures same { SameShelf (S.known shelf.old) (S.known shelf.new) (S.serves shelf.old) (S.serves shelf.new) }
    ensures later { S.faults shelf.old ≤ S.faults shelf.new }
    ensures asked { AsksFor (S.asked shelf.old) (S.asked shelf.new) name.now }
    ensures valid { IfOk result IsValidBasin }
    ensures plain { IfOk result IsPlain }
    ensures text { IfOk result (λ basin. IfSome (S.known shelf.old name.now) (IsBasinText basin)) }
    ensures ends { IfErr result
        (λ e. BasinReadEnds (S.known shelf.old name.now) (Rose (S.faults shelf.old) (S.faults shelf.new)) e) }
    ensures at { IfErr result (IsAt File.Basin) }
{
    let text = read_file(alloc, shelf, name, File::Basin)?;
    accept_basin(alloc, &text)
}

/// The ending for want of a node's inflow in a month.
fn missing_inflow(basin: &Basin, month: Month, node: u32) -> Ending
    requires basin { IsValidBasin basin.now }
    requires month { IsMonth month }
    requires node { node < length basin.now.nodes }
    ensures ending { result ≡ Ending.SeriesRefused (SeriesFinding.Missing month (node_name basin.now node)) }
    ensures printable { CanBePrinted result }
{
    match Name::read(basin.nodes[node as usize].name.bytes()) {
        Some(node) => Ending::SeriesRefused(SeriesFinding::Missing { month, node }),
        None => unreachable!(),
    }
}

/// The ending for want of a right's want in a month.
fn missing_want(basin: &Basin, month: Month, right: u32) -> Ending
    requires basin { IsValidBasin basin.now }
    requires month { IsMonth month }
    requires right { right < length basin.now.rights }
    ensures ending { result ≡ Ending.SeriesRefused (SeriesFinding.MissingWant month (right_name basin.now right)) }
    ensures printable { CanBePrinted result }
{
    match Name::read(basin.rights[right as usize].name.bytes()) {
        Some(right) => Ending::SeriesRefused(SeriesFinding::MissingWant { month, right }),
        None => unreachable!(),
    }
}

/// The series that the bytes spell for a basin, or how the call ends.
pub fn accept_series(alloc: Global, basin: &Basin, text: &[u8]) -> Result<Series, Ending>
    requires basin { IsValidBasin basin.now }
    ensures spelled { IfOk result (λ series. SpellsSeries basin.now text.now series) }
    ensures fits { IfOk result (λ series. IsSeriesOf basin.now series) }
    ensures sound { OnOk result (series_fault basin.now text.now ≡ None) }
    ensures ends { IfErr result (λ e. SeriesEnds basin.now text.now e) }
    ensures at { IfErr result (IsAt File.Series) }
    ensures printable { IfErr result CanBePrinted }
{
    match series_of_text(alloc, basin, text) {
        Ok(series) => Ok(series),
        Err(SeriesRefused::OutOfMemory) => Err(Ending::OutOfMemory),
        Err(SeriesRefused::Record { fault, number }) => {
            Err(Ending::SeriesRefused(SeriesFinding::Record { fault, number }))
        }
        Err(SeriesRefused::Missing { month, node }) => Err(missing_inflow(basin, month, node)),
        Err(SeriesRefused::MissingWant { month, right }) => Err(missing_want(basin, month, right)),
    }
}

/// The bytes of the file of a series, where it has one, or how the call ends.
pub fn read_table<S: Shelf>(
    alloc: Global,
    shelf: &mut S,
    name: Option<&str>,
) -> Result<Option<Vec<u8>>, Ending>
    requires { ServesSeries (S.serves shelf.old) (option_map (λ n. n.now) name) }
    ensures same { SameShelf (S.known shelf.old) (S.known shelf.new) (S.serves shelf.old) (S.serves shelf.new) }
    ensures later { S.faults shelf.old ≤ S.faults shelf.new }
    ensures asked { (other : List ℕ) → Some other ≢ option_map (λ n. n.now) name.entry →
        S.asked shelf.new other ≡ S.asked shelf.old other }
    ensures reads { AskForEach (series_file (option_map (λ n. n.now) name.entry)) (S.asked shelf.old)
        (S.asked shelf.new) }
    ensures within { IfOk result (λ text. length (table_of text) ≤ file_limit) }
    ensures bytes { IfOk result
        (λ text. IfSome (known_series (S.known shelf.old) (option_map (λ n. n.now) name.entry))
        (λ bytes. table_of text ≡ bytes)) }
    ensures ends { IfErr result
        (FileEnds File.Series (known_series (S.known shelf.old) (option_map (λ n. n.now) name.entry))
        (Rose (S.faults shelf.old) (S.faults shelf.new))) }
    ensures named { OnErr result (IsSome (option_map (λ n. n.now) name.entry)) }
    ensures at { IfErr result (IsAt File.Series) }
{
    match name {
        None => Ok(None),
        Some(name) => {
            let text = read_file(alloc, shelf, name, File::Series)?;
            Ok(Some(text))
        }
    }
}

/// The table of a series that was read. Without a file it is the header alone.
#[tactic(auto, unfolding(crate::specs::Header::header))]
pub fn table(text: &Option<Vec<u8>>) -> &[u8]
    ensures { result.now ≡ table_of text.now }
{
    match text {
        None => HEADER,
        Some(text) => text.as_slice(),
    }
}

/// The series of a basin, from the file of this name or, without one, from the header alone; or how the call ends.
fn read_series<S: Shelf>(
    alloc: Global,
    shelf: &mut S,
    name: Option<&str>,
    basin: &Basin,
) -> Result<Series, Ending>
    requires basin { IsValidBasin basin.now }
    requires serves { ServesSeries (S.serves shelf.old) (option_map (λ n. n.now) name) }
    ensures same { SameShelf (S.known shelf.old) (S.known shelf.new) (S.serves shelf.old) (S.serves shelf.new) }
    ensures later { S.faults shelf.old ≤ S.faults shelf.new }
    ensures asked { (other : List ℕ) → Some other ≢ option_map (λ n. n.now) name.entry →
        S.asked shelf.new other ≡ S.asked shelf.old other }
    ensures reads { AskForEach (series_file (option_map (λ n. n.now) name.entry)) (S.asked shelf.old)
        (S.asked shelf.new) }
    ensures fits { IfOk result (λ series. IsSeriesOf basin.now series) }
    ensures text { IfOk result
        (λ series. IfSome (known_series (S.known shelf.old) (option_map (λ n. n.now) name.entry))
        (IsSeriesText basin.now series)) }
    ensures ends { IfErr result
        (λ e. SeriesReadEnds basin.now (option_map (λ n. n.now) name.entry)
        (known_series (S.known shelf.old) (option_map (λ n. n.now) name.entry))
        (Rose (S.faults shelf.old) (S.faults shelf.new)) e) }
    ensures printable { IfErr result CanBePrinted }
    ensures at { IfErr result (IsAt File.Series) }
{
    let text = read_table(alloc, shelf, name)?;
    accept_series(alloc, basin, table(&text))
}

/// A basin and its series, as two files spell them.
#[derive(Drop)]
pub struct Loaded {
    pub basin: Basin,
    pub series: Series,
}

/// The basin and the series of two files, or how the call ends.
pub fn read_inputs<S: Shelf>(alloc: Global, shelf: &mut S, inputs: Inputs) -> Result<Loaded, Ending>
    requires basin { S.serves shelf.old inputs.basin.now }
    requires series { ServesSeries (S.serves shelf.old) (option_map (λ n. n.now) inputs.series) }
    ensures same { SameShelf (S.known shelf.old) (S.known shelf.new) (S.serves shelf.old) (S.serves shelf.new) }
    ensures later { S.faults shelf.old ≤ S.faults shelf.new }
    ensures asked { (other : List ℕ) → other ≢ (named inputs.entry).basin → Some other ≢ (named inputs.entry).series →
        S.asked shelf.new other ≡ S.asked shelf.old other }
    ensures reads { OnOk result (AskForEach (inputs_to (named inputs.entry) File.Series) (S.asked shelf.old)
        (S.asked shelf.new)) }
    ensures up_to { IfErr result
        (λ e. AskUpTo (inputs_to (named inputs.entry)) e (S.asked shelf.old) (S.asked shelf.new)) }
    ensures valid { IfOk result (λ files. IsValidBasin files.basin) }
    ensures fits { IfOk result (λ files. IsSeriesOf files.basin files.series) }
    ensures loaded { IfOk result
        (λ files. AreLoaded (S.known shelf.old) (named inputs.entry) files.basin files.series) }
    ensures stops { IfErr result (λ e. StopsReading (named inputs.entry) e (S.known shelf.old)
        (Rose (S.faults shelf.old) (S.faults shelf.new))) }
    ensures printable { IfErr result CanBePrinted }
{
    let basin = read_basin_file(alloc, shelf, inputs.basin)?;
    let series = read_series(alloc, shelf, inputs.series, &basin)?;
    Ok(Loaded { basin, series })
}

/// The basin, whose run is one of whole years, and the series of two files, or how the call ends.
pub fn read_record<S: Shelf>(alloc: Global, shelf: &mut S, inputs: Inputs) -> Result<Loaded, Ending>
    requires basin { S.serves shelf.old inputs.basin.now }
    requires series { ServesSeries (S.serves shelf.old) (option_map (λ n. n.now) inputs.series) }
    ensures same { SameShelf (S.known shelf.old) (S.known shelf.new) (S.serves shelf.old) (S.serves shelf.new) }
    ensures later { S.faults shelf.old ≤ S.faults shelf.new }
    ensures up_to { IfErr result
        (λ e. AskUpTo (inputs_to (named inputs.entry)) e (S.asked shelf.old) (S.asked shelf.new)) }
    ensures valid { IfOk result (λ files. IsValidBasin files.basin) }
    ensures whole { IfOk result (λ files. HasWholeYears files.basin) }
    ensures fits { IfOk result (λ files. IsSeriesOf files.basin files.series) }
    ensures loaded { IfOk result
        (λ files. AreLoaded (S.known shelf.old) (named inputs.entry) files.basin files.series) }
    ensures stops { IfErr result
        (λ e. StopsReadingYears (named inputs.entry) e (S.known shelf.old)
        (Rose (S.faults shelf.old) (S.faults shelf.new))) }
    ensures printable { IfErr result CanBePrinted }
{
    let basin = read_basin_file(alloc, shelf, inputs.basin)?;
    if basin.months % 12 != 0 {
        return Err(Ending::PartYear);
    }
    let series = read_series(alloc, shelf, inputs.series, &basin)?;
    Ok(Loaded { basin, series })
}
