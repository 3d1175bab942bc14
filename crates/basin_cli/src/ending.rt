//! How a call ends, and the line that reports it on err.
ghost use Rattle.std.specs.Prelude.{◌≡◌, ◌↔◌, ◌≤◌, ◌++◌, IsTrue, [], codes, length};
ghost use Rattle.std.specs.Fmt.{decimal};
ghost use Rattle.water_text.specs.Months.{IsMonth, month_digits};
ghost use Rattle.inflow_file.specs.FaultNames.{fault_name};
ghost use Rattle.water_edge.specs.Edge.{Rose};
ghost use Rattle.basin_cli.specs.Ending.{status_of, status_of_second, line_of, refusal_line, second_line, second_of};
ghost use Rattle.basin_cli.specs.Ending.{series_line, file_name, script_fault_name, script_line, CanBePrinted};
ghost use Rattle.basin_cli.specs.Ending.{CanBeSpelled, CanBeSpelledOfSecond};
ghost use Rattle.basin_cli.specs.Failed.{IsAt};
ghost use Rattle.basin_cli.specs.Outcome.{IsQuiet, WritesErrLine};

use crate::flushing::put_whole;
use crate::status::Status;
use basin_tree::walk::Finding;
use cert_check::Refuted;
use edit_script::ScriptFault;
use inflow_file::SeriesFault;
use water_edge::Sink;
use water_text::line::Line;
use water_text::month::Month;
use water_text::name::Name;

/// A file of a command.
#[derive(Clone, Copy, Debug, PartialEq, Eq)]
pub enum File {
    Basin,
    Series,
    Result,
    SecondBasin,
    Script,
}

impl File {
    /// The word for the file.
    #[tactic(auto, unfolding(crate::specs::Ending::file_name))]
    fn name(&self) -> &'static str
        ensures value { result.now ≡ file_name self.now }
        ensures short { length result.now ≤ 16 }
    {
        match self {
            File::Basin => "BASIN",
            File::Series => "SERIES",
            File::Result => "RESULT",
            File::SecondBasin => "BASIN2",
            File::Script => "SCRIPT",
        }
    }
}

/// Why a series is refused: a record at fault, or an amount that is missing.
#[derive(Drop)]
pub enum SeriesFinding {
    Record { fault: SeriesFault, number: u64 },
    Missing { month: Month, node: Name },
    MissingWant { month: Month, right: Name },
}

/// Why the second basin of a comparison is refused.
#[derive(Drop)]
pub enum SecondFinding {
    /// A fault of its file.
    Basin(Finding),
    /// Its run has another first month or number of months than that of the first.
    OtherRun,
    /// The series, which is good for the first basin, is refused for it.
    Series(SeriesFinding),
}

impl SecondFinding {
    /// The status of a call that it ends.
    fn status(&self) -> Status
        ensures { result ≡ status_of_second self.now }
    {
        match self {
            SecondFinding::Basin(_) | SecondFinding::OtherRun => Status::BasinRefused,
            SecondFinding::Series(_) => Status::SeriesRefused,
        }
    }
}

/// How a call ended, with what its line on err says.
#[derive(Drop)]
pub enum Ending {
    Done,
    /// A result is refuted, which out says.
    Refuted(Refuted),
    /// Somebody is injured in a comparison, which out says.
    Injured,
    /// The right that was asked for is not short, which out says.
    Met,
    Usage,
    BasinRefused(Finding),
    /// An ensemble is asked for, and the run isn't one of whole years.
    PartYear,
    SeriesRefused(SeriesFinding),
    SecondRefused(SecondFinding),
    ReadFault(File),
    WriteFault,
    OutOfMemory,
    InputTooLong(File),
    /// A script, or what was asked for on the command line, is refused. Lines count from 1; the command line is line 0.
    ScriptRefused { fault: ScriptFault, line: u64 },
}

impl Ending {
    /// Whether it has a line on err.
    pub fn has_line_on_err(&self) -> bool
        ensures { IsTrue result ↔ (IsQuiet (status_of self.now) → ⊥) }
    {
        !matches!(
            self,
            Ending::Done | Ending::Refuted(_) | Ending::Injured | Ending::Met
        )
    }

    /// The status of the call.
    pub fn status(&self) -> Status
        ensures { result ≡ status_of self.now }
    {
        match self {
            Ending::Done => Status::Done,
            Ending::Refuted(_) | Ending::Injured | Ending::Met => Status::No,
            Ending::Usage => Status::Usage,
            Ending::BasinRefused(_) | Ending::PartYear => Status::BasinRefused,
            Ending::SeriesRefused(_) => Status::SeriesRefused,
            Ending::SecondRefused(finding) => finding.status(),
            Ending::ReadFault(_) => Status::ReadFault,
            Ending::WriteFault => Status::WriteFault,
            Ending::OutOfMemory => Status::OutOfMemory,
            Ending::InputTooLong(_) => Status::InputTooLong,
            Ending::ScriptRefused { .. } => Status::ScriptRefused,
        }
    }
}

/// The ending of a call that refused the second basin or its series, from how it refuses a basin or a series.
pub fn of_second(ending: Ending) -> Ending
    ensures is { result ≡ second_of ending }
    ensures at { IsAt File.Series ending → IsAt File.Series result }
    ensures printable { CanBePrinted ending → CanBePrinted result }
{
    match ending {
        Ending::BasinRefused(finding) => Ending::SecondRefused(SecondFinding::Basin(finding)),
        Ending::SeriesRefused(finding) => Ending::SecondRefused(SecondFinding::Series(finding)),
        other => other,
    }
}

/// Makes the line of a refused basin. The first word says whose.
#[tactic(auto, unfolding(crate::specs::Ending::refusal_line))]
fn put_refusal(line: &mut Line, whose: &[u8], finding: &Finding)
    requires empty { line.old ≡ [] }
    requires short { length whose.now ≤ 16 }
    ensures { line.new ≡ refusal_line whose.now finding.now }
{
    line.word(whose);
    line.word(finding.fault.name().as_bytes());
    line.add_word(finding.table.name().as_bytes());
    line.add_number(u64::from(finding.entry));
    line.word(b"\n");
}

/// Makes the line of a record at fault.
fn put_record(line: &mut Line, whose: &[u8], fault: SeriesFault, number: u64)
    requires empty { line.old ≡ [] }
    requires short { length whose.now ≤ 16 }
    ensures { line.new ≡ whose.now ++ fault_name fault ++ codes " " ++ decimal number ++ codes "\n" }
{
    line.word(whose);
    line.word(fault.name().as_bytes());
    line.add_number(number);
    line.word(b"\n");
}

/// Makes the line of a missing amount.
fn put_missing(line: &mut Line, whose: &[u8], what: &[u8], month: Month, name: &Name)
    requires empty { line.old ≡ [] }
    requires short { length whose.now ≤ 16 }
    requires what { length what.now ≤ 12 }
    requires month { IsMonth month }
    ensures { line.new ≡ whose.now ++ what.now ++ month_digits month ++ codes " " ++ name.now ++ codes "\n" }
{
    line.word(whose);
    line.word(what);
    month.put_into(line);
    line.add_name(name);
    line.word(b"\n");
}

/// Makes the line of a refused series. The first word says whose.
#[tactic(auto, unfolding(crate::specs::Ending::series_line))]
fn put_series_refusal(line: &mut Line, whose: &[u8], finding: &SeriesFinding)
    requires empty { line.old ≡ [] }
    requires short { length whose.now ≤ 16 }
    requires printable { CanBeSpelled finding.now }
    ensures { line.new ≡ series_line whose.now finding.now }
{
    match finding {
        SeriesFinding::Record { fault, number } => put_record(line, whose, *fault, *number),
        SeriesFinding::Missing { month, node } => {
            put_missing(line, whose, b"Missing ", *month, node)
        }
        SeriesFinding::MissingWant { month, right } => {
            put_missing(line, whose, b"MissingWant ", *month, right)
        }
    }
}

/// Makes the line of a refused second basin or its series.
#[tactic(auto, unfolding(crate::specs::Ending::second_line))]
fn put_second_refusal(line: &mut Line, finding: &SecondFinding)
    requires empty { line.old ≡ [] }
    requires printable { CanBeSpelledOfSecond finding.now }
    ensures { line.new ≡ second_line finding.now }
{
    match finding {
        SecondFinding::Basin(finding) => put_refusal(line, b"basin2: ", finding),
        SecondFinding::OtherRun => line.word(b"basin2: OtherRun top 0\n"),
        SecondFinding::Series(finding) => put_series_refusal(line, b"series2: ", finding),
    }
}

/// Makes a line of a word and a file's name.
fn put_file(line: &mut Line, word: &[u8], file: File)
    requires empty { line.old ≡ [] }
    requires short { length word.now ≤ 16 }
    ensures { line.new ≡ word.now ++ file_name file ++ codes "\n" }
{
    line.word(word);
    line.word(file.name().as_bytes());
    line.word(b"\n");
}

/// The word for a fault of a script.
#[tactic(auto, unfolding(crate::specs::Ending::script_fault_name))]
fn script_fault_name(fault: ScriptFault) -> &'static str
    ensures value { result.now ≡ script_fault_name fault }
    ensures short { length result.now ≤ 16 }
{
    match fault {
        ScriptFault::AfterEnd => "AfterEnd",
        ScriptFault::BadLine => "BadLine",
        ScriptFault::OutsideRun => "OutsideRun",
        ScriptFault::NoSuchName => "NoSuchName",
        ScriptFault::NotSeries => "NotSeries",
        ScriptFault::EarlyEnd => "EarlyEnd",
    }
}

/// Makes the line of a refused script.
#[tactic(auto, unfolding(crate::specs::Ending::script_line))]
fn put_script_refusal(line: &mut Line, fault: ScriptFault, number: u64)
    requires { line.old ≡ [] }
    ensures { line.new ≡ script_line fault number }
{
    line.word(b"script:");
    line.add_word(script_fault_name(fault).as_bytes());
    line.add_number(number);
    line.word(b"\n");
}

/// Makes the line of an ending.
#[tactic(auto, unfolding(crate::specs::Ending::line_of))]
fn put_line(line: &mut Line, ending: &Ending)
    requires empty { line.old ≡ [] }
    requires printable { CanBePrinted ending.now }
    ensures { line.new ≡ line_of ending.now }
{
    match ending {
        Ending::Done | Ending::Refuted(_) | Ending::Injured | Ending::Met => {}
        Ending::Usage => line.word(b"usage: basin_cli COMMAND WORDS\n"),
        Ending::BasinRefused(finding) => put_refusal(line, b"basin: ", finding),
        Ending::PartYear => line.word(b"basin: PartYear top 0\n"),
        Ending::SeriesRefused(finding) => put_series_refusal(line, b"series: ", finding),
        Ending::SecondRefused(finding) => put_second_refusal(line, finding),
        Ending::ReadFault(file) => put_file(line, b"read: ", *file),
        Ending::WriteFault => line.word(b"write: failed\n"),
        Ending::OutOfMemory => line.word(b"out of memory\n"),
        Ending::InputTooLong(file) => put_file(line, b"too long: ", *file),
        Ending::ScriptRefused {
            fault,
            line: number,
        } => put_script_refusal(line, *fault, *number),
    }
}

/// Puts the line of an ending to err. If err fails, a prefix of it stands there. It takes no memory.
pub fn print_ending<E: Sink>(ending: &Ending, err: &mut E)
    requires { CanBePrinted ending.now }
    ensures writes_line { WritesErrLine (E.output err.old) (E.output err.new) (E.faults err.old) (E.faults err.new)
        (line_of ending.now) }
    ensures flushed { (Rose (E.faults err.old) (E.faults err.new) → ⊥) →
        (E.output err.new).flushed ≡ (E.output err.new).taken }
{
    let mut line = Line::new();
    put_line(&mut line, ending);
    let _ = put_whole(err, line.bytes());
}
