//! A result of any length, which is checked in parts as it is read.
ghost use Rattle.std.specs.Prelude.{◌≡◌, ◌^◌, ◌<◌, ◌≤◌, ℕ, List, [], ◌∷◌, IfErr, IfOk, IfSome};
ghost use Rattle.cert_check.specs.Pieces.{StandsForText, bytes_left};
ghost use Rattle.water_edge.specs.Edge.{Rose, SameShelf};
ghost use Rattle.water_model.specs.Valid.{IsValidBasin, IsSeriesOf};
ghost use Rattle.basin_cli.specs.Actions.{EndsChecking};
ghost use Rattle.basin_cli.specs.Answer.{CanAnswer, IsAnswerFor, IsAnswerTo, LeavesAnswer};
ghost use Rattle.basin_cli.specs.declared.ending.Ending.TheVariants as ending;
ghost use Rattle.basin_cli.specs.declared.ending.File.TheVariants as file;
ghost use Rattle.basin_cli.specs.Ending.{status_of};
ghost use Rattle.basin_cli.specs.Failed.{AskForEach};
ghost use Rattle.basin_cli.specs.Out.{MayWrite};
ghost use Rattle.basin_cli.specs.Outcome.{IsQuiet};

use crate::actions::print_answer;
use crate::ending::{Ending, File};
use cert_check::{PieceChecker, Refuted};
use std::alloc::{AllocError, Global};
use water_edge::{Shelf, Sink};
use water_model::types::{Basin, Series};

/// How many bytes of a result are asked for at once.
const PART: usize = 65_536;

/// What is asked of a result: whether it is the text of a history, or that of one in which the set of each short right
/// is its reach.
#[derive(Clone, Copy, Debug, PartialEq, Eq)]
pub enum Question {
    Check,
    Audit,
}

/// A checker that was given no byte and can answer the question. AllocError comes where memory is lacking.
fn open_checker<'b>(
    alloc: Global,
    question: Question,
    basin: &'b Basin,
    series: &'b Series,
) -> Result<PieceChecker<'b>, AllocError>
    requires basin { IsValidBasin basin.now }
    requires series { IsSeriesOf basin.now series.now }
    ensures basin { IfOk result (λ checker. checker.basin ≡ basin.now) }
    ensures series { IfOk result (λ checker. checker.series ≡ series.now) }
    ensures none { IfOk result (λ checker. StandsForText checker []) }
    ensures room { IfOk result (λ checker. bytes_left checker < 2 ^ 64) }
    ensures can { IfOk result (CanAnswer question) }
{
    match question {
        Question::Check => PieceChecker::open(alloc, basin, series),
        Question::Audit => PieceChecker::open_audit(alloc, basin, series),
    }
}

/// The answer to the bytes that a checker was given, as a whole text.
fn finish(question: Question, checker: &PieceChecker) -> Result<u32, Refuted>
    requires { CanAnswer question checker.now }
    ensures { (text : List ℕ) → StandsForText checker.now text →
        IsAnswerFor question checker.now.basin checker.now.series text result }
{
    match question {
        Question::Check => checker.finish(),
        Question::Audit => checker.finish_audit(),
    }
}

/// The answer to the result of this name, which is read in parts from its first byte on. Where a line is at fault, no
/// part after the one that ends it is read. ReadFault comes where the reading of a part failed.
///
/// It takes no memory.
pub fn answer_parts<S: Shelf>(
    question: Question,
    shelf: &mut S,
    name: &str,
    checker: &mut PieceChecker,
) -> Result<Result<u32, Refuted>, Ending>
    requires serves { S.serves shelf.old name.now }
    requires first { StandsForText checker.old [] }
    requires room { bytes_left checker.old < 2 ^ 64 }
    requires can { CanAnswer question checker.old }
    ensures same { SameShelf (S.known shelf.old) (S.known shelf.new) (S.serves shelf.old) (S.serves shelf.new) }
    ensures later { S.faults shelf.old ≤ S.faults shelf.new }
    ensures reads { AskForEach (name.now ∷ []) (S.asked shelf.old) (S.asked shelf.new) }
    ensures answer { IfOk result
        (IsAnswerTo question checker.old.basin checker.old.series (S.known shelf.old name.now)) }
    ensures fault { IfErr result (λ e. (e ≡ ending.ReadFault file.Result) ×
        Rose (S.faults shelf.old) (S.faults shelf.new)) }
{
    let mut part = [0u8; PART];
    let mut from = 0u64;
    loop {
        let count = match shelf.read_part(name, from, &mut part) {
            Ok(count) => count,
            Err(_) => return Err(Ending::ReadFault(File::Result)),
        };
        if count == 0 {
            return Ok(finish(question, checker));
        }
        if let Err(refuted) = checker.feed(&part[..count]) {
            return Ok(Err(refuted));
        }
        from += count as u64;
    }
}

/// Checks or audits the result of this name as it is read, and puts the answer: the number of its months, or the first
/// line at fault and why. All memory is taken before the first byte of the result is asked for, so OutOfMemory says
/// nothing of the result.
pub fn check_file<S: Shelf, K: Sink>(
    alloc: Global,
    question: Question,
    basin: &Basin,
    series: &Series,
    shelf: &mut S,
    name: &str,
    out: &mut K,
) -> Ending
    requires basin { IsValidBasin basin.now }
    requires series { IsSeriesOf basin.now series.now }
    requires serves { S.serves shelf.old name.now }
    ensures later { S.faults shelf.old ≤ S.faults shelf.new }
    ensures ends { EndsChecking question basin.now series.now (S.known shelf.old name.now) result
        (Rose (S.faults shelf.old) (S.faults shelf.new)) (Rose (K.faults out.old) (K.faults out.new)) }
    ensures leaves { IfSome (S.known shelf.old name.now) (λ text. MayWrite (status_of result) →
        LeavesAnswer question basin.now series.now text (status_of result) (K.output out.old) (K.output out.new)) }
    ensures out_stays { (MayWrite (status_of result) → ⊥) → out.new ≡ out.old }
    ensures unread { result ≡ ending.OutOfMemory → shelf.new ≡ shelf.old }
    ensures reads { (result ≡ ending.OutOfMemory → ⊥) →
        AskForEach (name.now ∷ []) (S.asked shelf.old) (S.asked shelf.new) }
    ensures flushed { IsQuiet (status_of result) → (K.output out.new).flushed ≡ (K.output out.new).taken }
{
    let mut checker = match open_checker(alloc, question, basin, series) {
        Ok(checker) => checker,
        Err(_) => return Ending::OutOfMemory,
    };
    let answered = answer_parts(question, shelf, name, &mut checker);
    drop(checker);
    match answered {
        Ok(answer) => print_answer(question, &answer, out),
        Err(ending) => ending,
    }
}
