//! A checker of a result text that comes in pieces of any size.
ghost use Rattle.std.specs.Prelude.{ℕ, List, [], ◌∷◌, ◌++◌, ◌≡◌, ◌+◌, ◌^◌, ◌<◌, ◌≤◌, None, Err, length, take};
ghost use Rattle.std.specs.Prelude.{IfOk, IfErr, IfNone, IfSome, OnOk};
ghost use Rattle.std.specs.List.{position};
ghost use Rattle.water_model.specs.Valid.{IsValidBasin, IsSeriesOf};
ghost use Rattle.water_text.specs.LinesIn.{TakesToFeed, is_feed, nothing_held};
ghost use Rattle.cert_check.specs.Checking.{verdict_from};
ghost use Rattle.cert_check.specs.Audit.{IsAuditAnswer};
ghost use Rattle.cert_check.specs.Pieces.{AreGiven, IsAudit, IsPartialLine, StandsForText, bytes_left, room_left};
ghost use Rattle.cert_check.specs.Standing as lines;
ghost use Rattle.cert_check.specs.Standing.{IsAnswer, IsLineAnswer, CheckerStandsFor, lines_left};
ghost use Rattle.cert_check.specs.Whole.{text_verdict};

use crate::checker::Checker;
use crate::refuted::Refuted;
use memchr::memchr;
use std::alloc::{AllocError, Global};
use std::marker::Model;
use water_model::types::{Basin, Series};
use water_text::line_in::LineIn;

/// Gives a checker the line that is held, and clears it.
fn end_line(checker: &mut Checker, line: &mut LineIn) -> Result<(), Refuted>
    ensures answer { (lines : List (List ℕ)) → CheckerStandsFor checker.old lines →
        IsLineAnswer result (verdict_from checker.old.basin checker.old.series [] (lines ++ line.old.bytes ∷ [])) }
    ensures stands { (lines : List (List ℕ)) → CheckerStandsFor checker.old lines →
        CheckerStandsFor checker.new (lines ++ line.old.bytes ∷ []) }
    ensures good { OnOk result (checker.new.refused ≡ None) }
    ensures left { OnOk result (lines_left checker.new + 1 ≡ lines_left checker.old) }
    ensures cleared { line.new ≡ nothing_held }
    ensures basin { checker.new.basin ≡ checker.old.basin }
    ensures series { checker.new.series ≡ checker.old.series }
    ensures audit { lines.IsAudit checker.old → lines.IsAudit checker.new }
{
    let answer = checker.line(line.bytes());
    line.clear();
    answer
}

/// The index of the first line feed.
fn first_feed(piece: &[u8]) -> Option<usize>
    ensures { result ≡ position is_feed piece.now }
{
    memchr(b'\n', piece)
}

/// The line that a piece begins with, without its line feed, where it ends in the piece and has at most 128 bytes.
fn first_line(piece: &[u8]) -> Option<&[u8]>
    ensures within { IfSome result (λ text. length text.now < length piece.now) }
    ensures short { IfSome result (λ text. length text.now ≤ 128) }
    ensures takes { IfSome result (λ text. TakesToFeed [] text.now piece.now (length text.now + 1)) }
{
    let prefix = &piece[..piece.len().min(129)];
    match first_feed(prefix) {
        Some(at) => Some(&prefix[..at]),
        None => None,
    }
}

/// That line, where no byte is held: it lies whole in the piece.
fn whole_line<'a>(line: &LineIn, piece: &'a [u8]) -> Option<&'a [u8]>
    ensures none { IfSome result (λ text. line.now.bytes ≡ []) }
    ensures within { IfSome result (λ text. length text.now < length piece.now) }
    ensures short { IfSome result (λ text. length text.now ≤ 128) }
    ensures takes { IfSome result (λ text. TakesToFeed [] text.now piece.now (length text.now + 1)) }
{
    if line.bytes().is_empty() {
        first_line(piece)
    } else {
        None
    }
}

/// Gives a checker the prefix of some bytes, as `give_prefix` does, whatever they are. A line that lies whole in them
/// isn't copied, other bytes are, behind those that are held.
#[inline(never)]
fn give_bytes(checker: &mut Checker, line: &mut LineIn, rest: &[u8]) -> Result<usize, Refuted>
    requires line { IsPartialLine line.old }
    requires good { checker.old.refused ≡ None }
    requires some { 0 < length rest.now }
    ensures some { IfOk result (λ taken. 0 < taken) }
    ensures within { IfOk result (λ taken. taken ≤ length rest.now) }
    ensures given { IfOk result (λ taken. (text : List ℕ) → AreGiven checker.old line.old text →
        AreGiven checker.new line.new (text ++ take taken rest.now)) }
    ensures good { OnOk result (checker.new.refused ≡ None) }
    ensures refused { IfErr result (λ e. (text : List ℕ) → AreGiven checker.old line.old text → (more : List ℕ) →
        text_verdict checker.old.basin checker.old.series (text ++ rest.now ++ more) ≡ Err e) }
    ensures left { IfOk result (λ taken. room_left checker.new line.new + taken ≤ room_left checker.old line.old) }
    ensures line { IsPartialLine line.new }
    ensures basin { checker.new.basin ≡ checker.old.basin }
    ensures series { checker.new.series ≡ checker.old.series }
    ensures audit { lines.IsAudit checker.old → lines.IsAudit checker.new }
{
    match whole_line(line, rest) {
        Some(text) => {
            checker.line(text)?;
            Ok(text.len() + 1)
        }
        None => {
            let fed = line.feed(rest);
            if !fed.whole {
                return Ok(fed.taken);
            }
            end_line(checker, line)?;
            Ok(fed.taken)
        }
    }
}

/// Gives a checker the line that some bytes begin with, where no byte is held and it is the one that is most likely to
/// come, and answers it without its line feed. Else nothing changes.
#[inline(always)]
fn give_likely<'a>(checker: &mut Checker, line: &LineIn, rest: &'a [u8]) -> Option<&'a [u8]>
    ensures held { IfSome result (λ text. line.now.bytes ≡ []) }
    ensures stands { IfSome result (λ text. (lines : List (List ℕ)) → CheckerStandsFor checker.old lines →
        CheckerStandsFor checker.new (lines ++ text.now ∷ [])) }
    ensures takes { IfSome result (λ text. TakesToFeed [] text.now rest.now (length text.now + 1)) }
    ensures good { IfSome result (λ text. checker.new.refused ≡ None) }
    ensures none { IfNone result (checker.new ≡ checker.old) }
    ensures left { IfSome result (λ text. lines_left checker.new + 1 ≡ lines_left checker.old) }
    ensures basin { checker.new.basin ≡ checker.old.basin }
    ensures series { checker.new.series ≡ checker.old.series }
    ensures audit { lines.IsAudit checker.old → lines.IsAudit checker.new }
{
    if line.bytes().is_empty() {
        checker.likely_line(rest)
    } else {
        None
    }
}

/// Gives a checker the prefix of some bytes, up to the end of a line if there is one, and answers how many they are.
/// Where they begin with the line that is most likely to come, its end isn't looked for.
fn give_prefix(checker: &mut Checker, line: &mut LineIn, rest: &[u8]) -> Result<usize, Refuted>
    requires line { IsPartialLine line.old }
    requires good { checker.old.refused ≡ None }
    requires some { 0 < length rest.now }
    ensures some { IfOk result (λ taken. 0 < taken) }
    ensures within { IfOk result (λ taken. taken ≤ length rest.now) }
    ensures given { IfOk result (λ taken. (text : List ℕ) → AreGiven checker.old line.old text →
        AreGiven checker.new line.new (text ++ take taken rest.now)) }
    ensures good { OnOk result (checker.new.refused ≡ None) }
    ensures refused { IfErr result (λ e. (text : List ℕ) → AreGiven checker.old line.old text → (more : List ℕ) →
        text_verdict checker.old.basin checker.old.series (text ++ rest.now ++ more) ≡ Err e) }
    ensures left { IfOk result (λ taken. room_left checker.new line.new + taken ≤ room_left checker.old line.old) }
    ensures line { IsPartialLine line.new }
    ensures basin { checker.new.basin ≡ checker.old.basin }
    ensures series { checker.new.series ≡ checker.old.series }
    ensures audit { lines.IsAudit checker.old → lines.IsAudit checker.new }
{
    match give_likely(checker, line, rest) {
        Some(text) => Ok(text.len() + 1),
        None => give_bytes(checker, line, rest),
    }
}

/// Gives a checker the next bytes of a text. The line holds what stands after the last line feed before them.
pub(crate) fn give(checker: &mut Checker, line: &mut LineIn, piece: &[u8]) -> Result<(), Refuted>
    requires line { IsPartialLine line.old }
    requires good { checker.old.refused ≡ None }
    ensures given { OnOk result ((text : List ℕ) → AreGiven checker.old line.old text →
        AreGiven checker.new line.new (text ++ piece.now)) }
    ensures good { OnOk result (checker.new.refused ≡ None) }
    ensures refused { IfErr result (λ e. (text : List ℕ) → AreGiven checker.old line.old text → (rest : List ℕ) →
        text_verdict checker.old.basin checker.old.series (text ++ piece.now ++ rest) ≡ Err e) }
    ensures left { OnOk result (room_left checker.new line.new + length piece.now ≤ room_left checker.old line.old) }
    ensures line { IsPartialLine line.new }
    ensures basin { checker.new.basin ≡ checker.old.basin }
    ensures series { checker.new.series ≡ checker.old.series }
    ensures audit { lines.IsAudit checker.old → lines.IsAudit checker.new }
{
    let mut at = 0;
    while at < piece.len() {
        let taken = give_prefix(checker, line, &piece[at..])?;
        at += taken;
    }
    Ok(())
}

/// Checks a result text that is given in pieces, of any size each, up to the first line at fault. No more of the text
/// is kept than the line under way.
///
/// It stands for the bytes that it was given, while none of their lines is at fault.
#[derive(Drop)]
pub struct PieceChecker<'b> {
    checker: Checker<'b>,
    line: LineIn,
}

impl<'b> Model for PieceChecker<'b> {
    ghost use Rattle.cert_check.specs.Pieces.{IsPartialLine, PiecesView};

    ghost Value = { PiecesView };

    ghost view = { λ p. record {
      basin = p.checker.basin;
      series = p.checker.series;
      progress = p.checker.progress;
      refused = p.checker.refused;
      line = p.line;
    } };

    ghost invariant = { λ p. IsPartialLine p.line };
}

impl<'b> PieceChecker<'b> {
    /// A checker that was given no byte. AllocError comes where memory is lacking; no other call takes memory.
    pub fn open(
        alloc: Global,
        basin: &'b Basin,
        series: &'b Series,
    ) -> Result<PieceChecker<'b>, AllocError>
        requires basin { IsValidBasin basin.now }
        requires series { IsSeriesOf basin.now series.now }
        ensures basin { IfOk result (λ checker. checker.basin ≡ basin.now) }
        ensures series { IfOk result (λ checker. checker.series ≡ series.now) }
        ensures none { IfOk result (λ checker. StandsForText checker []) }
        ensures room { IfOk result (λ checker. bytes_left checker < 2 ^ 64) }
    {
        let checker = Checker::open(alloc, basin, series)?;
        Ok(PieceChecker {
            checker,
            line: LineIn::new(),
        })
    }

    /// A checker that was given no byte, and audits. AllocError comes where memory is lacking; no other call takes
    /// memory.
    pub fn open_audit(
        alloc: Global,
        basin: &'b Basin,
        series: &'b Series,
    ) -> Result<PieceChecker<'b>, AllocError>
        requires basin { IsValidBasin basin.now }
        requires series { IsSeriesOf basin.now series.now }
        ensures basin { IfOk result (λ checker. checker.basin ≡ basin.now) }
        ensures series { IfOk result (λ checker. checker.series ≡ series.now) }
        ensures none { IfOk result (λ checker. StandsForText checker []) }
        ensures room { IfOk result (λ checker. bytes_left checker < 2 ^ 64) }
        ensures audit { IfOk result IsAudit }
    {
        let checker = Checker::open_audit(alloc, basin, series)?;
        Ok(PieceChecker {
            checker,
            line: LineIn::new(),
        })
    }

    /// Takes the next piece of the text. It is refused where a line that it ends is at fault, with the first such line
    /// and the first kind that holds of it, and as soon as a line has more than 128 bytes. That is the verdict on the
    /// text, whatever may follow. After a refusal nothing more may be fed.
    ///
    /// No memory is taken. The cost is that of its lines.
    pub fn feed(&mut self, piece: &[u8]) -> Result<(), Refuted>
        requires { self.old.refused ≡ None }
        ensures stands { OnOk result ((text : List ℕ) → StandsForText self.old text →
            StandsForText self.new (text ++ piece.now)) }
        ensures good { OnOk result (self.new.refused ≡ None) }
        ensures refused { IfErr result (λ e. (text : List ℕ) → StandsForText self.old text → (rest : List ℕ) →
            text_verdict self.old.basin self.old.series (text ++ piece.now ++ rest) ≡ Err e) }
        ensures left { OnOk result (bytes_left self.new + length piece.now ≤ bytes_left self.old) }
        ensures basin { self.new.basin ≡ self.old.basin }
        ensures series { self.new.series ≡ self.old.series }
        ensures audit { IsAudit self.old → IsAudit self.new }
    {
        give(&mut self.checker, &mut self.line, piece)
    }

    /// What the bytes so far are as a whole text: the number of months where they are the text of a history, or why
    /// not. After a refusal the answer says nothing. It changes nothing, and takes no memory.
    pub fn finish(&self) -> Result<u32, Refuted>
        ensures { (text : List ℕ) → StandsForText self.now text →
            IsAnswer self.now.basin result (text_verdict self.now.basin self.now.series text) }
    {
        self.checker.finish(self.line.bytes())
    }

    /// What an audit of the bytes so far, as a whole text, answers: what `finish` answers; but where that is a yes and
    /// a set isn't a reach, a refusal for the first such `call` line, by month and then by seniority. After a refusal
    /// the answer says nothing. It changes nothing, and takes no memory.
    pub fn finish_audit(&self) -> Result<u32, Refuted>
        requires { IsAudit self.now }
        ensures { (text : List ℕ) → StandsForText self.now text →
            IsAuditAnswer self.now.basin self.now.series text result }
    {
        self.checker.finish_audit(self.line.bytes())
    }
}
