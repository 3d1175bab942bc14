//! A checker of result texts, line by line.
ghost use Rattle.std.specs.Prelude.{ℕ, List, [], ◌≡◌, ◌+◌, ◌*◌, ◌^◌, ◌<◌, ◌≤◌, ◌++◌, ◌∷◌, length, Some, None, Err};
ghost use Rattle.std.specs.Prelude.{IfOk, IfErr, IfNone, IfSome, OnOk};
ghost use Rattle.result_reader.specs.ReadSoFar.{nothing_read};
ghost use Rattle.cert_check.specs.Audit.{IsAuditAnswer};
ghost use Rattle.cert_check.specs.Auditing.{IsAuditIfAny};
ghost use Rattle.cert_check.specs.Checking.{verdict, verdict_from};
ghost use Rattle.cert_check.specs.Standing.{IsAnswer, IsAudit, IsLineAnswer, CheckerStandsFor, lines_left};
ghost use Rattle.cert_check.specs.Whole.{pieces_of};
ghost use Rattle.water_model.specs.Valid.{IsValidBasin, IsSeriesOf};
ghost use Rattle.water_text.specs.LinesIn.{TakesToFeed};

use crate::audit::{Audit, answer};
use crate::opening::{context_of, progress_of};
use crate::progress::{CheckProgress, take_likely, take_line};
use crate::refuted::{Refuted, RefutedKind};
use crate::state::Context;
use std::alloc::{AllocError, Global};
use std::marker::Model;
use water_model::types::{Basin, Series};

/// Checks the lines of a result text of a basin and its series, one after the other, and refutes the first that is at
/// fault.
///
/// It stands for the list of all lines that it was given.
#[derive(Drop)]
pub struct Checker<'b> {
    context: Context<'b>,
    progress: CheckProgress<'b>,
    refused: Option<Refuted>,
}

impl<'b> Model for Checker<'b> {
    ghost use Rattle.cert_check.specs.Standing.{CheckerView};

    ghost Value = { CheckerView };

    ghost use Rattle.cert_check.specs.CheckerInside.{view_of, IsValidChecker};

    ghost view = { view_of };

    ghost invariant = { IsValidChecker };
}

impl<'b> Checker<'b> {
    /// A checker that was given no line, with this audit of no line if one is asked for.
    fn open_with(
        alloc: Global,
        basin: &'b Basin,
        series: &'b Series,
        audit: Option<Audit>,
    ) -> Result<Checker<'b>, AllocError>
        requires basin { IsValidBasin basin.now }
        requires series { IsSeriesOf basin.now series.now }
        requires audit { IsAuditIfAny basin.now (nothing_read basin.now) [] audit }
        ensures basin { IfOk result (λ checker. checker.basin ≡ basin.now) }
        ensures series { IfOk result (λ checker. checker.series ≡ series.now) }
        ensures none { IfOk result (λ checker. CheckerStandsFor checker []) }
        ensures good { IfOk result (λ checker. checker.refused ≡ None) }
        ensures bounded { IfOk result (λ checker. lines_left checker ≤ 5 * 10 ^ 9) }
        ensures audit { IfOk result (λ checker. checker.progress.audit ≡ audit) }
    {
        let context = context_of(alloc, basin, series)?;
        let progress = progress_of(alloc, basin, &context.roll, audit)?;
        Ok(Checker {
            context,
            progress,
            refused: None,
        })
    }

    /// A checker that was given no line. AllocError comes where memory is lacking; no other call takes memory.
    pub fn open(
        alloc: Global,
        basin: &'b Basin,
        series: &'b Series,
    ) -> Result<Checker<'b>, AllocError>
        requires basin { IsValidBasin basin.now }
        requires series { IsSeriesOf basin.now series.now }
        ensures basin { IfOk result (λ checker. checker.basin ≡ basin.now) }
        ensures series { IfOk result (λ checker. checker.series ≡ series.now) }
        ensures none { IfOk result (λ checker. CheckerStandsFor checker []) }
        ensures good { IfOk result (λ checker. checker.refused ≡ None) }
        ensures bounded { IfOk result (λ checker. lines_left checker ≤ 5 * 10 ^ 9) }
    {
        Checker::open_with(alloc, basin, series, None)
    }

    /// A checker that was given no line, and audits. AllocError comes where memory is lacking; no other call takes
    /// memory.
    pub fn open_audit(
        alloc: Global,
        basin: &'b Basin,
        series: &'b Series,
    ) -> Result<Checker<'b>, AllocError>
        requires basin { IsValidBasin basin.now }
        requires series { IsSeriesOf basin.now series.now }
        ensures basin { IfOk result (λ checker. checker.basin ≡ basin.now) }
        ensures series { IfOk result (λ checker. checker.series ≡ series.now) }
        ensures none { IfOk result (λ checker. CheckerStandsFor checker []) }
        ensures good { IfOk result (λ checker. checker.refused ≡ None) }
        ensures bounded { IfOk result (λ checker. lines_left checker ≤ 5 * 10 ^ 9) }
        ensures audit { IfOk result IsAudit }
    {
        let audit = Audit::open(alloc, basin)?;
        Checker::open_with(alloc, basin, series, Some(audit))
    }

    /// Takes the next line, without its line feed. It is refused where it, or a line before it, is at fault: then with
    /// the first line at fault and the first kind that holds of it. After a refusal each later call answers the same.
    pub fn line(&mut self, text: &[u8]) -> Result<(), Refuted>
        ensures answer { (lines : List (List ℕ)) → CheckerStandsFor self.old lines →
            IsLineAnswer result (verdict_from self.old.basin self.old.series [] (lines ++ text.now ∷ [])) }
        ensures stands { (lines : List (List ℕ)) → CheckerStandsFor self.old lines →
            CheckerStandsFor self.new (lines ++ text.now ∷ []) }
        ensures basin { self.new.basin ≡ self.old.basin }
        ensures series { self.new.series ≡ self.old.series }
        ensures good { OnOk result (self.new.refused ≡ None) }
        ensures left { OnOk result (lines_left self.new + 1 ≡ lines_left self.old) }
        ensures refused { IfErr result (λ e. self.new.refused ≡ Some e) }
        ensures stays { IfSome self.old.refused (λ e. (result ≡ Err e) × (self.new ≡ self.old)) }
        ensures audit { IsAudit self.old → IsAudit self.new }
    {
        match self.refused {
            Some(refused) => return Err(refused),
            None => {}
        }
        match take_line(&self.context, &mut self.progress, text) {
            Ok(()) => Ok(()),
            Err(refused) => {
                self.refused = Some(refused);
                Err(refused)
            }
        }
    }

    /// Takes the next line as `line` does, and answers it, where some bytes begin with it and its line feed, and it is
    /// the `in` line that is most likely to come. Else nothing changes: the bytes may begin with any other line.
    #[inline(always)]
    pub(crate) fn likely_line<'a>(&mut self, piece: &'a [u8]) -> Option<&'a [u8]>
        ensures stands { IfSome result (λ text. (lines : List (List ℕ)) → CheckerStandsFor self.old lines →
            CheckerStandsFor self.new (lines ++ text.now ∷ [])) }
        ensures takes { IfSome result (λ text. TakesToFeed [] text.now piece.now (length text.now + 1)) }
        ensures good { IfSome result (λ text. self.new.refused ≡ None) }
        ensures none { IfNone result (self.new ≡ self.old) }
        ensures left { IfSome result (λ text. lines_left self.new + 1 ≡ lines_left self.old) }
        ensures basin { self.new.basin ≡ self.old.basin }
        ensures series { self.new.series ≡ self.old.series }
        ensures audit { IsAudit self.old → IsAudit self.new }
    {
        match self.refused {
            Some(_) => return None,
            None => {}
        }
        match take_likely(&self.context, &mut self.progress, piece) {
            Some(text) => Some(text),
            None => None,
        }
    }

    /// How many lines may still be accepted, at most: for each line that is due one, and for a `call` line one more for
    /// each node. It falls by one with each accepted line.
    pub fn lines_left(&self) -> u64
        ensures { result ≡ lines_left self.now }
    {
        self.progress.reader.lines_left()
    }

    /// What the lines so far are, with this rest after the last line feed, as a whole text: the number of months where
    /// they are the text of a history, or why not. It changes nothing.
    pub fn finish(&self, rest: &[u8]) -> Result<u32, Refuted>
        requires { length rest.now ≤ 128 }
        ensures answer { (lines : List (List ℕ)) → CheckerStandsFor self.now lines →
            IsAnswer self.now.basin result (verdict self.now.basin self.now.series lines rest.now) }
        ensures stays { IfSome self.now.refused (λ e. result ≡ Err e) }
    {
        match self.refused {
            Some(refused) => return Err(refused),
            None => {}
        }
        let next = self.progress.read + 1;
        if !self.progress.ended {
            return Err(Refuted {
                line: next,
                kind: RefutedKind::EarlyEnd,
            });
        }
        if !rest.is_empty() {
            return Err(Refuted {
                line: next,
                kind: RefutedKind::AfterEnd,
            });
        }
        Ok(self.context.basin.months)
    }

    /// What an audit of the lines so far answers, with this rest after the last line feed, as a whole text: what
    /// `finish` answers; but where that is a yes and a set isn't a reach, a refusal for the first such `call` line. It
    /// changes nothing.
    pub fn finish_audit(&self, rest: &[u8]) -> Result<u32, Refuted>
        requires rest { length rest.now ≤ 128 }
        requires audit { IsAudit self.now }
        ensures answer { (lines : List (List ℕ)) (text : List ℕ) → CheckerStandsFor self.now lines →
            pieces_of text ≡ lines ++ rest.now ∷ [] →
            IsAuditAnswer self.now.basin self.now.series text result }
        ensures stays { IfSome self.now.refused (λ e. result ≡ Err e) }
    {
        let months = self.finish(rest)?;
        match &self.progress.audit {
            Some(audit) => answer(audit, months),
            None => Ok(months),
        }
    }
}
