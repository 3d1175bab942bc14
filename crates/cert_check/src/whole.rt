//! The verdict on the bytes of a whole text.
ghost use Rattle.std.specs.Prelude.{[]};
ghost use Rattle.cert_check.specs.Audit.{IsAuditAnswer};
ghost use Rattle.cert_check.specs.Standing.{IsAnswer, IsAudit, CheckerStandsFor};
ghost use Rattle.cert_check.specs.Whole.{text_verdict};

use crate::checker::Checker;
use crate::pieces::give;
use crate::refuted::Refuted;
use water_text::line_in::LineIn;

/// Checks a whole text: answers the number of its months where it is the text of a history, or the first line at fault
/// and why. The checker was given no line before.
///
/// The lines of a text are ended by line feeds. What stands after the last one is its rest; a rest of more than 128
/// bytes counts as a line. No line after the first at fault is looked at.
pub fn check_text(checker: &mut Checker, text: &[u8]) -> Result<u32, Refuted>
    requires { CheckerStandsFor checker.old [] }
    ensures { IsAnswer checker.old.basin result (text_verdict checker.old.basin checker.old.series text.now) }
{
    let mut line = LineIn::new();
    give(checker, &mut line, text)?;
    checker.finish(line.bytes())
}

/// Audits a whole text: answers the number of its months where it is the text of a history whose sets are the reaches,
/// the first line at fault and why where it is the text of no history, and else the first `call` line, by month and
/// then by seniority, whose right's set isn't its reach. The checker audits, and was given no line before.
pub fn audit_text(checker: &mut Checker, text: &[u8]) -> Result<u32, Refuted>
    requires none { CheckerStandsFor checker.old [] }
    requires audit { IsAudit checker.old }
    ensures { IsAuditAnswer checker.old.basin checker.old.series text.now result }
{
    let mut line = LineIn::new();
    give(checker, &mut line, text)?;
    checker.finish_audit(line.bytes())
}
