//! Texts of a run, written month by month.
ghost use Rattle.std.specs.Prelude.{ℕ, [], ◌≡◌, ◌+◌, ◌<◌, IsErr, MatchResult, OnOk};
ghost use Rattle.call_list.specs.Finders.{IsFinderOf};
ghost use Rattle.month_fold.specs.Runs.{RunStandsFor};
ghost use Rattle.month_fold.specs.Works.{Solves, SolvesRun, WorkDone};
ghost use Rattle.water_edge.specs.Edge.{HasCause, Output, Puts};
ghost use Rattle.water_model.specs.Valid.{IsValidBasin};
ghost use Rattle.water_model.specs.declared.types.Basin.{Basin};
ghost use Rattle.basin_cli.specs.Explained.{HasLast};
ghost use Rattle.basin_cli.specs.Monthly.{IsBegunText, IsWholeText, MonthlyText, GrowsMonthly, PutsMonth, StopsAtMonth};
ghost use Rattle.basin_cli.specs.Monthly.{call_text, lists_grow, results_grow, run_text};

use call_list::CallFinder;
use month_fold::run::Run;
use month_fold::work::Work;
use std::sync::ledger::Ledger;
use water_edge::{Sink, SinkFailed};
use water_model::types::Basin;

/// What puts a text of a run month by month. It takes no memory.
pub trait MonthlyWriter {
    /// What the text is.
    ghost text: { MonthlyText };

    /// It can put months of a basin.
    ghost is_for: { Basin → Self → Type 0 };

    /// Puts the lines before the first month.
    fn put_head<K: Sink>(out: &mut K, basin: &Basin) -> Result<(), SinkFailed>
        requires { IsValidBasin basin.now }
        ensures lines { Puts (K.output out.old) (K.output out.new) result (text.head basin.now) }
        ensures cause { HasCause (K.faults out.old) (K.faults out.new) (IsErr result) };

    /// Puts the lines of the month that was solved last.
    fn put_month<K: Sink>(&mut self, out: &mut K, run: &Run) -> Result<(), SinkFailed>
        requires writer { is_for run.now.basin self.old }
        requires last { HasLast run.now }
        ensures writer { is_for run.now.basin self.new }
        ensures month { PutsMonth text run.now.basin run.now.last (K.output out.old) (K.output out.new) result }
        ensures cause { HasCause (K.faults out.old) (K.faults out.new) (IsErr result) };

    /// Puts the lines after the last month.
    fn put_tail<K: Sink>(out: &mut K, basin: &Basin) -> Result<(), SinkFailed>
        requires { IsValidBasin basin.now }
        ensures lines { Puts (K.output out.old) (K.output out.new) result (text.tail basin.now) }
        ensures cause { HasCause (K.faults out.old) (K.faults out.new) (IsErr result) };

    ghost grows: { GrowsMonthly text };
}

/// Puts the result of a run.
#[derive(Clone, Copy)]
pub struct ResultWriter;

impl MonthlyWriter for ResultWriter {
    ghost text = { run_text };

    ghost is_for = { λ _ _. Unit {0} };

    fn put_head<K: Sink>(out: &mut K, basin: &Basin) -> Result<(), SinkFailed> {
        result_text::put_head(out, basin)
    }

    fn put_month<K: Sink>(&mut self, out: &mut K, run: &Run) -> Result<(), SinkFailed> {
        result_text::put_month(out, run.basin(), run.roll(), run.month())
    }

    fn put_tail<K: Sink>(out: &mut K, basin: &Basin) -> Result<(), SinkFailed> {
        result_text::put_tail(out, basin)
    }

    ghost grows = { results_grow };
}

/// Puts the list of a run's calls: it finds what one more unit of water would do in each month.
impl MonthlyWriter for CallFinder {
    ghost text = { call_text };

    ghost is_for = { IsFinderOf };

    fn put_head<K: Sink>(out: &mut K, basin: &Basin) -> Result<(), SinkFailed> {
        call_list::put_head(out, basin)
    }

    fn put_month<K: Sink>(&mut self, out: &mut K, run: &Run) -> Result<(), SinkFailed> {
        self.find(run.basin(), run.roll(), run.month());
        let calls = self.calls(run.basin(), run.roll(), run.month());
        call_list::put_month(out, &calls)
    }

    fn put_tail<K: Sink>(out: &mut K, basin: &Basin) -> Result<(), SinkFailed> {
        call_list::put_tail(out, basin)
    }

    ghost grows = { lists_grow };
}

/// Solves the next month, puts its lines and flushes them. `start` is what out had taken before the head. It takes no
/// memory.
fn write_month<W: MonthlyWriter, K: Sink, P: Ledger, M: Ledger>(
    writer: &mut W,
    out: &mut K,
    run: &mut Run,
    work: &mut Work<P, M>,
) -> Result<(), SinkFailed>
    ghost start: { Output }
    requires left { run.old.done < run.old.basin.months }
    requires writer { W.is_for run.old.basin writer.old }
    requires begun { IsBegunText W.text run.old.basin run.old start (K.output out.old) }
    ensures series { run.new.series ≡ run.old.series }
    ensures done { run.new.done ≡ run.old.done + 1 }
    ensures writer { W.is_for run.old.basin writer.new }
    ensures written { MatchResult result (λ _. IsBegunText W.text run.old.basin run.new start (K.output out.new))
        (λ _. (before : WorkDone) → Solves run.old.done run.old.basin before work.old →
        StopsAtMonth W.text run.old.basin run.old.series start (K.output out.new) before work.new) }
    ensures cause { HasCause (K.faults out.old) (K.faults out.new) (IsErr result) }
    ensures work { Solves 1 run.old.basin work.old work.new }
{
    run.step(work);
    writer.put_month(out, run)?;
    out.flush()
}

/// Solves all months of a run that had none yet, and puts each one's lines after its step.
fn write_months<W: MonthlyWriter, K: Sink, P: Ledger, M: Ledger>(
    writer: &mut W,
    out: &mut K,
    run: &mut Run,
    work: &mut Work<P, M>,
) -> Result<(), SinkFailed>
    ghost start: { Output }
    requires first { run.old.done ≡ 0 }
    requires writer { W.is_for run.old.basin writer.old }
    requires begun { IsBegunText W.text run.old.basin run.old start (K.output out.old) }
    ensures series { run.new.series ≡ run.old.series }
    ensures done { OnOk result (run.new.done ≡ run.old.basin.months) }
    ensures written { MatchResult result (λ _. IsBegunText W.text run.old.basin run.new start (K.output out.new))
        (λ _. StopsAtMonth W.text run.old.basin run.old.series start (K.output out.new) work.old work.new) }
    ensures cause { HasCause (K.faults out.old) (K.faults out.new) (IsErr result) }
    ensures work { SolvesRun run.old.basin work.old work.new }
{
    for _month in 0..run.basin().months {
        write_month(writer, out, run, work)?;
    }
    Ok(())
}

/// Puts the head of a text, the lines of each month as soon as it is solved, and the tail. It takes no memory.
pub fn write_run<W: MonthlyWriter, K: Sink, P: Ledger, M: Ledger>(
    writer: &mut W,
    out: &mut K,
    run: &mut Run,
    work: &mut Work<P, M>,
) -> Result<(), SinkFailed>
    ghost start: { Output }
    requires first { RunStandsFor run.old [] }
    requires writer { W.is_for run.old.basin writer.old }
    requires start { start ≡ K.output out.old }
    ensures written { MatchResult result
        (λ _. IsWholeText W.text run.old.basin run.old.series start (K.output out.new))
        (λ _. StopsAtMonth W.text run.old.basin run.old.series start (K.output out.new) work.old work.new) }
    ensures cause { HasCause (K.faults out.old) (K.faults out.new) (IsErr result) }
    ensures work { SolvesRun run.old.basin work.old work.new }
    ensures flushed { OnOk result ((K.output out.new).flushed ≡ (K.output out.new).taken) }
{
    W::put_head(out, run.basin())?;
    write_months(writer, out, run, work)?;
    W::put_tail(out, run.basin())?;
    out.flush()
}
