//! A whole script answered.
ghost use Rattle.std.specs.Prelude.{◌≡◌, ◌*◌, ◌<◌, All, length, Err, [], IsErr, OnOk};
ghost use Rattle.water_edge.specs.Edge.{HasCause, Puts};
ghost use Rattle.water_model.specs.Valid.{IsValidBasin, IsSeriesOf};
ghost use Rattle.edit_script.specs.Edits.{IsValidEdit, cost, cost_from};
ghost use Rattle.edit_session.specs.Shown.{Answers, AnswersWhole, IsUntouchedOrFlushed, done_bytes, is_show, shows_in};
ghost use Rattle.edit_session.specs.declared.stop.EditStop.TheVariants as stop;
ghost use Rattle.month_fold.specs.Works.{Solves};

use crate::answer::answer;
use crate::session::Session;
use crate::stop::EditStop;
use edit_script::edit::Edit;
use month_fold::work::Work;
use std::alloc::Global;
use std::sync::ledger::Ledger;
use water_edge::{Sink, SinkFailed};
use water_model::types::{Basin, Series};
use water_text::line::Line;

/// Answers line after line.
fn answer_each<K: Sink, P: Ledger, M: Ledger>(
    alloc: Global,
    session: &mut Session,
    edits: &[Edit],
    out: &mut K,
    work: &mut Work<P, M>,
) -> Result<(), EditStop>
    requires { All (IsValidEdit session.old.basin session.old.series) edits.now }
    ensures answers { Answers K.Sink session.old.basin session.old.series edits.now result out.old out.new }
    ensures cause { HasCause (K.faults out.old) (K.faults out.new) (result ≡ Err stop.SinkFailed) }
    ensures work { Solves (cost_from (length session.old.kept) edits.now) session.old.basin work.old work.new }
{
    for edit in edits {
        answer(alloc, session, *edit, out, work)?;
    }
    Ok(())
}

fn is_show(edit: Edit) -> bool
    ensures { result ≡ is_show edit }
{
    match edit {
        Edit::Show { .. } => true,
        Edit::Inflow { .. } | Edit::Want { .. } => false,
    }
}

/// How many months a script shows.
fn count_shows(edits: &[Edit]) -> u64
    ensures { result ≡ shows_in edits.now }
{
    edits.iter().filter(|edit| is_show(**edit)).count() as u64
}

/// Makes the last line.
fn make_done(line: &mut Line, shows: u64)
    requires { line.old ≡ [] }
    ensures { line.new ≡ done_bytes shows }
{
    line.word(b"done");
    line.add_number(shows);
    line.word(b"\n");
}

/// Puts the last line and flushes it.
fn put_done<K: Sink>(out: &mut K, shows: u64) -> Result<(), SinkFailed>
    ensures text { Puts (K.output out.old) (K.output out.new) result (done_bytes shows) }
    ensures flushed { OnOk result ((K.output out.new).flushed ≡ (K.output out.new).taken) }
    ensures cause { HasCause (K.faults out.old) (K.faults out.new) (IsErr result) }
{
    let mut line = Line::new();
    make_done(&mut line, shows);
    out.put(line.bytes())?;
    out.flush()
}

/// Answers the lines of a script and puts the last line.
fn put_answers<K: Sink, P: Ledger, M: Ledger>(
    alloc: Global,
    session: &mut Session,
    edits: &[Edit],
    out: &mut K,
    work: &mut Work<P, M>,
) -> Result<(), EditStop>
    requires { All (IsValidEdit session.old.basin session.old.series) edits.now }
    ensures answers { AnswersWhole session.old.basin session.old.series edits.now result (K.output out.old)
        (K.output out.new) }
    ensures shown { result ≡ Err stop.OutOfMemory → IsUntouchedOrFlushed out.old out.new (K.output out.new) }
    ensures cause { HasCause (K.faults out.old) (K.faults out.new) (result ≡ Err stop.SinkFailed) }
    ensures work { Solves (cost_from (length session.old.kept) edits.now) session.old.basin work.old work.new }
{
    answer_each(alloc, session, edits, out, work)?;
    put_done(out, count_shows(edits))?;
    Ok(())
}

/// Answers a script: puts for each `show` the lines of its month, of the series as it is by then, and flushes them, and
/// at the end the number of months shown. Kept months before a change are not solved again: no more months are solved
/// than the cost of the script.
///
/// Kept months take memory. OutOfMemory comes where that is lacking, and the whole lines of the months shown so far
/// stand then, flushed; SinkFailed comes only where the sink counted a fault, and a prefix of the answer stands, of
/// whose months all but the last are flushed.
pub fn put_shows<K: Sink, P: Ledger, M: Ledger>(
    alloc: Global,
    basin: &Basin,
    series: &Series,
    edits: &[Edit],
    out: &mut K,
    work: &mut Work<P, M>,
) -> Result<(), EditStop>
    requires basin { IsValidBasin basin.now }
    requires series { IsSeriesOf basin.now series.now }
    requires placed { All (IsValidEdit basin.now series.now) edits.now }
    ensures answers { AnswersWhole basin.now series.now edits.now result (K.output out.old) (K.output out.new) }
    ensures shown { result ≡ Err stop.OutOfMemory → IsUntouchedOrFlushed out.old out.new (K.output out.new) }
    ensures cause { HasCause (K.faults out.old) (K.faults out.new) (result ≡ Err stop.SinkFailed) }
    ensures work { Solves (cost edits.now) basin.now work.old work.new }
{
    let mut session = Session::open(alloc, basin, series)?;
    put_answers(alloc, &mut session, edits, out, work)
}
