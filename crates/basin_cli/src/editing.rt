//! Scripts of changes to a series: the months that they show.
ghost use Rattle.std.specs.Prelude.{◌≡◌, ◌≤◌, All, IfErr, IfOk, Ok};
ghost use Rattle.edit_script.specs.Edits.{IsValidEdit, cost};
ghost use Rattle.edit_script.specs.Scripts.{script_of};
ghost use Rattle.edit_session.specs.Shown.{IsUntouchedOrFlushed};
ghost use Rattle.water_edge.specs.Edge.{Rose};
ghost use Rattle.water_model.specs.Valid.{IsValidBasin, IsSeriesOf};
ghost use Rattle.basin_cli.specs.Edited.{EndsEditing, LeavesScript, LeavesShows, WorkOfScript, ScriptEnds};
ghost use Rattle.basin_cli.specs.Ending.{status_of};
ghost use Rattle.basin_cli.specs.Failed.{file_at};
ghost use Rattle.basin_cli.specs.Out.{IsRefusal, MayShow, WithoutMemory};
ghost use Rattle.basin_cli.specs.Outcome.{HasTrialCause, IsQuiet};
ghost use Rattle.month_fold.specs.Works.{Solves};

use crate::ending::Ending;
use edit_script::edit::Edit;
use edit_script::{ScriptRefused, read_script};
use edit_session::{EditStop, put_shows};
use month_fold::work::Work;
use std::alloc::Global;
use std::sync::ledger::Ledger;
use water_edge::Sink;
use water_model::types::{Basin, Series};

/// What the bytes of a script ask for, or how the call ends.
fn accept_script(
    alloc: Global,
    basin: &Basin,
    series: &Series,
    text: &[u8],
) -> Result<Vec<Edit>, Ending>
    requires basin { IsValidBasin basin.now }
    requires series { IsSeriesOf basin.now series.now }
    ensures reads { IfOk result (λ edits. script_of basin.now series.now text.now ≡ Ok edits.items) }
    ensures placed { IfOk result (λ edits. All (IsValidEdit basin.now series.now) edits.items) }
    ensures ends { IfErr result (λ e. ScriptEnds basin.now series.now text.now e) }
    ensures at { IfErr result (λ e. file_at e ≡ None) }
{
    match read_script(alloc, basin, series, text) {
        Ok(edits) => Ok(edits),
        Err(ScriptRefused::OutOfMemory) => Err(Ending::OutOfMemory),
        Err(ScriptRefused::Refused { fault, line }) => Err(Ending::ScriptRefused { fault, line }),
    }
}

/// Puts the months that a script shows, and at the end their number.
fn answer_edits<K: Sink, P: Ledger, M: Ledger>(
    alloc: Global,
    basin: &Basin,
    series: &Series,
    edits: &[Edit],
    out: &mut K,
    work: &mut Work<P, M>,
) -> Ending
    requires basin { IsValidBasin basin.now }
    requires series { IsSeriesOf basin.now series.now }
    requires placed { All (IsValidEdit basin.now series.now) edits.now }
    ensures ends { HasTrialCause result (Rose (K.faults out.old) (K.faults out.new)) }
    ensures at { file_at result ≡ None }
    ensures leaves { LeavesShows (status_of result) basin.now series.now edits.now (K.output out.old)
        (K.output out.new) }
    ensures idle { IsRefusal (status_of result) → ⊥ }
    ensures work { Solves (cost edits.now) basin.now work.old work.new }
    ensures flushed { IsQuiet (status_of result) → (K.output out.new).flushed ≡ (K.output out.new).taken }
    ensures shown { WithoutMemory (status_of result) (IsUntouchedOrFlushed out.old out.new (K.output out.new)) }
{
    match put_shows(alloc, basin, series, edits, out, work) {
        Ok(()) => Ending::Done,
        Err(EditStop::SinkFailed) => Ending::WriteFault,
        Err(EditStop::OutOfMemory) => Ending::OutOfMemory,
    }
}

/// Changes numbers of a basin's series as a script says, and puts the months that it shows, each of the series as it is
/// by then. The months before a change are not solved again, and nothing is put where the script is refused.
pub fn edit_basin<K: Sink, P: Ledger, M: Ledger>(
    alloc: Global,
    basin: &Basin,
    series: &Series,
    text: &[u8],
    out: &mut K,
    work: &mut Work<P, M>,
) -> Ending
    requires basin { IsValidBasin basin.now }
    requires series { IsSeriesOf basin.now series.now }
    ensures ends { EndsEditing basin.now series.now text.now result (Rose (K.faults out.old) (K.faults out.new)) }
    ensures at { file_at result ≡ None }
    ensures leaves { LeavesScript (status_of result) basin.now series.now text.now (K.output out.old)
        (K.output out.new) }
    ensures out_stays { (MayShow (status_of result) → ⊥) → out.new ≡ out.old }
    ensures idle { IsRefusal (status_of result) → work.new ≡ work.old }
    ensures work { WorkOfScript basin.now series.now text.now work.old work.new }
    ensures flushed { IsQuiet (status_of result) → (K.output out.new).flushed ≡ (K.output out.new).taken }
    ensures shown { WithoutMemory (status_of result) (IsUntouchedOrFlushed out.old out.new (K.output out.new)) }
{
    let edits = match accept_script(alloc, basin, series, text) {
        Ok(edits) => edits,
        Err(ending) => return ending,
    };
    answer_edits(alloc, basin, series, &edits, out, work)
}
