//! One line of a script answered.
ghost use Rattle.std.specs.Prelude.{◌≡◌, ◌+◌, ◌<◌, [], ◌∷◌, length, max, Err, OnOk};
ghost use Rattle.water_edge.specs.Edge.{HasCause};
ghost use Rattle.edit_script.specs.Edits.{IsValidEdit, edited_by, kept_by, solved_by};
ghost use Rattle.edit_script.specs.declared.edit.Edit.TheVariants as edit;
ghost use Rattle.edit_session.specs.Shown.{Answers};
ghost use Rattle.edit_session.specs.declared.stop.EditStop.TheVariants.{SinkFailed};
ghost use Rattle.month_fold.specs.Works.{Solves};

use crate::session::Session;
use crate::stop::EditStop;
use edit_script::edit::Edit;
use month_fold::work::Work;
use result_text::put_month;
use std::alloc::Global;
use std::sync::ledger::Ledger;
use water_edge::Sink;

/// Solves what a month needs, puts its lines and flushes them.
fn show<K: Sink, P: Ledger, M: Ledger>(
    alloc: Global,
    session: &mut Session,
    index: u32,
    out: &mut K,
    work: &mut Work<P, M>,
) -> Result<(), EditStop>
    requires { index < session.old.basin.months }
    ensures basin { session.new.basin ≡ session.old.basin }
    ensures series { session.new.series ≡ session.old.series }
    ensures kept { OnOk result (length session.new.kept ≡ max (length session.old.kept) (index + 1)) }
    ensures answers { Answers K.Sink session.old.basin session.old.series (edit.Show index ∷ []) result out.old out.new }
    ensures cause { HasCause (K.faults out.old) (K.faults out.new) (result ≡ Err SinkFailed) }
    ensures work { Solves (solved_by (length session.old.kept) (edit.Show index)) session.old.basin work.old work.new }
{
    session.solve(alloc, index, work)?;
    put_month(out, session.basin(), session.roll(), session.month(index))?;
    out.flush()?;
    Ok(())
}

/// Makes a change, or puts the lines of the month that is to be shown.
pub fn answer<K: Sink, P: Ledger, M: Ledger>(
    alloc: Global,
    session: &mut Session,
    edit: Edit,
    out: &mut K,
    work: &mut Work<P, M>,
) -> Result<(), EditStop>
    requires { IsValidEdit session.old.basin session.old.series edit }
    ensures basin { session.new.basin ≡ session.old.basin }
    ensures series { session.new.series ≡ edited_by session.old.series edit }
    ensures kept { OnOk result
        (length session.new.kept ≡ kept_by (length session.old.kept) edit + solved_by (length session.old.kept) edit) }
    ensures answers { Answers K.Sink session.old.basin session.old.series (edit ∷ []) result out.old out.new }
    ensures cause { HasCause (K.faults out.old) (K.faults out.new) (result ≡ Err SinkFailed) }
    ensures work { Solves (solved_by (length session.old.kept) edit) session.old.basin work.old work.new }
{
    match edit {
        Edit::Inflow {
            index,
            gauge,
            amount,
        } => {
            session.set_inflow(index, gauge, amount);
            Ok(())
        }
        Edit::Want {
            index,
            place,
            amount,
        } => {
            session.set_want(index, place, amount);
            Ok(())
        }
        Edit::Show { index } => show(alloc, session, index, out, work),
    }
}
