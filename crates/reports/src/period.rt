//! The report of a run.
ghost use Rattle.std.specs.Prelude.{◌≡◌, ◌≢◌, Err};
ghost use Rattle.water_edge.specs.Edge.{HasCause};
ghost use Rattle.rights_roll.specs.Rolls.{IsRollOf};
ghost use Rattle.water_model.specs.Valid.{IsValidBasin, IsSeriesOf};
ghost use Rattle.reports.specs.Ends.{Reports};
ghost use Rattle.reports.specs.Reports.{report_text};
ghost use Rattle.reports.specs.Tallies.{IsKeptOfRun, IsTally};
ghost use Rattle.reports.specs.declared.stop.ReportStop.TheVariants.{SinkFailed, OutOfMemory};
ghost use Rattle.month_fold.specs.Works.{SolvesRun};

use crate::months::kept_of;
use crate::stop::ReportStop;
use crate::tally::Tally;
use crate::texts::put_report;
use month_fold::work::Work;
use rights_roll::roll::Roll;
use std::alloc::Global;
use std::sync::ledger::Ledger;
use water_edge::Sink;
use water_model::types::{Basin, Series};

/// Puts the report of a run, whose roll this is, by the tally of its months.
///
/// SinkFailed comes only where the sink counted a fault, and a prefix of the text stands. OutOfMemory never comes.
fn put_tally<K: Sink>(
    basin: &Basin,
    series: &Series,
    sink: &mut K,
    roll: &Roll,
    tally: &Tally,
) -> Result<(), ReportStop>
    requires basin { IsValidBasin basin.now }
    requires roll { IsRollOf basin.now.rights roll.now }
    requires tally { IsKeptOfRun IsTally basin.now series.now tally.now }
    ensures text { Reports (λ records. report_text basin.now series.now records) basin.now series.now result
        (K.output sink.old) (K.output sink.new) }
    ensures cause { HasCause (K.faults sink.old) (K.faults sink.new) (result ≡ Err SinkFailed) }
    ensures memory { result ≢ Err OutOfMemory }
{
    match put_report(sink, basin, roll, tally) {
        Ok(()) => Ok(()),
        Err(_) => Err(ReportStop::SinkFailed),
    }
}

/// Runs all months of a basin with a series, and then puts the report of the run.
///
/// It takes memory before the first month is solved, and none after that. OutOfMemory comes where that is lacking, and
/// nothing was solved or put then; SinkFailed comes only where the sink counted a fault, and a prefix of the text
/// stands.
pub fn period_report<K: Sink, P: Ledger, M: Ledger>(
    alloc: Global,
    basin: &Basin,
    series: &Series,
    sink: &mut K,
    work: &mut Work<P, M>,
) -> Result<(), ReportStop>
    requires basin { IsValidBasin basin.now }
    requires series { IsSeriesOf basin.now series.now }
    ensures text { Reports (λ records. report_text basin.now series.now records) basin.now series.now result
        (K.output sink.old) (K.output sink.new) }
    ensures cause { HasCause (K.faults sink.old) (K.faults sink.new) (result ≡ Err SinkFailed) }
    ensures stays { result ≡ Err OutOfMemory → sink.new ≡ sink.old }
    ensures unsolved { result ≡ Err OutOfMemory → work.new ≡ work.old }
    ensures work { SolvesRun basin.now work.old work.new }
{
    let (tally, run) = kept_of::<Tally, P, M>(alloc, basin, series, work)?;
    let put = put_tally(basin, series, sink, run.roll(), &tally);
    drop(run);
    drop(tally);
    put
}
