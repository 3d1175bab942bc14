//! The summary of a trial.
ghost use Rattle.std.specs.Prelude.{◌≡◌, ◌≢◌, Err};
ghost use Rattle.water_edge.specs.Edge.{HasCause};
ghost use Rattle.water_model.specs.Valid.{IsValidBasin, IsSeriesOf};
ghost use Rattle.reports.specs.Ends.{Reports};
ghost use Rattle.reports.specs.Reports.{trial_text};
ghost use Rattle.reports.specs.Tallies.{IsKeptOfRun, IsTrial};
ghost use Rattle.reports.specs.declared.stop.ReportStop.TheVariants.{SinkFailed, OutOfMemory};
ghost use Rattle.month_fold.specs.Works.{SolvesRun};

use crate::called::Trial;
use crate::months::kept_of;
use crate::stop::ReportStop;
use crate::texts::put_summary;
use month_fold::work::Work;
use std::alloc::Global;
use std::sync::ledger::Ledger;
use water_edge::Sink;
use water_model::types::{Basin, Series};

/// Puts the summary of a run by what is kept of its months.
///
/// SinkFailed comes only where the sink counted a fault, and a prefix of the text stands. OutOfMemory never comes.
fn put_trial<K: Sink>(
    number: u32,
    size: u32,
    basin: &Basin,
    series: &Series,
    sink: &mut K,
    trial: &Trial,
) -> Result<(), ReportStop>
    requires basin { IsValidBasin basin.now }
    requires series { IsSeriesOf basin.now series.now }
    requires trial { IsKeptOfRun IsTrial basin.now series.now trial.now }
    ensures text { Reports (λ records. trial_text number size basin.now series.now records) basin.now series.now result
        (K.output sink.old) (K.output sink.new) }
    ensures cause { HasCause (K.faults sink.old) (K.faults sink.new) (result ≡ Err SinkFailed) }
    ensures memory { result ≢ Err OutOfMemory }
{
    match put_summary(sink, number, size, basin, trial) {
        Ok(()) => Ok(()),
        Err(_) => Err(ReportStop::SinkFailed),
    }
}

/// Runs all months of a basin that was made from a number and a size, and then puts the summary of the run.
///
/// It takes memory before the first month is solved, and none after that. OutOfMemory comes where that is lacking, and
/// nothing was solved or put then; SinkFailed comes only where the sink counted a fault, and a prefix of the text
/// stands.
pub fn trial_report<K: Sink, P: Ledger, M: Ledger>(
    alloc: Global,
    number: u32,
    size: u32,
    basin: &Basin,
    series: &Series,
    sink: &mut K,
    work: &mut Work<P, M>,
) -> Result<(), ReportStop>
    requires basin { IsValidBasin basin.now }
    requires series { IsSeriesOf basin.now series.now }
    ensures text { Reports (λ records. trial_text number size basin.now series.now records) basin.now series.now result
        (K.output sink.old) (K.output sink.new) }
    ensures cause { HasCause (K.faults sink.old) (K.faults sink.new) (result ≡ Err SinkFailed) }
    ensures stays { result ≡ Err OutOfMemory → sink.new ≡ sink.old }
    ensures unsolved { result ≡ Err OutOfMemory → work.new ≡ work.old }
    ensures work { SolvesRun basin.now work.old work.new }
{
    let (trial, run) = kept_of::<Trial, P, M>(alloc, basin, series, work)?;
    drop(run);
    let put = put_trial(number, size, basin, series, sink, &trial);
    drop(trial);
    put
}
