//! All traces of a record, and their text.
ghost use Rattle.std.specs.Prelude.{◌≡◌, ◌*◌, Err, IfOk};
ghost use Rattle.water_edge.specs.Edge.{HasCause};
ghost use Rattle.water_model.specs.Valid.{IsValidBasin, IsSeriesOf};
ghost use Rattle.index_seq.specs.Ends.{HaveLines, WritesTraces};
ghost use Rattle.index_seq.specs.Sums.{HaveSums};
ghost use Rattle.index_seq.specs.Traces.{HasWholeYears, years_of};
ghost use Rattle.index_seq.specs.declared.stop.EnsembleStop.TheVariants.{SinkFailed, OutOfMemory};
ghost use Rattle.month_fold.specs.Works.{Solves};

use crate::months::{EnsembleState, run_traces};
use crate::stop::EnsembleStop;
use crate::sums::sort_sums;
use crate::writer::put_ensemble;
use month_fold::engine::Engine;
use month_fold::work::Work;
use std::alloc::{AllocError, Global};
use std::sync::ledger::Ledger;
use water_edge::Sink;
use water_model::rows::Rows;
use water_model::types::{Basin, Series};

/// Puts the sums of all traces in order, right by right.
fn put_in_order(basin: &Basin, series: &Series, sums: &mut [Rows<u64>])
    requires { HaveSums basin.now series.now (years_of basin.now) sums.old }
    ensures { HaveLines basin.now series.now sums.new }
{
    sort_sums(sums);
}

/// What each right was delivered in the years of all traces, in order, and the engine that ran them. AllocError comes
/// where memory is lacking.
fn sorted_amounts<'b, P: Ledger, M: Ledger>(
    alloc: Global,
    basin: &'b Basin,
    series: &Series,
    work: &mut Work<P, M>,
) -> Result<EnsembleState<'b>, AllocError>
    requires basin { IsValidBasin basin.now }
    requires whole { HasWholeYears basin.now }
    requires series { IsSeriesOf basin.now series.now }
    ensures engine { IfOk result (λ all. all.engine.basin ≡ basin.now) }
    ensures lines { IfOk result (λ all. HaveLines basin.now series.now all.amounts) }
    ensures work { Solves (years_of basin.now * basin.now.months) basin.now work.old work.new }
{
    let mut engine = Engine::open(alloc, basin)?;
    engine.leave_flows();
    let mut all = run_traces(alloc, basin, series, engine, work)?;
    put_in_order(basin, series, all.amounts.as_mut_slice());
    Ok(all)
}

/// Puts how often each amount came.
///
/// Each line is one `put`. SinkFailed comes only where the sink counted a fault, and a prefix of the text stands; no
/// other error comes.
fn put_amounts<'b, K: Sink>(
    sink: &mut K,
    basin: &Basin,
    series: &Series,
    all: &EnsembleState<'b>,
) -> Result<(), EnsembleStop>
    requires basin { IsValidBasin basin.now }
    requires engine { all.now.engine.basin ≡ basin.now }
    requires lines { HaveLines basin.now series.now all.now.amounts }
    ensures text { WritesTraces basin.now series.now result (K.output sink.old) (K.output sink.new) }
    ensures cause { HasCause (K.faults sink.old) (K.faults sink.new) (result ≡ Err SinkFailed) }
    ensures stays { result ≡ Err OutOfMemory → sink.new ≡ sink.old }
{
    match put_ensemble(sink, basin, all.engine.roll(), all.amounts.as_slice()) {
        Ok(()) => Ok(()),
        Err(_) => Err(EnsembleStop::SinkFailed),
    }
}

/// Runs the record of a basin's gauges once from each of its years, and then puts how often each yearly delivery of
/// each right came. Nothing is put before all traces are run.
///
/// A run and the yearly deliveries of all traces take memory. OutOfMemory comes where that is lacking, and nothing was
/// put then; SinkFailed comes only where the sink counted a fault, and a prefix of the text stands.
pub fn ensemble_report<K: Sink, P: Ledger, M: Ledger>(
    alloc: Global,
    basin: &Basin,
    series: &Series,
    sink: &mut K,
    work: &mut Work<P, M>,
) -> Result<(), EnsembleStop>
    requires basin { IsValidBasin basin.now }
    requires whole { HasWholeYears basin.now }
    requires series { IsSeriesOf basin.now series.now }
    ensures text { WritesTraces basin.now series.now result (K.output sink.old) (K.output sink.new) }
    ensures cause { HasCause (K.faults sink.old) (K.faults sink.new) (result ≡ Err SinkFailed) }
    ensures stays { result ≡ Err OutOfMemory → sink.new ≡ sink.old }
    ensures work { Solves (years_of basin.now * basin.now.months) basin.now work.old work.new }
{
    let all = sorted_amounts(alloc, basin, series, work)?;
    let put = put_amounts(sink, basin, series, &all);
    drop(all);
    put
}
