//! The series begun in another of its years.
ghost use Rattle.std.specs.Prelude.{◌≡◌, ◌<◌, ◌≤◌, ◌++◌, drop, take, length, IfOk};
ghost use Rattle.water_model.specs.Valid.{IsValidBasin, IsSeriesOf};
ghost use Rattle.index_seq.specs.Traces.{HasWholeYears, years_of, begun_after, IsBegunAfter, IsRotationOf};

use std::alloc::{AllocError, Global};
use water_model::types::{Basin, Series};

/// Writes the amounts from an index on, and then those before it.
fn rotate_one(amounts: &[u64], at: usize, into: &mut [u64])
    requires at { at ≤ length amounts.now }
    requires room { length into.old ≡ length amounts.now }
    ensures { into.new ≡ drop at amounts.now ++ take at amounts.now }
{
    let (prefix, back) = into.split_at_mut(amounts.len() - at);
    prefix.copy_from_slice(&amounts[at..]);
    back.copy_from_slice(&amounts[..at]);
}

/// Writes into `begun` the series whose gauges' record begins `years` years later and is wrapped round at its end.
/// `begun` differs from the series only in what the gauges measured, as it did before.
pub fn rotate_series(basin: &Basin, series: &Series, years: u32, begun: &mut Series)
    requires basin { IsValidBasin basin.now }
    requires whole { HasWholeYears basin.now }
    requires series { IsSeriesOf basin.now series.now }
    requires years { years < years_of basin.now }
    requires begun { IsRotationOf series.now begun.old }
    ensures value { begun.new ≡ begun_after series.now years }
    ensures begun { IsRotationOf series.now begun.new }
{
    let at = 12 * years as usize * series.gauged.len();
    rotate_one(series.amount.as_slice(), at, begun.amount.as_mut_slice());
}

/// The series whose gauges' record begins `years` years later and is wrapped round at its end. The wants stay.
/// AllocError comes where memory is lacking.
pub fn rotate(
    alloc: Global,
    basin: &Basin,
    series: &Series,
    years: u32,
) -> Result<Series, AllocError>
    requires basin { IsValidBasin basin.now }
    requires whole { HasWholeYears basin.now }
    requires series { IsSeriesOf basin.now series.now }
    requires years { years < years_of basin.now }
    ensures value { IfOk result (λ begun. begun ≡ begun_after series.now years) }
    ensures inflows { IfOk result (IsBegunAfter basin.now series.now years) }
    ensures series { IfOk result (IsSeriesOf basin.now) }
{
    let mut begun = series.copy(alloc)?;
    rotate_series(basin, series, years, &mut begun);
    Ok(begun)
}
