//! What a run goes on from: what is stored, on its way and used after some months.
ghost use Rattle.std.specs.Prelude.{ℕ, List, ◌≡◌, ◌<◌, ◌≤◌, ◌^◌, ◌++◌, ◌∷◌, [], All, length, map, slice_index};
ghost use Rattle.lag_returns.specs.Lags.{return_rows};
ghost use Rattle.lag_returns.specs.Lags as lag;
ghost use Rattle.water_model.specs.History.{opening_after};
ghost use Rattle.water_model.specs.Valid.{IsValidBasin};
ghost use Rattle.month_terms.specs.Terms.{HasUsed};
ghost use Rattle.month_fold.specs.Uses.{HasDeliveries, StateUse};

use crate::next::use_volumes;
use lag_returns::Lags;
use month_terms::opening::write_openings;
use water_model::rows::Rows;
use water_model::types::{Basin, MonthRecord};

/// Writes what each reservoir holds when the month after these opens into a record, as its closing. All else stays.
pub fn store_after(basin: &Basin, months: &[Box<MonthRecord>], month: &mut MonthRecord)
    requires room { length month.old.closing ≡ length basin.now.reservoirs }
    requires stored { length (opening_after basin.now (map (λ m. m.value) months.now)) ≡ length basin.now.reservoirs }
    ensures { month.new ≡ record month.old {
      closing = opening_after basin.now (map (λ m. m.value) months.now);
    } }
{
    match months.last() {
        Some(last) => month
            .closing
            .as_mut_slice()
            .copy_from_slice(last.closing.as_slice()),
        None => write_openings(basin, month.closing.as_mut_slice()),
    }
}

/// Makes what is in transit back to the river what it is after these months, whatever it was before. The cost is linear
/// in the return rows times the months.
pub fn replay_returns(basin: &Basin, months: &[Box<MonthRecord>], lags: &mut Lags)
    requires basin { IsValidBasin basin.now }
    requires deliveries { All (λ m. HasDeliveries basin.now m.value) months.now }
    requires rows { return_rows lags.old ≡ basin.now.returns }
    ensures { lag.LagsStandFor lags.new basin.now.returns (map (λ m. m.delivered) (map (λ m. m.value) months.now)) }
{
    lags.clear();
    for month in months {
        lags.month_done(month.delivered.as_slice());
    }
}

/// Writes what each right with a volume used of it before the month after this one.
fn use_last(basin: &Basin, month: &MonthRecord, used: &mut Rows<u64>)
    requires basin { IsValidBasin basin.now }
    requires index { month.now.index < basin.now.months }
    requires deliveries { HasDeliveries basin.now month.now }
    requires before { length month.now.used ≡ length basin.now.rights }
    requires little { (r : ℕ) → r < length basin.now.rights → slice_index month.now.used r ≤ 10 ^ 15 }
    requires room { length used.old ≡ length basin.now.rights }
    ensures { (deliveries : List (List ℕ)) → length deliveries ≡ month.now.index →
        HasUsed basin.now deliveries month.now.used →
        HasUsed basin.now (deliveries ++ month.now.delivered ∷ []) used.new }
{
    used.as_mut_slice().copy_from_slice(month.used.as_slice());
    use_volumes(basin, month.index, month, used);
}

/// Writes what each right with a volume used of it before the month after these, in that month's water year. The last
/// month says what was used before it, so the cost is linear in the rights alone.
pub fn use_after(basin: &Basin, months: &[Box<MonthRecord>], used: &mut Rows<u64>)
    requires basin { IsValidBasin basin.now }
    requires stated { StateUse basin.now (map (λ m. m.value) months.now) }
    requires room { length used.old ≡ length basin.now.rights }
    ensures { HasUsed basin.now (map (λ m. m.delivered) (map (λ m. m.value) months.now)) used.new }
{
    match months.last() {
        Some(month) => use_last(basin, month, used),
        None => used.as_mut_slice().fill(0),
    }
}
