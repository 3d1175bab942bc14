//! What rights with a volume used of it in a water year.
ghost use Rattle.std.specs.Prelude.{ℕ, List, ◌≡◌, ◌+◌, ◌<◌, ◌^◌, ◌++◌, ◌∷◌, [], length, slice_index, is_some};
ghost use Rattle.std.specs.Prelude.{if◌then◌else◌};
ghost use Rattle.water_model.specs.Hydrology.{volume_of};
ghost use Rattle.water_model.specs.Valid.{IsValidBasin};
ghost use Rattle.month_terms.specs.Terms.{HasUsed};

use water_model::calls::begins_year;
use water_model::types::Basin;

/// Adds what a month delivered to each right with a volume.
fn add_deliveries(basin: &Basin, delivered: &[u64], used: &mut [u64])
    requires delivered { length delivered.now ≡ length basin.now.rights }
    requires used { length used.old ≡ length basin.now.rights }
    requires small { (r : ℕ) → r < length basin.now.rights →
        slice_index used.old r + slice_index delivered.now r < 2 ^ 64 }
    ensures length { length used.new ≡ length used.old }
    ensures each { (r : ℕ) → r < length basin.now.rights → slice_index used.new r
        ≡ slice_index used.old r + (if is_some (volume_of basin.now r) then slice_index delivered.now r else 0) }
{
    for right in 0..basin.rights.len() {
        if basin.rights[right].volume.is_some() {
            used[right] += delivered[right];
        }
    }
}

/// Goes on to the month after the one with this index, in which this was delivered. For each right with a volume,
/// `used` has what it used in the month's water year before the month, in units of 1,000 cubic metres: first for the
/// month with this index, and then for the month after it. A new water year gives all volumes back. For other rights it
/// stays 0.
pub fn use_month(basin: &Basin, index: u32, delivered: &[u64], used: &mut [u64])
    requires basin { IsValidBasin basin.now }
    requires index { index < basin.now.months }
    requires delivered { length delivered.now ≡ length basin.now.rights }
    requires used { length used.old ≡ length basin.now.rights }
    requires small { (r : ℕ) → r < length basin.now.rights →
        slice_index used.old r + slice_index delivered.now r < 2 ^ 64 }
    ensures length { length used.new ≡ length used.old }
    ensures each { (deliveries : List (List ℕ)) → length deliveries ≡ index → HasUsed basin.now deliveries used.old →
        HasUsed basin.now (deliveries ++ delivered.now ∷ []) used.new }
{
    if begins_year(basin, index + 1) {
        used.fill(0);
    } else {
        add_deliveries(basin, delivered, used);
    }
}
