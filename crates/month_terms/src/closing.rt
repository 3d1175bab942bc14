//! What reservoirs hold when a month closes.
ghost use Rattle.std.specs.Prelude.{ℕ, ◌≡◌, ◌<◌, ◌≤◌, ◌^◌, length, slice_index};
ghost use Rattle.finite_sums.specs.Sums.{total_where};
ghost use Rattle.water_model.specs.History.{is_zone_of};
ghost use Rattle.water_model.specs.Valid.{IsValidBasin};

use crate::add::add_at;
use water_model::types::{Basin, RightKind};

/// Writes for each reservoir the sum of what its zones take.
pub fn close_zones(basin: &Basin, take: &[u64], closing: &mut [u64])
    requires basin { IsValidBasin basin.now }
    requires take { length take.now ≡ length basin.now.rights }
    requires small { (r : ℕ) → r < length basin.now.rights → slice_index take.now r ≤ 10 ^ 9 }
    requires closing { length closing.old ≡ length basin.now.reservoirs }
    ensures length { length closing.new ≡ length closing.old }
    ensures each { (v : ℕ) → v < length basin.now.reservoirs → slice_index closing.new v
        ≡ total_where (length basin.now.rights) (λ r. is_zone_of basin.now r v) (λ r. slice_index take.now r) }
{
    closing.fill(0);
    for right in 0..basin.rights.len() {
        if let RightKind::Zone { reservoir, .. } = basin.rights[right].kind {
            add_at(closing, reservoir as usize, take[right]);
        }
    }
}
