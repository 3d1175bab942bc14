//! What a line says of the current month.
ghost use Rattle.std.specs.Prelude.{◌≡◌, ◌<◌, length, slice_set, is_some, if◌then◌else◌};
ghost use Rattle.water_model.specs.Basin.{taking_node};
ghost use Rattle.result_lines.specs.Quantities.{amounts_of, with_amounts};
ghost use Rattle.water_model.specs.Valid.{IsValidBasin};

use result_lines::quantity::Quantity;
use water_model::types::{Basin, MonthRecord, RightKind};

/// Writes an amount at an index of a list.
fn put(list: &mut [u64], position: u32, amount: u64)
    requires { position < length list.old }
    ensures { list.new ≡ slice_set list.old position amount }
{
    list[position as usize] = amount;
}

/// Notes an amount of an entry.
pub fn note_amount(month: &mut MonthRecord, quantity: Quantity, entry: u32, amount: u64)
    requires { entry < length (amounts_of quantity month.old) }
    ensures { month.new ≡ with_amounts quantity month.old (slice_set (amounts_of quantity month.old) entry amount) }
{
    match quantity {
        Quantity::Opening => put(month.opening.as_mut_slice(), entry, amount),
        Quantity::Evaporated => put(month.evaporated.as_mut_slice(), entry, amount),
        Quantity::Returned => put(month.returned.as_mut_slice(), entry, amount),
        Quantity::Used => put(month.used.as_mut_slice(), entry, amount),
        Quantity::Flow => put(month.plan.flow.as_mut_slice(), entry, amount),
        Quantity::Outflow => put(month.plan.out.as_mut_slice(), entry, amount),
        Quantity::Closing => put(month.closing.as_mut_slice(), entry, amount),
    }
}

/// What a right takes of what it is delivered: all, or of an instream right nothing.
fn take_of(basin: &Basin, right: u32, amount: u64) -> u64
    requires basin { IsValidBasin basin.now }
    requires right { right < length basin.now.rights }
    ensures { result ≡ (if is_some (taking_node basin.now right) then amount else 0) }
{
    match basin.rights[right as usize].kind {
        RightKind::Instream { .. } => 0,
        RightKind::Diversion { .. } => amount,
        RightKind::Zone { .. } => amount,
    }
}

/// Notes what a right is delivered, and its want.
pub fn note_delivery(basin: &Basin, month: &mut MonthRecord, right: u32, amount: u64, want: u64)
    requires basin { IsValidBasin basin.now }
    requires right { right < length basin.now.rights }
    requires delivered { right < length month.old.delivered }
    requires want { right < length month.old.want }
    requires take { right < length month.old.plan.take }
    ensures { month.new ≡ record month.old {
      delivered = slice_set month.old.delivered right amount;
      want = slice_set month.old.want right want;
      plan = record month.old.plan {
        take = slice_set month.old.plan.take right (if is_some (taking_node basin.now right) then amount else 0);
      };
    } }
{
    let take = take_of(basin, right, amount);
    put(month.delivered.as_mut_slice(), right, amount);
    put(month.want.as_mut_slice(), right, want);
    put(month.plan.take.as_mut_slice(), right, take);
}
