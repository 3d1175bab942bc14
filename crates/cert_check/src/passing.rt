//! Rights that a line passes over: each has to be met, or to have its `call`.
ghost use Rattle.std.specs.Prelude.{◌≡◌, ◌<◌, ◌≤◌, false, length, take, is_none};
ghost use Rattle.std.specs.List.{list_any};
ghost use Rattle.result_lines.specs.OfBasin.{IsOfBasin};
ghost use Rattle.water_model.specs.History.{FitsBasin};
ghost use Rattle.water_model.specs.Indices.{seniors_first};
ghost use Rattle.water_model.specs.Valid.{IsValidBasin};
ghost use Rattle.cert_check.specs.Checking as checking;
ghost use Rattle.cert_check.specs.Keeping.{lacks_call};
ghost use Rattle.cert_check.specs.Walks.{IsPassed};

use crate::compare::is_after_calls;
use cut_cert::calls::is_short;
use result_lines::item::Item;
use rights_roll::priority::is_senior_to;
use water_model::types::{Basin, MonthRecord};

/// Whether a right is short and has no set.
fn lacks_call(basin: &Basin, month: &MonthRecord, right: u32) -> bool
    requires basin { IsValidBasin basin.now }
    requires fits { FitsBasin basin.now month.now }
    requires right { right < length basin.now.rights }
    ensures { result ≡ lacks_call month.now right }
{
    is_short(month, right) && month.cuts.words(right).is_none()
}

/// Whether a line stands after where a right's `call` line would stand.
fn passes(basin: &Basin, item: &Item, right: u32) -> bool
    requires item { IsOfBasin basin.now item.now }
    requires right { right < length basin.now.rights }
    ensures { result ≡ checking.passes basin.now item.now right }
{
    match *item {
        Item::Call { right: own } => is_senior_to(basin, right, own),
        _ => is_after_calls(item),
    }
}

/// How many of the rights in the order of seniority a line passes over, from an index on, or none where one of them is
/// short and has no set.
pub fn pass_over(
    basin: &Basin,
    order: &[u32],
    month: &MonthRecord,
    from: usize,
    item: &Item,
) -> Option<usize>
    requires basin { IsValidBasin basin.now }
    requires fits { FitsBasin basin.now month.now }
    requires order { order.now ≡ seniors_first basin.now }
    requires from { from ≤ length order.now }
    requires item { IsOfBasin basin.now item.now }
    requires before { list_any (lacks_call month.now) (take from order.now) ≡ false }
    ensures { IsPassed basin.now month.now item.now result }
{
    for at in from..order.len() {
        if !passes(basin, item, order[at]) {
            return Some(at);
        }
        if lacks_call(basin, month, order[at]) {
            return None;
        }
    }
    Some(order.len())
}
