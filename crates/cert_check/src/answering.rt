//! Rights that answer to a caller: each has its `called` line, in the order of seniority.
ghost use Rattle.std.specs.Prelude.{◌≤◌, length};
ghost use Rattle.cut_cert.specs.Callers.{AreCallers};
ghost use Rattle.rights_roll.specs.Rolls.{IsRollOf};
ghost use Rattle.water_model.specs.History.{FitsBasin};
ghost use Rattle.water_model.specs.Valid.{IsValidBasin};
ghost use Rattle.cert_check.specs.Walks.{IsDueFrom};

use cut_cert::calls::calling_right;
use rights_roll::roll::Roll;
use water_model::types::{Basin, MonthRecord};

/// A right that answers to a caller, and its index in the order of seniority.
#[derive(Clone, Copy)]
pub struct Due {
    pub position: usize,
    pub right: u32,
    pub caller: u32,
}

/// The first right in the order of seniority that answers to a caller, from an index on. `callers` has the first caller
/// of each node.
pub fn next_due(
    basin: &Basin,
    roll: &Roll,
    callers: &[Option<u32>],
    month: &MonthRecord,
    from: usize,
) -> Option<Due>
    requires basin { IsValidBasin basin.now }
    requires roll { IsRollOf basin.now.rights roll.now }
    requires callers { AreCallers basin.now month.now callers.now }
    requires fits { FitsBasin basin.now month.now }
    requires from { from ≤ length basin.now.rights }
    ensures { IsDueFrom basin.now month.now from result }
{
    let order = roll.by_seniority();
    for position in from..order.len() {
        let right = order[position];
        if let Some(caller) = calling_right(basin, callers, month, right) {
            return Some(Due {
                position,
                right,
                caller,
            });
        }
    }
    None
}
