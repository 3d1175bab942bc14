//! Where one more unit of water would help a short right, and whose it would be.
#![tactic(auto)]

ghost use Rattle.std.specs.Prelude.{◌≡◌, ◌<◌, ◌↔◌, IsTrue, length};
ghost use Rattle.cut_cert.specs.Sets.{HasCut};
ghost use Rattle.water_model.specs.History.{HasReaches, IsShort};
ghost use Rattle.rights_roll.specs.Rolls.{IsRollOf};
ghost use Rattle.plan_residual.specs.Residual.{HasPlan};
ghost use Rattle.plan_residual.specs.Reaches.{HasReach};
ghost use Rattle.plan_residual.specs.Rows.{IsSearchOf};
ghost use Rattle.plan_residual.specs.Core.{IsCore};
ghost use Rattle.next_unit.specs.Core.{HasRoomDown};
ghost use Rattle.next_unit.specs.Helped.{HasRoomForAll};
ghost use Rattle.next_unit.specs.Laws.{CarryHelpsRight};
ghost use Rattle.next_unit.specs.Next.{AreNext};

pub mod helped;
pub mod laws;

use cut_cert::holds;
use plan_residual::ResidualSearch;
use rights_roll::roll::Roll;
use water_model::types::{Basin, MonthRecord};

/// Finds for each node the right whose one more unit of supply there would be, the most senior that it would help, or
/// none. The cost is linear in nodes, links and rights, and no memory is taken.
pub fn find_next(
    search: &mut ResidualSearch,
    basin: &Basin,
    roll: &Roll,
    month: &MonthRecord,
    next: &mut [Option<u32>],
)
    requires search { IsSearchOf basin.now search.old }
    requires plan { HasPlan basin.now month.now }
    requires roll { IsRollOf basin.now.rights roll.now }
    requires reaches { HasReaches basin.now month.now }
    requires room { HasRoomForAll basin.now month.now }
    requires size { length next.old ≡ length basin.now.nodes }
    ensures search { IsSearchOf basin.now search.new }
    ensures next { AreNext basin.now month.now next.new }
{
    search.find_first_cores(basin, roll, month, next);
}

/// Whether one more unit of carry on a link would help a short right whose core this is and whose set is its reach: the
/// link leads from outside the reach into the core.
pub fn carry_helps(basin: &Basin, month: &MonthRecord, right: u32, core: &[bool], link: u32) -> bool
    requires plan { HasPlan basin.now month.now }
    requires right { right < length basin.now.rights }
    requires short { IsShort month.now right }
    requires room { HasRoomDown basin.now month.now right }
    requires core { IsCore basin.now month.now right core.now }
    requires cut { HasCut basin.now month.now.cuts right }
    requires reach { HasReach basin.now month.now right }
    requires link { link < length basin.now.links }
    ensures { IsTrue result ↔ CarryHelpsRight basin.now month.now link right }
{
    let ends = &basin.links[link as usize];
    if holds(&month.cuts, right, ends.from) {
        false
    } else {
        core[ends.to as usize]
    }
}
