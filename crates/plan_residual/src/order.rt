//! The rights in the order of seniority.
ghost use Rattle.std.specs.Prelude.{◌≡◌, ◌<◌, length};
ghost use Rattle.water_model.specs.Valid.{IsValidBasin};
ghost use Rattle.rights_roll.specs.Rolls.{IsRollOf};
ghost use Rattle.plan_residual.specs.Sweep.{right_at};

use rights_roll::roll::Roll;
use water_model::types::Basin;

/// The right at an index of the order of seniority.
pub fn right_at(basin: &Basin, roll: &Roll, position: usize) -> u32
    requires basin { IsValidBasin basin.now }
    requires roll { IsRollOf basin.now.rights roll.now }
    requires position { position < length basin.now.rights }
    ensures value { result ≡ right_at basin.now position }
    ensures within { result < length basin.now.rights }
{
    roll.by_seniority()[position]
}
