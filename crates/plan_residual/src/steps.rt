//! The steps of the residual network.
ghost use Rattle.std.specs.Prelude.{◌≡◌, ◌<◌, length};
ghost use Rattle.water_model.specs.Valid.{IsValidBasin};
ghost use Rattle.plan_residual.specs.Residual.{HasPlan, start_of, end_of, opposite, can_rise, can_fall, has_room};
ghost use Rattle.plan_residual.specs.Rows.{step_count};
ghost use Rattle.plan_residual.specs.Search.{asked};

use crate::scene::Scene;
use cut_cert::{is_on_link, kept_on};
use water_model::calls::carry_of;
use water_model::types::{Basin, MonthRecord};

/// Which way a search goes: from the nodes at which a right could have water without a step, over steps with room, or
/// to the right's own node, against them.
#[derive(Clone, Copy)]
pub enum Direction {
    FromSources,
    ToRight,
}

/// The node that a step leaves.
pub fn start_of(basin: &Basin, step: u32) -> u32
    requires basin { IsValidBasin basin.now }
    requires step { step < step_count basin.now }
    ensures value { result ≡ start_of basin.now step }
    ensures within { result < length basin.now.nodes }
{
    let link = &basin.links[step as usize / 2];
    if step % 2 == 1 { link.to } else { link.from }
}

/// The node that a step enters.
pub fn end_of(basin: &Basin, step: u32) -> u32
    requires basin { IsValidBasin basin.now }
    requires step { step < step_count basin.now }
    ensures value { result ≡ end_of basin.now step }
    ensures within { result < length basin.now.nodes }
{
    let link = &basin.links[step as usize / 2];
    if step % 2 == 1 { link.from } else { link.to }
}

/// The step over the same link the other way.
fn opposite(basin: &Basin, step: u32) -> u32
    requires basin { IsValidBasin basin.now }
    requires step { step < step_count basin.now }
    ensures value { result ≡ opposite step }
    ensures within { result < step_count basin.now }
{
    if step % 2 == 1 { step - 1 } else { step + 1 }
}

/// Whether a link carries less than it can.
pub fn can_rise(basin: &Basin, month: &MonthRecord, link: u32) -> bool
    requires plan { HasPlan basin.now month.now }
    requires link { link < length basin.now.links }
    ensures { result ≡ can_rise basin.now month.now link }
{
    month.plan.flow[link as usize] < carry_of(basin, link, month.month)
}

/// Whether a link, other than the right's own, carries more than is kept on it for the right's seniors.
fn can_fall(scene: &Scene, right: u32, link: u32) -> bool
    requires right { right < length scene.now.basin.rights }
    requires link { link < length scene.now.basin.links }
    ensures { result ≡ can_fall scene.now.basin scene.now.month right link }
{
    let basin = scene.basin;
    let month = scene.month;
    !is_on_link(basin, right, link)
        && kept_on(basin, scene.roll, month.delivered.as_slice(), right, link)
            < month.plan.flow[link as usize]
}

/// Whether a step has room. The cost is that of the instream rights on its link.
pub fn has_room(scene: &Scene, right: u32, step: u32) -> bool
    requires right { right < length scene.now.basin.rights }
    requires step { step < step_count scene.now.basin }
    ensures { result ≡ has_room scene.now.basin scene.now.month right step }
{
    let link = step / 2;
    if step % 2 == 1 {
        can_fall(scene, right, link)
    } else {
        can_rise(scene.basin, scene.month, link)
    }
}

/// Whether a search goes on over a step: whether that has room, or the opposite one where the search goes against them.
pub fn can_follow(scene: &Scene, right: u32, direction: Direction, step: u32) -> bool
    requires right { right < length scene.now.basin.rights }
    requires step { step < step_count scene.now.basin }
    ensures { result ≡ has_room scene.now.basin scene.now.month right (asked direction step) }
{
    match direction {
        Direction::FromSources => has_room(scene, right, step),
        Direction::ToRight => has_room(scene, right, opposite(scene.basin, step)),
    }
}
