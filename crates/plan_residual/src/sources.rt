//! The nodes that are reached as seen from a right: what a search sees from those at which the right could have water
//! without a step.
ghost use Rattle.std.specs.Prelude.{◌≡◌, ◌<◌, true, length, slice_index};
ghost use Rattle.water_model.specs.Basin.{is_senior};
ghost use Rattle.water_model.specs.Cuts.{takes_within};
ghost use Rattle.water_model.specs.Lookups.{has};
ghost use Rattle.plan_residual.specs.Residual.{AreReached};
ghost use Rattle.plan_residual.specs.Queue.{Extends, IsQueueIn};
ghost use Rattle.plan_residual.specs.Search.{AreReachedApart, HasJuniors, HasOutlets};
ghost use Rattle.plan_residual.specs.Search.{IsOwnVisit, IsReaching, ReachesOn};

use crate::scene::Scene;
use crate::spread::spread_on;
use crate::steps::Direction;
use crate::visits::Queue;
use rights_roll::priority::is_senior_to;
use water_model::calls::taking_node;
use water_model::types::RightKind;

/// Sees a node if water is let out there.
fn see_outlet(scene: &Scene, right: u32, node: u32, queue: &mut Queue)
    requires node { node < length scene.now.basin.nodes }
    requires reaching { IsReaching scene.now.basin scene.now.month right queue.old }
    ensures on { ReachesOn scene.now.basin scene.now.month right queue.old queue.new }
    ensures seen { 0 < slice_index scene.now.month.plan.out node → has queue.new.seen node ≡ true }
{
    if scene.month.plan.out[node as usize] > 0 {
        queue.visit(node);
    }
}

/// Sees the nodes at which water is let out.
fn see_outlets(scene: &Scene, right: u32, queue: &mut Queue)
    requires reaching { IsReaching scene.now.basin scene.now.month right queue.old }
    ensures on { ReachesOn scene.now.basin scene.now.month right queue.old queue.new }
    ensures outlets { HasOutlets scene.now.month (length scene.now.basin.nodes) queue.new.seen }
{
    for node in 0..scene.basin.nodes.len() as u32 {
        see_outlet(scene, right, node, queue);
    }
}

/// Sees the node at which a right takes water, if it takes some and is junior to the other.
pub fn see_junior(scene: &Scene, right: u32, junior: u32, queue: &mut Queue)
    requires right { right < length scene.now.basin.rights }
    requires junior { junior < length scene.now.basin.rights }
    requires reaching { IsReaching scene.now.basin scene.now.month right queue.old }
    ensures on { ReachesOn scene.now.basin scene.now.month right queue.old queue.new }
    ensures seen { is_senior scene.now.basin right junior ≡ true →
        0 < slice_index scene.now.month.plan.take junior →
        takes_within scene.now.basin queue.new.seen junior ≡ true }
{
    let basin = scene.basin;
    let month = scene.month;
    if month.plan.take[junior as usize] > 0 && is_senior_to(basin, right, junior) {
        if let Some(node) = taking_node(basin, junior) {
            queue.visit(node);
        }
    }
}

/// Sees the nodes at which juniors of the right take water.
fn see_juniors(scene: &Scene, right: u32, queue: &mut Queue)
    requires right { right < length scene.now.basin.rights }
    requires reaching { IsReaching scene.now.basin scene.now.month right queue.old }
    ensures on { ReachesOn scene.now.basin scene.now.month right queue.old queue.new }
    ensures juniors { let b = scene.now.basin in
        HasJuniors b scene.now.month right (length b.rights) queue.new.seen }
{
    for junior in 0..scene.basin.rights.len() as u32 {
        see_junior(scene, right, junior, queue);
    }
}

/// Sees the nodes that are reached, but for those only from the end of the right's own link.
pub fn spread_apart(scene: &Scene, right: u32, queue: &mut Queue)
    requires right { right < length scene.now.basin.rights }
    requires queue { IsQueueIn scene.now.basin queue.old }
    ensures queue { IsQueueIn scene.now.basin queue.new }
    ensures reached { AreReachedApart scene.now.basin scene.now.month right queue.new.seen }
{
    queue.clear();
    see_outlets(scene, right, queue);
    see_juniors(scene, right, queue);
    spread_on(scene, right, Direction::FromSources, queue, 0);
}

/// Sees the node at which an instream right's link ends.
fn see_own(scene: &Scene, right: u32, queue: &mut Queue)
    requires right { right < length scene.now.basin.rights }
    requires queue { IsQueueIn scene.now.basin queue.old }
    ensures { IsOwnVisit scene.now.basin right queue.old queue.new }
{
    let basin = scene.basin;
    match basin.rights[right as usize].kind {
        RightKind::Instream { link } => queue.visit(basin.links[link as usize].to),
        RightKind::Diversion { .. } => {}
        RightKind::Zone { .. } => {}
    }
}

/// Goes on to every node that is reached.
pub fn spread_own(scene: &Scene, right: u32, queue: &mut Queue)
    requires right { right < length scene.now.basin.rights }
    requires queue { IsQueueIn scene.now.basin queue.old }
    requires reached { AreReachedApart scene.now.basin scene.now.month right queue.old.seen }
    ensures queue { IsQueueIn scene.now.basin queue.new }
    ensures extends { Extends queue.old queue.new }
    ensures reached { AreReached scene.now.basin scene.now.month right queue.new.seen }
{
    let before = queue.len();
    see_own(scene, right, queue);
    spread_on(scene, right, Direction::FromSources, queue, before);
}
