//! A search goes on from the nodes that were seen, in one of two directions.
ghost use Rattle.std.specs.Prelude.{◌≡◌, ◌+◌, ◌<◌, true, length};
ghost use Rattle.water_model.specs.Lookups.{has};
ghost use Rattle.plan_residual.specs.Residual.{start_of};
ghost use Rattle.plan_residual.specs.Rows.{step_count};
ghost use Rattle.plan_residual.specs.Queue.{IsQueueIn};
ghost use Rattle.plan_residual.specs.Search.{IsFollowed, AreFollowed, IsClosedAlong, HasGrown};

use crate::scene::Scene;
use crate::steps::{Direction, can_follow, end_of};
use crate::visits::Queue;

/// Sees the node that a step leads to, if the search goes on over the step.
pub fn follow(scene: &Scene, right: u32, direction: Direction, step: u32, queue: &mut Queue)
    requires right { right < length scene.now.basin.rights }
    requires step { step < step_count scene.now.basin }
    requires queue { IsQueueIn scene.now.basin queue.old }
    requires start { has queue.old.seen (start_of scene.now.basin step) ≡ true }
    ensures grown { HasGrown scene.now.basin scene.now.month right direction queue.old queue.new }
    ensures followed { IsFollowed scene.now.basin scene.now.month right direction queue.new.seen step }
{
    if can_follow(scene, right, direction, step) {
        queue.visit(end_of(scene.basin, step));
    }
}

/// Follows the steps that leave the node at an index of the queue.
fn expand(scene: &Scene, right: u32, direction: Direction, queue: &mut Queue, done: usize)
    requires right { right < length scene.now.basin.rights }
    requires within { done < queue.old.size }
    requires queue { IsQueueIn scene.now.basin queue.old }
    requires followed { AreFollowed scene.now.basin scene.now.month right direction queue.old done }
    ensures grown { HasGrown scene.now.basin scene.now.month right direction queue.old queue.new }
    ensures followed { AreFollowed scene.now.basin scene.now.month right direction queue.new (done + 1) }
{
    let mut at = scene.first(queue.node(done));
    while let Some(step) = at {
        follow(scene, right, direction, step, queue);
        at = scene.next(step);
    }
}

/// Follows the steps that leave the nodes of the queue, from an index on, and so sees what is reached from them, and no
/// other node.
pub fn spread_on(scene: &Scene, right: u32, direction: Direction, queue: &mut Queue, from: usize)
    requires right { right < length scene.now.basin.rights }
    requires queue { IsQueueIn scene.now.basin queue.old }
    requires followed { AreFollowed scene.now.basin scene.now.month right direction queue.old from }
    ensures grown { HasGrown scene.now.basin scene.now.month right direction queue.old queue.new }
    ensures closed { IsClosedAlong scene.now.basin scene.now.month right direction queue.new.seen }
{
    let mut done = from;
    while done < queue.len() {
        expand(scene, right, direction, queue, done);
        done += 1;
    }
}
