//! The first core at each node. Seniors first, each short right claims the nodes from which its own is reached, but for
//! those that a senior claimed: a step that has room as seen from a right has room as seen from each short senior of
//! it, so no search comes to a node that was claimed but by one that was claimed too.
ghost use Rattle.std.specs.Prelude.{◌≡◌, ◌+◌, ◌<◌, ◌≤◌, length};
ghost use Rattle.plan_residual.specs.Queue.{IsQueue, IsQueueIn};
ghost use Rattle.plan_residual.specs.Search.{IsClosedAlong};
ghost use Rattle.plan_residual.specs.Claims.{AreClaimed, AreMarked, IsClaim};
ghost use Rattle.plan_residual.specs.FirstCores.{AreFirstCores};
ghost use Rattle.plan_residual.specs.declared.steps.Direction.TheVariants.{ToRight};

use crate::finding::node_of;
use crate::scene::Scene;
use crate::spread::spread_on;
use crate::steps::Direction;
use crate::visits::Queue;

/// Claims for a right the nodes from which its own is reached.
fn claim(scene: &Scene, right: u32, queue: &mut Queue)
    requires right { right < length scene.now.basin.rights }
    requires queue { IsQueueIn scene.now.basin queue.old }
    requires closed { IsClosedAlong scene.now.basin scene.now.month right ToRight queue.old.seen }
    ensures { IsClaim scene.now.basin scene.now.month right queue.old queue.new }
{
    let before = queue.len();
    queue.visit(node_of(scene.basin, right));
    spread_on(scene, right, Direction::ToRight, queue, before);
}

/// Marks the nodes from an index of the queue on as a right's.
fn mark(queue: &Queue, from: usize, right: u32, firsts: &mut [Option<u32>])
    requires queue { IsQueue queue.now }
    requires from { from ≤ queue.now.size }
    requires nodes { length firsts.old ≡ length queue.now.seen }
    ensures { AreMarked queue.now from queue.now.size right firsts.old firsts.new }
{
    for position in from..queue.len() {
        firsts[queue.node(position) as usize] = Some(right);
    }
}

/// Claims the nodes for the right at an index of the order, if it is short.
fn serve(scene: &Scene, position: usize, queue: &mut Queue, firsts: &mut [Option<u32>])
    requires position { position < length scene.now.basin.rights }
    requires claimed { AreClaimed scene.now.basin scene.now.month position queue.old firsts.old }
    ensures { AreClaimed scene.now.basin scene.now.month (position + 1) queue.new firsts.new }
{
    let right = scene.right_at(position);
    let month = scene.month;
    if month.delivered[right as usize] >= month.want[right as usize] {
        return;
    }
    let before = queue.len();
    claim(scene, right, queue);
    mark(queue, before, right, firsts);
}

/// Finds for each node the most senior short right whose core holds it, or none.
pub fn find_first_cores(scene: &Scene, queue: &mut Queue, firsts: &mut [Option<u32>])
    requires queue { IsQueueIn scene.now.basin queue.old }
    requires firsts { length firsts.old ≡ length scene.now.basin.nodes }
    ensures firsts { AreFirstCores scene.now.basin scene.now.month firsts.new }
    ensures queue { IsQueueIn scene.now.basin queue.new }
{
    queue.clear();
    firsts.fill(None);
    for position in 0..scene.basin.rights.len() {
        serve(scene, position, queue, firsts);
    }
}
