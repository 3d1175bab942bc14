//! A search for the nodes from which a node is reached.
ghost use Rattle.std.specs.Prelude.{◌≡◌, ◌<◌, Some, length};
ghost use Rattle.water_model.specs.Valid.{IsValidBasin};
ghost use Rattle.plan_residual.specs.Queue.{IsQueueIn};
ghost use Rattle.plan_residual.specs.Core.{node_of, AreUpstream};

use crate::scene::Scene;
use crate::spread::spread_on;
use crate::steps::Direction;
use crate::visits::Queue;
use water_model::types::{Basin, RightKind};

/// A right's node: where it takes, or the tail of the link that it is on.
pub fn node_of(basin: &Basin, right: u32) -> u32
    requires basin { IsValidBasin basin.now }
    requires right { right < length basin.now.rights }
    ensures value { node_of basin.now right ≡ Some result }
    ensures within { result < length basin.now.nodes }
{
    match basin.rights[right as usize].kind {
        RightKind::Diversion { node } => node,
        RightKind::Instream { link } => basin.links[link as usize].from,
        RightKind::Zone { reservoir, .. } => basin.reservoirs[reservoir as usize].node,
    }
}

/// Sees every node from which a node is reached, and no other. What was seen before is forgotten.
pub fn find_upstream(scene: &Scene, right: u32, node: u32, queue: &mut Queue)
    requires right { right < length scene.now.basin.rights }
    requires node { node < length scene.now.basin.nodes }
    requires queue { IsQueueIn scene.now.basin queue.old }
    ensures upstream { AreUpstream scene.now.basin scene.now.month right node queue.new.seen }
    ensures queue { IsQueueIn scene.now.basin queue.new }
{
    queue.forget(0);
    queue.visit(node);
    spread_on(scene, right, Direction::ToRight, queue, 0);
}
