//! Whether the set of a right is its reach.
ghost use Rattle.std.specs.Prelude.{◌≡◌, ◌<◌, ◌≤◌, ◌↔◌, IsTrue, length};
ghost use Rattle.cut_cert.specs.Sets.{cut_at, HasCut};
ghost use Rattle.water_model.specs.Cuts.{IsTight};
ghost use Rattle.water_model.specs.History.{IsShort};
ghost use Rattle.plan_residual.specs.Reaches.{HasReach};
ghost use Rattle.plan_residual.specs.Search.{Covers};
ghost use Rattle.plan_residual.specs.Queue.{IsQueueIn};

use crate::scene::Scene;
use crate::sources::{spread_apart, spread_own};
use crate::visits::Queue;
use cut_cert::holds;
use water_model::cut_list::CutList;

/// Whether each node was seen or is in the right's set.
pub fn covers(seen: &[bool], cuts: &CutList, right: u32) -> bool
    requires right { right < length cuts.now.sets }
    requires nodes { length seen.now ≡ cuts.now.nodes }
    requires bounded { length seen.now ≤ 2000 }
    ensures { Covers result seen.now (cut_at cuts.now right) cuts.now.nodes }
{
    for node in 0..seen.len() {
        if !seen[node] && !holds(cuts, right, node as u32) {
            return false;
        }
    }
    true
}

/// Whether the set of a short right, a tight cut of it, is its reach, by a search in this queue.
pub fn search(scene: &Scene, right: u32, queue: &mut Queue) -> bool
    requires queue { IsQueueIn scene.now.basin queue.old }
    requires cut { HasCut scene.now.basin scene.now.month.cuts right }
    requires short { IsShort scene.now.month right }
    requires tight { let m = scene.now.month in
        IsTight scene.now.basin m.month m.supply m.delivered right (cut_at m.cuts right) }
    ensures reach { IsTrue result ↔ HasReach scene.now.basin scene.now.month right }
    ensures queue { IsQueueIn scene.now.basin queue.new }
{
    spread_apart(scene, right, queue);
    spread_own(scene, right, queue);
    covers(queue.seen(), &scene.month.cuts, right)
}
