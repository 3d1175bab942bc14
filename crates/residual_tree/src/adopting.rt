//! A node whose step lost its room is adopted over another step, where one is near. Such a step has room, and comes
//! from a node to which the tree leads from the outside by few steps and not through the node itself. So what is below
//! the node stays in the tree.
//!
//! That is the adoption of orphans of Boykov and Kolmogorov (2004), with a search that is short.
ghost use Rattle.std.specs.Prelude.{◌≡◌, true, ℕ, ◌+◌, ◌-◌, ◌<◌, ◌≤◌, length};
ghost use Rattle.circulation.specs.Contents.{network, IsCirculation};
ghost use Rattle.circulation.specs.Residual.{start_of};
ghost use Rattle.residual_tree.specs.Repair.{IsWayIn};
ghost use Rattle.residual_tree.specs.Adopting.{HasSteps, IsClear};

use crate::growing::is_way_back;
use crate::labels::Labels;
use crate::predecessor::predecessor;
use circulation::CirculationMut;
use circulation::residual::opposite;

/// The most steps by which the tree leads from the outside to a node that is near. With fewer, more is freed; with
/// twice as many, as much.
const NEAR: u32 = 8;

/// Whether the tree leads from the outside to a node by few steps, none of which leaves or enters the node `other`.
fn is_near(circ: &CirculationMut<'_>, labels: &Labels<'_>, node: u32, other: u32) -> bool
    requires node { node ≤ circ.now.nodes }
    requires other { other < circ.now.nodes }
    requires words { length labels.now ≡ circ.now.nodes + 1 }
    requires steps { HasSteps circ.now labels.now }
    requires kept { IsCirculation circ.now }
    ensures { result ≡ true → IsClear circ.now labels.now other node }
{
    let outside = circ.nodes();
    let mut at = node;
    for _steps in 0..NEAR {
        if at == outside {
            return true;
        }
        let word = labels.get(at);
        if word == 0 {
            return false;
        }
        if at == other {
            return false;
        }
        at = predecessor(circ, labels, at, word - 1);
    }
    at == outside
}

/// One more than a step from a near node over which a node may be adopted, or 0 where there is none. No clause says
/// that it is 0 only there: a node that isn't adopted is freed, and no answer depends on it.
pub fn find_near(circ: &CirculationMut<'_>, labels: &Labels<'_>, node: u32) -> u64
    requires node { node < circ.now.nodes }
    requires words { length labels.now ≡ circ.now.nodes + 1 }
    requires steps { HasSteps circ.now labels.now }
    requires kept { IsCirculation circ.now }
    ensures { (s : ℕ) → result ≡ s + 1 →
        IsWayIn circ.now labels.now node s × IsClear circ.now labels.now node (start_of (network circ.now) s) }
{
    for place in circ.row_first(node)..circ.row_last(node) {
        let step = circ.step_at(place);
        let end = circ.end_at(place);
        if is_way_back(circ, labels, step, end) {
            if is_near(circ, labels, end, node) {
                return opposite(circ, step) + 1;
            }
        }
    }
    0
}
