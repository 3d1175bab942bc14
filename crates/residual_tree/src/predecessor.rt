//! The predecessor of a node in the tree.
ghost use Rattle.std.specs.Prelude.{◌≡◌, ◌%◌, ◌^◌, ◌<◌, length};
ghost use Rattle.circulation.specs.Contents.{arcs, network, IsCirculation};
ghost use Rattle.circulation.specs.Residual.{arc_of, start_of};
ghost use Rattle.residual_tree.specs.Tree.{predecessor_of};

use crate::labels::{Labels, MOST_NODES};
use circulation::CirculationMut;
use circulation::residual::start;

/// The node from which a labeled node is labeled, its predecessor in the tree; `step` is its step. The node's word has
/// it, so that nothing waits until the step's ends are looked up: that is done only where there are 2^30 basin nodes or
/// more, whose numbers a word may not hold whole.
pub fn predecessor(circ: &CirculationMut<'_>, labels: &Labels<'_>, node: u32, step: u64) -> u32
    requires node { node < length labels.now }
    requires arc { arc_of step < arcs circ.now }
    requires kept_start { predecessor_of labels.now node ≡ start_of (network circ.now) step % 2 ^ 30 }
    requires kept { IsCirculation circ.now }
    ensures { result ≡ start_of (network circ.now) step }
{
    if circ.nodes() < MOST_NODES {
        labels.predecessor(node)
    } else {
        start(circ, step)
    }
}
