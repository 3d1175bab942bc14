//! What is done in the three parts of a tree's room: the nodes that are freed, those that are labeled again, and the
//! ways that are found.
ghost use Rattle.std.specs.Prelude.{◌≡◌, ℕ, ◌+◌, ◌*◌, ◌<◌, ◌≤◌, length, replicate, slice_index};
ghost use Rattle.circulation.specs.Contents.{arcs, step_of, IsCirculation};
ghost use Rattle.circulation.specs.Residual.{arc_of};
ghost use Rattle.residual_tree.specs.Tree.{label_of, IsLabeled, IsResidualTree};
ghost use Rattle.residual_tree.specs.Repair.{IsSaturatedTree, HasArtificialStep};

use crate::freeing::{adopt_or_free, free_below};
use crate::growing::{grow, grow_out, label_over};
use crate::labels::Labels;
use circulation::CirculationMut;

/// Grows the tree from the outside alone.
pub fn grow_all(circ: &CirculationMut<'_>, order: &[u32], room: &mut [u64], labels: &mut Labels<'_>)
    requires order { (i : ℕ) → i < length order.now → slice_index order.now i < circ.now.nodes }
    requires room { length room.old ≡ 3 * circ.now.nodes }
    requires bare { labels.old ≡ replicate (circ.now.nodes + 1) 0 }
    requires kept { IsCirculation circ.now }
    ensures { IsResidualTree circ.now labels.new }
{
    let nodes = circ.nodes() as usize;
    let (queue, depth) = room.split_at_mut(nodes);
    grow_out(circ, order, labels, queue, depth);
}

/// Repairs the tree after the steps in `count` scratch words from word `first` on may have lost their room.
pub fn regrow(
    circ: &CirculationMut<'_>,
    room: &mut [u64],
    labels: &mut Labels<'_>,
    first: usize,
    count: usize,
)
    requires room { length room.old ≡ 3 * circ.now.nodes }
    requires fits { first + count ≤ 4 * circ.now.nodes + 8 }
    requires arcs { (i : ℕ) → first ≤ i → i < first + count → arc_of (step_of circ.now i) < arcs circ.now }
    requires saturated { IsSaturatedTree circ.now labels.old first (first + count) }
    requires kept { IsCirculation circ.now }
    ensures { IsResidualTree circ.now labels.new }
{
    let nodes = circ.nodes() as usize;
    let (freed, rest) = room.split_at_mut(nodes);
    let (queue, found) = rest.split_at_mut(nodes);
    let loose = adopt_or_free(circ, labels, freed, first, first + count);
    if loose == 0 {
        return;
    }
    let free = free_below(circ, labels, freed, loose);
    grow(circ, labels, queue, freed, free, found);
}

/// Labels the unlabeled tail of an exit back over the exit, and all nodes to which steps with room lead from there.
pub fn label_back(circ: &CirculationMut<'_>, room: &mut [u64], labels: &mut Labels<'_>, exit: u32)
    requires room { length room.old ≡ 3 * circ.now.nodes }
    requires exit { exit < arcs circ.now }
    requires out { slice_index circ.now.to exit ≡ circ.now.nodes }
    requires unlabeled { label_of labels.old (slice_index circ.now.from exit) ≡ 0 }
    requires tree { IsResidualTree circ.now labels.old }
    requires kept { IsCirculation circ.now }
    ensures tree { HasArtificialStep circ.now labels.new (2 * exit + 1) }
    ensures head { IsLabeled labels.new (slice_index circ.now.from exit) }
{
    let nodes = circ.nodes() as usize;
    let (_freed, rest) = room.split_at_mut(nodes);
    let (queue, _found) = rest.split_at_mut(nodes);
    label_over(circ, labels, queue, exit);
}
