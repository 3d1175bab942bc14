//! The closed walk along which a raise pushes.
ghost use Rattle.std.specs.Prelude.{◌≡◌, ◌≢◌, ◌+◌, ◌*◌, ◌<◌, ◌≤◌, min, slice_index};
ghost use Rattle.circulation.specs.Contents.{arcs, flow_of, network, IsCirculation};
ghost use Rattle.circulation.specs.Residual.{arc_of, room_of};
ghost use Rattle.residual_tree.specs.Tree.{IsLabeled};
ghost use Rattle.residual_tree.specs.Repair.{HasSomeArtificial};
ghost use Rattle.residual_tree.specs.Raised.{IsExit, IsFull, IsGathered, IsTaken, IsTraced};

use crate::ResidualTree;
use crate::predecessor::predecessor;
use circulation::CirculationMut;
use circulation::residual::room;

/// Where a walk begins in the scratch words, which it fills to their end, how much it can carry, and how many scratch
/// words from the first on name the steps of it that have no room after a push of that amount.
#[derive(Clone, Copy)]
pub struct Walk {
    pub first: usize,
    pub amount: u64,
    pub full: usize,
}

/// Takes a step into a walk, before its others.
fn take_step(circ: &mut CirculationMut<'_>, walk: Walk, step: u64) -> Walk
    requires arc { arc_of step < arcs circ.old }
    requires apart { walk.full + 1 < walk.first }
    requires gathered { IsGathered circ.old walk.first walk.full walk.amount }
    requires kept { IsCirculation circ.old }
    ensures kept { IsCirculation circ.new }
    ensures taken { IsTaken circ.old circ.new walk.first result.first step }
    ensures amount { result.amount ≡ min walk.amount (room_of (network circ.old) (flow_of circ.old) step) }
    ensures gathered { IsGathered circ.new result.first result.full result.amount }
{
    let left = room(circ, step);
    let first = walk.first - 1;
    circ.scratch_set(first, step);
    // Written in any case, where it does no harm: whether a step has the least room is no jump that could be guessed
    // wrong.
    let from = if left < walk.amount { 0 } else { walk.full };
    circ.scratch_set(from, step);
    Walk {
        first,
        amount: walk.amount.min(left),
        full: from + usize::from(left <= walk.amount),
    }
}

/// Writes the closed walk that goes over the arc, then from its head over the exit to the outside, and then along the
/// tree to its tail. Where the tree leads to the tail through the head, the walk follows the tree from the head
/// instead. It carries the least of its rooms, and at most `most`.
pub fn trace(
    circ: &mut CirculationMut<'_>,
    tree: &ResidualTree<'_>,
    arc: u32,
    exit: u32,
    most: u64,
) -> Walk
    requires arc { arc < arcs circ.old }
    requires positive { 0 < most }
    requires most { flow_of circ.old arc + most ≤ slice_index circ.old.upper arc }
    requires held { flow_of circ.old arc ≡ slice_index circ.old.lower arc }
    requires exit { IsExit circ.old arc exit }
    requires tree { HasSomeArtificial circ.old tree.now arc }
    requires labeled { IsLabeled tree.now (slice_index circ.old.from arc) }
    requires kept { IsCirculation circ.old }
    ensures kept { IsCirculation circ.new }
    ensures traced { IsTraced circ.old circ.new tree.now arc most result.first result.amount result.full }
    ensures blocked { result.amount ≡ 0 → (slice_index circ.old.to arc ≢ circ.old.nodes) × IsFull circ.old exit }
{
    let nodes = circ.nodes();
    let ends = circ.ends(arc);
    let mut walk = Walk {
        first: 4 * nodes as usize + 8,
        amount: most,
        full: 0,
    };
    let mut node = ends.from;
    while node != ends.to {
        if node == nodes {
            let out = take_step(circ, walk, 2 * u64::from(exit));
            return take_step(circ, out, 2 * u64::from(arc));
        }
        let step = tree.word(node) - 1;
        walk = take_step(circ, walk, step);
        node = predecessor(circ, &tree.labels, node, step);
    }
    take_step(circ, walk, 2 * u64::from(arc))
}
