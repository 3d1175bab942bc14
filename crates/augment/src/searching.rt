//! The search over the residual network, from the head of an arc.
ghost use Rattle.std.specs.Prelude.{◌≡◌, ℕ, ◌<◌, ◌≤◌, slice_index};
ghost use Rattle.circulation.specs.Contents.{arcs, flow_of, network, IsCirculation, SameButScratch};
ghost use Rattle.circulation.specs.Residual.{arc_of, start_of, end_of};
ghost use Rattle.augment.specs.Search.{IsTried, IsExpanded, IsClosed, HasTree, IsVisitedBy};
ghost use Rattle.augment.specs.Raised.{position_of, IsReached};

use crate::scratch::{clear, position, visit, word};
use circulation::CirculationMut;
use circulation::residual::{arc_of_step, room};

/// Visits the node that a step enters, if the step has enough room and doesn't go over `arc`.
fn try_step(
    circ: &mut CirculationMut<'_>,
    arc: u32,
    least: u64,
    step: u64,
    end: u32,
    size: usize,
) -> usize
    requires step { arc_of step < arcs circ.old }
    requires end { end_of (network circ.old) step ≡ end }
    requires marked { IsReached circ.old (start_of (network circ.old) step) }
    requires tree { HasTree circ.old arc least size }
    requires kept { IsCirculation circ.old }
    ensures kept { IsCirculation circ.new }
    ensures visited { IsVisitedBy circ.old circ.new arc least size result }
    ensures done { IsTried (network circ.old) (flow_of circ.old) arc least (position_of circ.new) step }
{
    if position(circ, end) != 0 {
        return size;
    }
    if arc_of_step(circ, step) == arc {
        return size;
    }
    if room(circ, step) < least {
        return size;
    }
    visit(circ, end, step, size)
}

/// Visits the nodes to which the steps of a node's row lead, until the tail of `arc` is reached.
fn scan(circ: &mut CirculationMut<'_>, arc: u32, least: u64, node: u32, size: usize) -> usize
    requires arc { arc < arcs circ.old }
    requires node { node ≤ circ.old.nodes }
    requires marked { IsReached circ.old node }
    requires tree { HasTree circ.old arc least size }
    requires kept { IsCirculation circ.old }
    ensures kept { IsCirculation circ.new }
    ensures visited { IsVisitedBy circ.old circ.new arc least size result }
    ensures done { position_of circ.new (slice_index circ.old.from arc) ≡ 0 →
        IsExpanded (network circ.old) (flow_of circ.old) arc least (position_of circ.new) node }
{
    let tail = circ.ends(arc).from;
    let mut count = size;
    for place in circ.row_first(node)..circ.row_last(node) {
        if position(circ, tail) != 0 {
            return count;
        }
        let step = circ.step_at(place);
        count = try_step(circ, arc, least, step, circ.end_at(place), count);
    }
    count
}

/// Reaches only the head of the arc.
fn plant(circ: &mut CirculationMut<'_>, arc: u32, least: u64)
    requires arc { arc < arcs circ.old }
    requires kept { IsCirculation circ.old }
    ensures kept { IsCirculation circ.new }
    ensures rest { SameButScratch circ.old circ.new }
    ensures tree { HasTree circ.new arc least 1 }
    ensures root { (v : ℕ) → v ≤ circ.old.nodes → IsReached circ.new v → v ≡ slice_index circ.old.to arc }
{
    clear(circ);
    let head = circ.ends(arc).to;
    visit(circ, head, 0, 0);
}

/// Searches over rooms of at least `least` from the head of an arc, never over the arc itself, until
/// its tail is reached or nothing more can be. Nodes are scanned in the order in which they were
/// reached. The answer is how many were reached.
pub fn search(circ: &mut CirculationMut<'_>, arc: u32, least: u64) -> usize
    requires arc { arc < arcs circ.old }
    requires kept { IsCirculation circ.old }
    ensures kept { IsCirculation circ.new }
    ensures rest { SameButScratch circ.old circ.new }
    ensures tree { HasTree circ.new arc least result }
    ensures closed { position_of circ.new (slice_index circ.old.from arc) ≡ 0 →
        IsClosed (network circ.old) (flow_of circ.old) arc least (position_of circ.new) }
{
    plant(circ, arc, least);
    let tail = circ.ends(arc).from;
    let nodes = circ.nodes() as usize;
    let mut size = 1;
    let mut done = 0;
    while done < size && position(circ, tail) == 0 {
        let node = word(circ, nodes + 1 + done) as u32;
        size = scan(circ, arc, least, node, size);
        done += 1;
    }
    size
}
