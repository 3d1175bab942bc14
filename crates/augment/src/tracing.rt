//! The steps that a search goes over, and the closed walk along its tree.
ghost use Rattle.std.specs.Prelude.{min, ◌≡◌, ℕ, ◌+◌, ◌*◌, ◌<◌, ◌≤◌, slice_index};
ghost use Rattle.circulation.specs.Contents.{arcs, flow_of, network, step_of, IsCirculation, SameButScratch};
ghost use Rattle.circulation.specs.Residual.{IsClosedWalk};
ghost use Rattle.augment.specs.Search.{HasTree};
ghost use Rattle.augment.specs.Raised.{IsReached};

use crate::scratch::{position, set_word, word};
use circulation::CirculationMut;
use circulation::residual::{room, start};

/// Where a walk begins in the scratch words, which it fills to their end, and how much it can carry.
#[derive(Clone, Copy)]
pub struct Walk {
    pub first: usize,
    pub amount: u64,
}

/// Writes the walk that goes over the arc and then along the tree from its head to its tail. It carries
/// the least of its rooms, and at most `most`.
pub fn trace(circ: &mut CirculationMut<'_>, arc: u32, most: u64) -> Walk
    requires arc { arc < arcs circ.old }
    requires positive { 0 < most }
    requires most { flow_of circ.old arc + most ≤ slice_index circ.old.upper arc }
    requires tree { (size : ℕ) × HasTree circ.old arc 1 size }
    requires reached { IsReached circ.old (slice_index circ.old.from arc) }
    requires kept { IsCirculation circ.old }
    ensures kept { IsCirculation circ.new }
    ensures rest { SameButScratch circ.old circ.new }
    ensures walk { let last = 4 * circ.old.nodes + 8 in
        IsClosedWalk (network circ.old) (flow_of circ.old) (step_of circ.new) result.first last result.amount }
    ensures limit { result.amount ≤ most }
    ensures wide { (least size : ℕ) → HasTree circ.old arc least size → min least most ≤ result.amount }
    ensures forward { step_of circ.new result.first ≡ 2 * arc }
{
    let nodes = circ.nodes() as usize;
    let ends = circ.ends(arc);
    let mut first = 4 * nodes + 8;
    let mut amount = most;
    let mut node = ends.from;
    while node != ends.to {
        let place = position(circ, node) as usize;
        let step = word(circ, 2 * nodes + 1 + place);
        first -= 1;
        set_word(circ, first, step);
        amount = amount.min(room(circ, step));
        node = start(circ, step);
    }
    first -= 1;
    set_word(circ, first, 2 * u64::from(arc));
    Walk { first, amount }
}
