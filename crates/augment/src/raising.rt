//! The phases of a raise, each over half the room of the one before.
ghost use Rattle.std.specs.Prelude.{min, ◌≡◌, true, false, ℕ, ◌+◌, ◌-◌, ◌*◌, ◌^◌, ◌<◌, ◌≤◌, slice_index};
ghost use Rattle.circulation.specs.Contents.{arcs, flow_of, network, IsCirculation, SameButFlow, SameButScratch};
ghost use Rattle.circulation.specs.Network.{IsFlow, IsGreatestCut};
ghost use Rattle.augment.specs.Raised.{HasPathOut, open_arcs, CarriesAtMost, not_reached};

use crate::reached;
use crate::searching::search;
use crate::tracing::trace;
use circulation::CirculationMut;
use std::sync::ledger::Ledger;
use steps::Steps;

/// One search over rooms of at least `least`, and one push along the walk that it finds. Answers whether
/// it found one.
fn round<L: Ledger>(
    circ: &mut CirculationMut<'_>,
    arc: u32,
    want: u64,
    least: u64,
    pushes: &mut Steps<L>,
) -> bool
    requires arc { arc < arcs circ.old }
    requires want { want ≤ slice_index circ.old.upper arc }
    requires less { flow_of circ.old arc < want }
    requires least { 0 < least }
    requires path_out { HasPathOut (network circ.old) arc }
    requires kept { IsCirculation circ.old }
    ensures kept { IsCirculation circ.new }
    ensures rest { SameButFlow circ.old circ.new }
    ensures pushed { result ≡ true →
        (flow_of circ.old arc < flow_of circ.new arc) × (flow_of circ.new arc ≤ want) ×
        (pushes.new ≡ pushes.old + 1) }
    ensures wide { result ≡ true →
        flow_of circ.old arc + min least (want - flow_of circ.old arc) ≤ flow_of circ.new arc }
    ensures stopped { result ≡ false → SameButScratch circ.old circ.new × (pushes.new ≡ pushes.old) }
    ensures rise { result ≡ false →
        CarriesAtMost (network circ.old) arc (flow_of circ.old arc + open_arcs (network circ.old) * (least - 1)) }
    ensures cut { result ≡ false → least ≡ 1 →
        IsGreatestCut (network circ.old) (flow_of circ.old) arc (not_reached circ.new) }
{
    search(circ, arc, least);
    let ends = circ.ends(arc);
    if !reached(circ, ends.from) {
        return false;
    }
    let missing = want - circ.flow(arc);
    let walk = trace(circ, arc, missing);
    let count = 4 * circ.nodes() as usize + 8 - walk.first;
    circ.push(walk.first, count, walk.amount, pushes);
    true
}

/// One phase: raises the flow over rooms of at least `least`, until it is what is wanted or no walk is
/// left. Then it can rise by less than `least` for each arc that may carry anything, so the next phase has few pushes.
fn phase<L: Ledger>(
    circ: &mut CirculationMut<'_>,
    arc: u32,
    want: u64,
    least: u64,
    pushes: &mut Steps<L>,
)
    requires arc { arc < arcs circ.old }
    requires want { want ≤ slice_index circ.old.upper arc }
    requires path_out { HasPathOut (network circ.old) arc }
    requires limit { flow_of circ.old arc ≤ want }
    requires least { 0 < least }
    requires rise { (h : ℕ → ℕ) → IsFlow (network circ.old) h → h arc ≤ want →
        h arc ≤ flow_of circ.old arc + open_arcs (network circ.old) * (2 * least - 1) }
    requires kept { IsCirculation circ.old }
    ensures kept { IsCirculation circ.new }
    ensures rest { SameButFlow circ.old circ.new }
    ensures limit { flow_of circ.new arc ≤ want }
    ensures rises { flow_of circ.old arc ≤ flow_of circ.new arc }
    ensures left { flow_of circ.new arc < want →
        CarriesAtMost (network circ.old) arc (flow_of circ.new arc + open_arcs (network circ.old) * (least - 1)) }
    ensures cut { flow_of circ.new arc < want → least ≡ 1 →
        IsGreatestCut (network circ.old) (flow_of circ.new) arc (not_reached circ.new) }
    ensures cost { pushes.new ≤ pushes.old + (2 * open_arcs (network circ.old) + 1) }
{
    while circ.flow(arc) < want {
        if !round(circ, arc, want, least, pushes) {
            return;
        }
    }
}

/// The room of the first phase, which is the greatest power of two that is not above what is missing, and
/// how many phases there are down to a room of 1.
fn first_phase(missing: u64) -> (u64, u32)
    requires { 0 < missing }
    ensures power { result.0 ≡ 2 ^ (result.1 - 1) }
    ensures some { 0 < result.1 }
    ensures within { result.0 ≤ missing }
    ensures next { missing < 2 * result.0 }
{
    let mut least = 1u64;
    let mut count = 1u32;
    while least <= missing / 2 {
        least *= 2;
        count += 1;
    }
    (least, count)
}

/// All phases of a raise, each with half the room of the one before.
pub fn run_phases<L: Ledger>(
    circ: &mut CirculationMut<'_>,
    arc: u32,
    want: u64,
    missing: u64,
    pushes: &mut Steps<L>,
)
    requires arc { arc < arcs circ.old }
    requires want { want ≤ slice_index circ.old.upper arc }
    requires path_out { HasPathOut (network circ.old) arc }
    requires some { 0 < missing }
    requires missing { flow_of circ.old arc + missing ≡ want }
    requires kept { IsCirculation circ.old }
    ensures kept { IsCirculation circ.new }
    ensures rest { SameButFlow circ.old circ.new }
    ensures limit { flow_of circ.new arc ≤ want }
    ensures cut { flow_of circ.new arc < want →
        IsGreatestCut (network circ.old) (flow_of circ.new) arc (not_reached circ.new) }
    ensures cost { missing ≤ 1000000000 → pushes.new ≤ pushes.old + 30 * (2 * open_arcs (network circ.old) + 1) }
{
    let (first, count) = first_phase(missing);
    let mut least = first;
    for left in (0..count).rev() {
        phase(circ, arc, want, least, pushes);
        least /= 2;
    }
}
