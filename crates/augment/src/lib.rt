//! Raises the flow on one arc of a circulation as far as the bounds allow, and gives the cut that stops it.
//!
//! The method is capacity scaling by augmenting walks: Ahuja, Magnanti and Orlin, Network Flows (1993),
//! section 7.3. A search goes from the head of the arc over the residual network, and never over the
//! arc itself. Where it comes to the arc's tail, the steps back and the arc are a closed walk, round
//! which the flow is pushed. All amounts are in units of 1,000 cubic metres. No call takes memory.
//!
//! A search keeps what it reached in the scratch words of the circulation. With n basin nodes there are
//! n + 1 words for the position of each node among those reached, from 1 on, or 0; n + 1 for the nodes
//! by position; n + 1 for the steps by which they were reached; and n + 5 for the walk, from the end.
#![tactic(auto)]

ghost use Rattle.std.specs.Prelude.{◌≡◌, ◌+◌, ◌*◌, ◌<◌, ◌≤◌, slice_index, IsTrue, ◌↔◌};
ghost use Rattle.circulation.specs.Contents.{arcs, flow_of, network, IsCirculation, SameButFlow};
ghost use Rattle.circulation.specs.Network.{IsGreatestCut};
ghost use Rattle.augment.specs.Raised.{HasPathOut, open_arcs, CanCarry, CarriesAtMost, IsReached};
ghost use Rattle.augment.specs.Raised.{not_reached};

mod raising;
mod scratch;
mod searching;
mod tracing;

use crate::raising::run_phases;
use crate::scratch::position;
use circulation::CirculationMut;
use std::sync::ledger::Ledger;
use steps::Steps;

/// Whether the last search of `raise` came to a node, as long as no scratch word was written since.
/// After Stopped the basin nodes to which it did not come are the greatest tight cut of the arc.
pub fn reached(circ: &CirculationMut<'_>, node: u32) -> bool
    requires { node ≤ circ.now.nodes }
    ensures { IsTrue result ↔ IsReached circ.now node }
{
    // This call says that the circulation is kept.
    let _nodes = circ.nodes();
    position(circ, node) != 0
}

/// What a raise came to.
#[derive(Clone, Copy, Debug, PartialEq, Eq)]
pub enum Raised {
    /// The flow on the arc is what was wanted, or was more before.
    Met,
    /// The flow on the arc is the greatest that there is, and less than what was wanted.
    Stopped,
}

/// Raises the flow on an arc to `want`, or to the greatest that the bounds allow, in units of 1,000 cubic
/// metres. Supplies and bounds stay. Where the flow is at least `want` already, nothing changes and
/// the answer is Met. Each search that finds a walk ticks `pushes` once, and nothing else does.
pub fn raise<L: Ledger>(
    circ: &mut CirculationMut<'_>,
    arc: u32,
    want: u64,
    pushes: &mut Steps<L>,
) -> Raised
    requires arc { arc < arcs circ.old }
    requires want { want ≤ slice_index circ.old.upper arc }
    requires path_out { HasPathOut (network circ.old) arc }

    ensures kept { IsCirculation circ.new }
    ensures rest { SameButFlow circ.old circ.new }
    ensures idle { want ≤ flow_of circ.old arc →
        (result ≡ Raised.Met) × (circ.new ≡ circ.old) × (pushes.new ≡ pushes.old) }

    // Met comes exactly where some flow within the bounds has what is wanted on the arc.
    ensures exact { flow_of circ.old arc < want → (result ≡ Raised.Met) ↔ CanCarry (network circ.old) arc want }
    ensures met { flow_of circ.old arc < want → result ≡ Raised.Met → flow_of circ.new arc ≡ want }

    // After Stopped, no flow has more on the arc, as the basin nodes that were not reached are a tight
    // cut of it, which contains every tight cut.
    ensures less { result ≡ Raised.Stopped → flow_of circ.new arc < want }
    ensures greatest { result ≡ Raised.Stopped → CarriesAtMost (network circ.old) arc (flow_of circ.new arc) }
    ensures cut { result ≡ Raised.Stopped →
        IsGreatestCut (network circ.old) (flow_of circ.new) arc (not_reached circ.new) }

    ensures cost { want ≤ 1000000000 → pushes.new ≤ pushes.old + 30 * (2 * open_arcs (network circ.old) + 1) }
{
    let start = circ.flow(arc);
    if want <= start {
        return Raised::Met;
    }
    run_phases(circ, arc, want, want - start, pushes);
    if circ.flow(arc) < want {
        Raised::Stopped
    } else {
        Raised::Met
    }
}
