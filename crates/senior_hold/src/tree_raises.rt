//! Raises of a right's arc by the residual tree.
ghost use Rattle.std.specs.Prelude.{◌≡◌, ◌≢◌, ◌↔◌, ◌⊎◌, ◌+◌, ◌<◌, ◌≤◌, slice_index};
ghost use Rattle.circulation.specs.Contents.{flow_of};
ghost use Rattle.residual_tree.specs.Tree.{IsResidualTree};
ghost use Rattle.residual_tree.specs.Raised.{IsFull};
ghost use Rattle.senior_hold.specs.Serving.{IsClaim, IsTreeRaise, LeavesTree, FillsExit};

use crate::serving::Claim;
use circulation::CirculationMut;
use residual_tree::{ResidualTree, TreeRaised, raise_by_tree, raise_take, raise_within_unlabeled};
use std::sync::ledger::Ledger;
use steps::Steps;

/// At most one push over an arc: along the tree, or within the unlabeled nodes where both its ends are unlabeled.
/// Unfinished says that there may be more to push; it comes after a push, or where the exit is full.
fn raise_once<L: Ledger>(
    circ: &mut CirculationMut<'_>,
    tree: &mut ResidualTree<'_>,
    claim: Claim,
    pushes: &mut Steps<L>,
) -> TreeRaised
    requires claim { IsClaim circ.old claim }
    requires less { flow_of circ.old claim.arc ≤ claim.want }
    requires held { flow_of circ.old claim.arc ≡ slice_index circ.old.lower claim.arc }
    requires tree { IsResidualTree circ.old tree.old }
    ensures raised { IsTreeRaise circ.old circ.new claim }
    ensures met { (result ≡ TreeRaised.Met) ↔ (flow_of circ.new claim.arc ≡ claim.want) }
    ensures leaves { LeavesTree circ.new tree.new claim result }
    ensures count { pushes.old ≤ pushes.new }
    ensures cost { pushes.new ≤ pushes.old + 1 }
    ensures unfinished { result ≡ TreeRaised.Unfinished →
        (pushes.new ≡ pushes.old + 1) ⊎ IsFull circ.new claim.exit }
{
    let Claim {
        arc,
        exit,
        want,
        ..
    } = claim;
    let ends = circ.ends(arc);
    if tree.is_unlabeled(ends.from) && tree.is_unlabeled(ends.to) {
        return raise_within_unlabeled(circ, tree, arc, exit, want, 1, pushes);
    }
    let pulled = raise_by_tree(circ, tree, arc, exit, want, 1, pushes);
    if pulled == TreeRaised::Stopped && tree.is_unlabeled(ends.to) {
        TreeRaised::Unfinished
    } else {
        pulled
    }
}

/// Raises the flow on an arc to its want, or as far as it can be, by at most `left` pushes, and takes from `left` what
/// it used: at most one more than it pushed. Unfinished says that `left` pushes were made. Both hold unless the exit
/// got full on the way.
pub fn raise_fully<L: Ledger>(
    circ: &mut CirculationMut<'_>,
    tree: &mut ResidualTree<'_>,
    claim: Claim,
    left: &mut u32,
    pushes: &mut Steps<L>,
) -> TreeRaised
    requires claim { IsClaim circ.old claim }
    requires less { flow_of circ.old claim.arc ≤ claim.want }
    requires tree { IsResidualTree circ.old tree.old }
    ensures raised { IsTreeRaise circ.old circ.new claim }
    ensures met { result ≢ TreeRaised.Unfinished →
        (result ≡ TreeRaised.Met) ↔ (flow_of circ.new claim.arc ≡ claim.want) }
    ensures leaves { LeavesTree circ.new tree.new claim result }
    ensures cost { pushes.new + left.new ≤ pushes.old + left.old }
    ensures used { (pushes.old + left.old ≤ pushes.new + left.new + 1) ⊎ FillsExit circ.old claim }
    ensures gave_up { result ≡ TreeRaised.Unfinished →
        (pushes.old + left.old ≤ pushes.new) ⊎ FillsExit circ.old claim }
{
    let flow = circ.flow(claim.arc);
    tree.hold(circ, claim.arc, flow);
    // Where the head is the outside, one call makes all pushes.
    if flow < claim.want && circ.ends(claim.arc).to == circ.nodes() {
        return raise_take(circ, tree, claim.arc, claim.want, left, pushes);
    }
    let most = *left;
    for _pushes in 0..most {
        *left -= 1;
        let pulled = raise_once(circ, tree, claim, pushes);
        if pulled != TreeRaised::Unfinished {
            return pulled;
        }
    }
    TreeRaised::Unfinished
}
