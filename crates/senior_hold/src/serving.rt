//! One right's turn.
ghost use Rattle.std.specs.Prelude.{◌≡◌, ◌⊎◌, ◌+◌, ◌*◌, ◌<◌, ◌≤◌, length, replicate, false, Some};
ghost use Rattle.circulation.specs.Contents.{network, IsCirculation};
ghost use Rattle.augment.specs.Raised.{HasPathOut, open_arcs};
ghost use Rattle.residual_tree.specs.Raised.{IsRaisedOver};
ghost use Rattle.residual_tree.specs.Tree.{IsResidualTree};
ghost use Rattle.senior_hold.specs.Serving.{IsClaim, IsServed, KeepsShape, FillsExit, CanHaveSet};

use crate::sweep::Method;
use crate::tree_raises::raise_fully;
use augment::{Raised, raise};
use circulation::CirculationMut;
use residual_tree::{ResidualTree, TreeRaised};
use std::sync::ledger::Ledger;
use steps::Steps;
use unreached_sets::mark;
use water_model::cut_list::CutList;

/// What a right wants on its arc, and an arc from the head of that to the outside, unless the head is the outside.
#[derive(Clone, Copy)]
pub struct Claim {
    pub right: u32,
    pub arc: u32,
    pub exit: u32,
    pub want: u64,
}

/// Raises a right's arc to its want, or as far as it can be; gives a right that stays short the greatest tight cut of
/// its arc; and holds what the arc has of the want.
fn serve<L: Ledger>(
    circ: &mut CirculationMut<'_>,
    claim: Claim,
    cuts: &mut CutList,
    pushes: &mut Steps<L>,
)
    requires claim { IsClaim circ.old claim }
    requires set { CanHaveSet circ.old cuts.old claim }
    requires path_out { HasPathOut (network circ.old) claim.arc }
    ensures served { IsServed circ.old circ.new claim cuts.old cuts.new }
    ensures kept { IsCirculation circ.new }
    ensures shape { KeepsShape cuts.old cuts.new }
    ensures cost { pushes.new ≤ pushes.old + 30 * (2 * open_arcs (network circ.old) + 1) }
{
    let Claim {
        right,
        arc,
        want,
        ..
    } = claim;
    let raised = raise(circ, arc, want, pushes);
    if raised == Raised::Stopped {
        cuts.begin(right);
        mark(circ, right, cuts);
    }
    let got = want.min(circ.flow(arc));
    circ.hold(arc, got);
}

/// What a turn came to.
#[derive(Clone, Copy, Debug, PartialEq, Eq)]
pub enum Turn {
    /// The right is served.
    Served,
    /// The pushes were used up.
    GaveUp,
}

/// Serves a right as `serve` does, by a method. By the tree it makes at most `left` pushes, and takes from `left` what
/// it used: at most one more than it pushed. It gives up after `left` pushes. Both hold unless the exit got full on the
/// way. By searches it always ends.
pub fn serve_by<L: Ledger>(
    method: Method,
    circ: &mut CirculationMut<'_>,
    tree: &mut ResidualTree<'_>,
    claim: Claim,
    cuts: &mut CutList,
    left: &mut u32,
    pushes: &mut Steps<L>,
) -> Turn
    requires claim { IsClaim circ.old claim }
    requires set { CanHaveSet circ.old cuts.old claim }
    requires tree { method ≡ Method.Tree → IsResidualTree circ.old tree.old }
    requires path_out { method ≡ Method.Searches → HasPathOut (network circ.old) claim.arc }
    ensures served { result ≡ Turn.Served → IsServed circ.old circ.new claim cuts.old cuts.new }
    ensures tree { method ≡ Method.Tree → result ≡ Turn.Served → IsResidualTree circ.new tree.new }
    ensures raised { result ≡ Turn.GaveUp → IsRaisedOver circ.old circ.new claim.arc }
    ensures kept { IsCirculation circ.new }
    ensures shape { KeepsShape cuts.old cuts.new }
    ensures cost { method ≡ Method.Tree → pushes.new + left.new ≤ pushes.old + left.old }
    ensures used { method ≡ Method.Tree →
        (pushes.old + left.old ≤ pushes.new + left.new + 1) ⊎ FillsExit circ.old claim }
    ensures gave_up { result ≡ Turn.GaveUp → (pushes.old + left.old ≤ pushes.new) ⊎ FillsExit circ.old claim }
    ensures searched { method ≡ Method.Searches → result ≡ Turn.Served }
    ensures search_cost { method ≡ Method.Searches →
        pushes.new ≤ pushes.old + 30 * (2 * open_arcs (network circ.old) + 1) }
{
    match method {
        Method::Searches => {
            serve(circ, claim, cuts, pushes);
            Turn::Served
        }
        Method::Tree => {
            if claim.want <= circ.flow(claim.arc) {
                tree.hold(circ, claim.arc, claim.want);
                return Turn::Served;
            }
            match raise_fully(circ, tree, claim, left, pushes) {
                TreeRaised::Met => Turn::Served,
                TreeRaised::Unfinished => Turn::GaveUp,
                TreeRaised::Stopped => {
                    // The unlabeled nodes are the greatest tight cut of the arc.
                    cuts.begin_with(claim.right, tree.unlabeled_marks());
                    tree.drop_artificial(circ, claim.exit);
                    Turn::Served
                }
            }
        }
    }
}
