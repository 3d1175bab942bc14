//! Raises the flow on an arc by pushes along the tree.
ghost use Rattle.std.specs.Prelude.{◌≡◌, true, false, ◌+◌, ◌-◌, ◌*◌, ◌<◌, ◌≤◌, ◌≢◌, ◌⊎◌, slice_index, ◌↔◌};
ghost use Rattle.circulation.specs.Contents.{arcs, flow_of, network, IsCirculation, SameButScratch};
ghost use Rattle.circulation.specs.Residual.{arc_of, end_of};
ghost use Rattle.circulation.specs.Network.{IsGreatestCut};
ghost use Rattle.residual_tree.specs.Tree.{label_of, IsLabeled, IsResidualTree, unlabeled};
ghost use Rattle.residual_tree.specs.Repair.{HasArtificialStep};
ghost use Rattle.residual_tree.specs.Raised.{IsExit, IsFull, IsRaisedOver};

use crate::ResidualTree;
use crate::tracing::trace;
use circulation::CirculationMut;
use std::sync::ledger::Ledger;
use steps::Steps;

/// One push along the walk over the arc, the exit and the tree, after which the flow of the arc is held and the tree
/// repaired. The step `artificial` to the head of the arc may have no room. Answers whether there was room for the
/// push. There is none only where the walk goes over the exit and the exit has none.
fn round<L: Ledger>(
    circ: &mut CirculationMut<'_>,
    tree: &mut ResidualTree<'_>,
    arc: u32,
    exit: u32,
    most: u64,
    artificial: u64,
    pushes: &mut Steps<L>,
) -> bool
    requires arc { arc < arcs circ.old }
    requires positive { 0 < most }
    requires most { flow_of circ.old arc + most ≤ slice_index circ.old.upper arc }
    requires held { flow_of circ.old arc ≡ slice_index circ.old.lower arc }
    requires exit { IsExit circ.old arc exit }
    requires artificial_arc { arc_of artificial < arcs circ.old }
    requires artificial_end { end_of (network circ.old) artificial ≡ slice_index circ.old.to arc }
    requires tree { HasArtificialStep circ.old tree.old artificial }
    requires labeled { IsLabeled tree.old (slice_index circ.old.from arc) }
    requires kept { IsCirculation circ.old }
    ensures kept { IsCirculation circ.new }
    ensures rest { IsRaisedOver circ.old circ.new arc }
    ensures held { flow_of circ.new arc ≡ slice_index circ.new.lower arc }
    ensures tree { result ≡ true → IsResidualTree circ.new tree.new }
    ensures pushed { result ≡ true →
        (flow_of circ.old arc < flow_of circ.new arc) × (flow_of circ.new arc ≤ flow_of circ.old arc + most) ×
        (pushes.new ≡ pushes.old + 1) }
    ensures stopped { result ≡ false →
        SameButScratch circ.old circ.new × (tree.new ≡ tree.old) × (pushes.new ≡ pushes.old) }
    ensures full { result ≡ false → (slice_index circ.old.to arc ≢ circ.old.nodes) × IsFull circ.new exit }
{
    let walk = trace(circ, tree, arc, exit, most);
    if walk.amount == 0 {
        return false;
    }
    let count = 4 * circ.nodes() as usize + 8 - walk.first;
    circ.push(walk.first, count, walk.amount, pushes);
    let flow = circ.flow(arc);
    circ.hold(arc, flow);
    circ.scratch_set(walk.full, artificial);
    tree.repair(circ, 0, walk.full + 1);
    true
}

/// Pushes as long as the flow on the arc is less than wanted and its tail is labeled, at most `max_pushes` times.
fn raise_labeled<L: Ledger>(
    circ: &mut CirculationMut<'_>,
    tree: &mut ResidualTree<'_>,
    arc: u32,
    exit: u32,
    want: u64,
    max_pushes: u32,
    pushes: &mut Steps<L>,
)
    requires arc { arc < arcs circ.old }
    requires want { want ≤ slice_index circ.old.upper arc }
    requires less { flow_of circ.old arc ≤ want }
    requires held { flow_of circ.old arc ≡ slice_index circ.old.lower arc }
    requires exit { IsExit circ.old arc exit }
    requires tree { IsResidualTree circ.old tree.old }
    requires kept { IsCirculation circ.old }
    ensures kept { IsCirculation circ.new }
    ensures rest { IsRaisedOver circ.old circ.new arc }
    ensures held { flow_of circ.new arc ≡ slice_index circ.new.lower arc }
    ensures tree { IsResidualTree circ.new tree.new }
    ensures rises { flow_of circ.old arc ≤ flow_of circ.new arc }
    ensures limit { flow_of circ.new arc ≤ want }
    ensures cost { pushes.new ≤ pushes.old + max_pushes }
    ensures each { flow_of circ.old arc + (pushes.new - pushes.old) ≤ flow_of circ.new arc }
    ensures why { flow_of circ.new arc < want → IsLabeled tree.new (slice_index circ.old.from arc) →
        (pushes.new ≡ pushes.old + max_pushes) ⊎
        ((slice_index circ.old.to arc ≢ circ.old.nodes) × IsFull circ.new exit) }
    ensures count { pushes.old ≤ pushes.new }
    ensures still { pushes.new ≡ pushes.old → SameButScratch circ.old circ.new }
{
    let tail = circ.ends(arc).from;
    for _pushes in 0..max_pushes {
        let flow = circ.flow(arc);
        if flow == want {
            return;
        }
        if tree.word(tail) == 0 {
            return;
        }
        let artificial = 2 * u64::from(arc);
        if !round(circ, tree, arc, exit, want - flow, artificial, pushes) {
            return;
        }
    }
}

/// What a raise by the tree came to.
#[derive(Clone, Copy, Debug, PartialEq, Eq)]
pub enum TreeRaised {
    /// The flow on the arc is what was wanted.
    Met,
    /// The flow on the arc is less than what was wanted, and its tail is unlabeled.
    Stopped,
    /// The flow on the arc is less than what was wanted: the pushes were used up, or the exit has no room.
    Unfinished,
}

/// Raises the flow on an arc towards `want`, in units of 1,000 cubic metres, by at most `max_pushes` pushes along the
/// tree, each of which ticks `pushes` once. The flow on the arc is held as it rises. Where the head of the arc is not
/// the outside, `exit` is an arc from there to the outside. Each push costs about as much as the walk is long, and as
/// there are arcs at the nodes below the steps that it fills.
pub fn raise_by_tree<L: Ledger>(
    circ: &mut CirculationMut<'_>,
    tree: &mut ResidualTree<'_>,
    arc: u32,
    exit: u32,
    want: u64,
    max_pushes: u32,
    pushes: &mut Steps<L>,
) -> TreeRaised
    requires arc { arc < arcs circ.old }
    requires want { want ≤ slice_index circ.old.upper arc }
    requires less { flow_of circ.old arc ≤ want }
    requires exit { IsExit circ.old arc exit }
    requires tree { IsResidualTree circ.old tree.old }

    ensures kept { IsCirculation circ.new }
    ensures rest { IsRaisedOver circ.old circ.new arc }
    ensures held { flow_of circ.new arc ≡ slice_index circ.new.lower arc }
    ensures tree { IsResidualTree circ.new tree.new }
    ensures rises { flow_of circ.old arc ≤ flow_of circ.new arc }
    ensures limit { flow_of circ.new arc ≤ want }
    ensures met { (result ≡ TreeRaised.Met) ↔ (flow_of circ.new arc ≡ want) }

    // After Stopped the unlabeled nodes are the greatest tight cut of the arc, where its head is labeled.
    ensures unlabeled { result ≡ TreeRaised.Stopped → label_of tree.new (slice_index circ.old.from arc) ≡ 0 }
    ensures cut { result ≡ TreeRaised.Stopped → IsLabeled tree.new (slice_index circ.old.to arc) →
        IsGreatestCut (network circ.new) (flow_of circ.new) arc (unlabeled circ.new tree.new) }

    // Each push raises the flow, and Unfinished comes only where all pushes were made, or where the head is not the
    // outside and the exit is full.
    ensures count { pushes.old ≤ pushes.new }
    ensures cost { pushes.new ≤ pushes.old + max_pushes }
    ensures each { flow_of circ.old arc + (pushes.new - pushes.old) ≤ flow_of circ.new arc }
    ensures unfinished { result ≡ TreeRaised.Unfinished → (pushes.new ≡ pushes.old + max_pushes) ⊎
        ((slice_index circ.old.to arc ≢ circ.old.nodes) × IsFull circ.new exit) }

    // Without a push, all but scratch words stays as it was, where the arc was held at its flow.
    ensures still { pushes.new ≡ pushes.old → flow_of circ.old arc ≡ slice_index circ.old.lower arc →
        SameButScratch circ.old circ.new }
{
    let start = circ.flow(arc);
    tree.hold(circ, arc, start);
    raise_labeled(circ, tree, arc, exit, want, max_pushes, pushes);
    if circ.flow(arc) == want {
        return TreeRaised::Met;
    }
    let tail = circ.ends(arc).from;
    if tree.word(tail) == 0 {
        TreeRaised::Stopped
    } else {
        TreeRaised::Unfinished
    }
}

/// Raises the flow on an arc to the outside, which is held at its flow, towards `want`: as `raise_by_tree` does, by at
/// most `left` pushes. Takes from `left` those that it made, and one where it made none.
pub fn raise_take<L: Ledger>(
    circ: &mut CirculationMut<'_>,
    tree: &mut ResidualTree<'_>,
    arc: u32,
    want: u64,
    left: &mut u32,
    pushes: &mut Steps<L>,
) -> TreeRaised
    requires arc { arc < arcs circ.old }
    requires want { want ≤ slice_index circ.old.upper arc }
    requires less { flow_of circ.old arc < want }
    requires held { flow_of circ.old arc ≡ slice_index circ.old.lower arc }
    requires out { slice_index circ.old.to arc ≡ circ.old.nodes }
    requires tree { IsResidualTree circ.old tree.old }

    ensures kept { IsCirculation circ.new }
    ensures rest { IsRaisedOver circ.old circ.new arc }
    ensures held { flow_of circ.new arc ≡ slice_index circ.new.lower arc }
    ensures tree { IsResidualTree circ.new tree.new }
    ensures rises { flow_of circ.old arc ≤ flow_of circ.new arc }
    ensures limit { flow_of circ.new arc ≤ want }
    ensures met { (result ≡ TreeRaised.Met) ↔ (flow_of circ.new arc ≡ want) }

    // After Stopped the unlabeled nodes are the greatest tight cut of the arc.
    ensures unlabeled { result ≡ TreeRaised.Stopped → label_of tree.new (slice_index circ.old.from arc) ≡ 0 }
    ensures cut { result ≡ TreeRaised.Stopped →
        IsGreatestCut (network circ.new) (flow_of circ.new) arc (unlabeled circ.new tree.new) }

    // Each push raises the flow, and Unfinished comes only where all pushes were made.
    ensures count { pushes.old ≤ pushes.new }
    ensures each { flow_of circ.old arc + (pushes.new - pushes.old) ≤ flow_of circ.new arc }
    ensures cost { pushes.new + left.new ≤ pushes.old + left.old }
    ensures used { pushes.old + left.old ≤ pushes.new + left.new + 1 }
    ensures pushed { pushes.old < pushes.new → pushes.new + left.new ≡ pushes.old + left.old }
    ensures unfinished { result ≡ TreeRaised.Unfinished → pushes.old + left.old ≤ pushes.new }
{
    let tail = circ.ends(arc).from;
    let most = *left;
    if most == 0 {
        return TreeRaised::Unfinished;
    }
    if tree.word(tail) == 0 {
        *left = most - 1;
        return TreeRaised::Stopped;
    }
    let mut got = circ.flow(arc);
    for _pushes in 0..most {
        let artificial = 2 * u64::from(arc);
        let pushed = round(circ, tree, arc, arc, want - got, artificial, pushes);
        // There is room, as the head is the outside.
        prove!(pushed);
        *left -= 1;
        got = circ.flow(arc);
        if got == want {
            return TreeRaised::Met;
        }
        if tree.word(tail) == 0 {
            return TreeRaised::Stopped;
        }
    }
    TreeRaised::Unfinished
}

/// Raises the flow on an arc within the unlabeled nodes, where its head is unlabeled too: by walks from the head to the
/// tail, which need no water. After Stopped the tree has the artificial step back over the exit, so that
/// `drop_artificial` has to follow; until then the unlabeled nodes are the greatest tight cut of the arc. The rest is
/// as at `raise_by_tree`.
pub fn raise_within_unlabeled<L: Ledger>(
    circ: &mut CirculationMut<'_>,
    tree: &mut ResidualTree<'_>,
    arc: u32,
    exit: u32,
    want: u64,
    max_pushes: u32,
    pushes: &mut Steps<L>,
) -> TreeRaised
    requires arc { arc < arcs circ.old }
    requires want { want ≤ slice_index circ.old.upper arc }
    requires less { flow_of circ.old arc ≤ want }
    requires held { flow_of circ.old arc ≡ slice_index circ.old.lower arc }
    requires exit { exit < arcs circ.old }
    requires head { slice_index circ.old.from exit ≡ slice_index circ.old.to arc }
    requires out { slice_index circ.old.to exit ≡ circ.old.nodes }
    requires tree { IsResidualTree circ.old tree.old }

    ensures kept { IsCirculation circ.new }
    ensures rest { IsRaisedOver circ.old circ.new arc }
    ensures held { flow_of circ.new arc ≡ slice_index circ.new.lower arc }
    ensures rises { flow_of circ.old arc ≤ flow_of circ.new arc }
    ensures limit { flow_of circ.new arc ≤ want }
    ensures met { (result ≡ TreeRaised.Met) ↔ (flow_of circ.new arc ≡ want) }
    ensures tree { result ≢ TreeRaised.Stopped → IsResidualTree circ.new tree.new }

    // After Stopped no flow has more on the arc.
    ensures artificial { result ≡ TreeRaised.Stopped → HasArtificialStep circ.new tree.new (2 * exit + 1) }
    ensures cut { result ≡ TreeRaised.Stopped →
        IsGreatestCut (network circ.new) (flow_of circ.new) arc (unlabeled circ.new tree.new) }

    // Each push raises the flow, and Unfinished comes only where all pushes were made, the exit is full, or the head is
    // labeled. Before the first push the head is as it was at first.
    ensures count { pushes.old ≤ pushes.new }
    ensures cost { pushes.new ≤ pushes.old + max_pushes }
    ensures each { flow_of circ.old arc + (pushes.new - pushes.old) ≤ flow_of circ.new arc }
    ensures unfinished { result ≡ TreeRaised.Unfinished → (pushes.new ≡ pushes.old + max_pushes) ⊎
        (IsFull circ.new exit ⊎ IsLabeled tree.new (slice_index circ.old.to arc)) }
    ensures at_first { result ≡ TreeRaised.Unfinished → pushes.new ≡ pushes.old → 0 < max_pushes →
        IsFull circ.new exit ⊎ IsLabeled tree.old (slice_index circ.old.to arc) }
{
    let ends = circ.ends(arc);
    for _pushes in 0..max_pushes {
        let flow = circ.flow(arc);
        if flow == want {
            return TreeRaised::Met;
        }
        if tree.word(ends.to) != 0 {
            return TreeRaised::Unfinished;
        }
        tree.add_artificial(circ, exit);
        if tree.word(ends.from) == 0 {
            return TreeRaised::Stopped;
        }
        let artificial = 2 * u64::from(exit) + 1;
        if !round(circ, tree, arc, exit, want - flow, artificial, pushes) {
            tree.drop_artificial(circ, exit);
            return TreeRaised::Unfinished;
        }
    }
    if circ.flow(arc) == want {
        TreeRaised::Met
    } else {
        TreeRaised::Unfinished
    }
}
