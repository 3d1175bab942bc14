//! The worked networks, raised along the residual tree.
ghost use Rattle.std.specs.Prelude.{◌≡◌, ◌<◌, length};
ghost use Rattle.residual_tree.specs.Tree.{IsResidualTree};
ghost use Rattle.residual_tree.specs.TreeWords.{tree_words};

use crate::networks::{
    Case, Turn, begin, cases, compare_flows, hold_all, leads_outside, lend, open,
};
use augment::Raised;
use circulation::CirculationMut;
use residual_tree::{ResidualTree, TreeRaised, raise_by_tree, tree_words};
use std::alloc::{AllocError, Global};
use std::marker::Brand;
use std::process::Abort;
use std::sync::ledger::{Blank, Ledger};
use steps::Steps;

/// More raises than any turn needs, if each may push once.
const MAX_RAISES: u32 = 10;

/// Raises the arc of a turn along the tree, by at most `max_pushes` pushes. A turn may want less than there is,
/// which `raise_by_tree` does not take: then the flow is held, and that is Met.
fn pull<L: Ledger, R: Abort>(
    rt: &R,
    circ: &mut CirculationMut<'_>,
    tree: &mut ResidualTree<'_>,
    turn: &Turn,
    max_pushes: u32,
    pushes: &mut Steps<L>,
) -> TreeRaised
    requires { IsResidualTree circ.old tree.old }
    ensures { IsResidualTree circ.new tree.new }
{
    let Turn(arc, want, _, _) = turn;
    assert!(rt; *arc < circ.arcs());
    assert!(rt; leads_outside(circ, *arc));
    assert!(rt; *want <= circ.flow(*arc) + circ.room(*arc, true));
    let flow = circ.flow(*arc);
    if *want < flow {
        tree.hold(circ, *arc, flow);
        return TreeRaised::Met;
    }
    raise_by_tree(circ, tree, *arc, *arc, *want, max_pushes, pushes)
}

/// The flow on the arc of a turn.
fn flow<R: Abort>(rt: &R, circ: &CirculationMut<'_>, turn: &Turn) -> u64 {
    assert!(rt; turn.0 < circ.arcs());
    circ.flow(turn.0)
}

/// Compares what a turn came to and the flow that it left.
fn compare_turn<R: Abort>(
    rt: &R,
    circ: &CirculationMut<'_>,
    turn: &Turn,
    pulled: TreeRaised,
    name: &str,
) {
    let expected = match turn.2 {
        Raised::Met => TreeRaised::Met,
        Raised::Stopped => TreeRaised::Stopped,
    };
    assert!(rt; pulled == expected, "{name}");
    assert!(rt; flow(rt, circ, turn) == turn.3, "the flow of {name}");
}

/// Takes a turn by raises of at most `max_pushes` pushes each. Answers how many of the raises pushed.
fn play<L: Ledger, R: Abort>(
    rt: &R,
    circ: &mut CirculationMut<'_>,
    tree: &mut ResidualTree<'_>,
    turn: &Turn,
    name: &str,
    max_pushes: u32,
    pushes: &mut Steps<L>,
) -> u32
    requires { IsResidualTree circ.old tree.old }
    ensures { IsResidualTree circ.new tree.new }
{
    for raises in 0..MAX_RAISES {
        let before = flow(rt, circ, turn);
        let pulled = pull(rt, circ, tree, turn, max_pushes, pushes);
        // Each push raises the flow, and nothing else does.
        let pushed = before < flow(rt, circ, turn);
        if pulled != TreeRaised::Unfinished {
            compare_turn(rt, circ, turn, pulled, name);
            return raises + u32::from(pushed);
        }
        assert!(rt; pushed, "{name}");
    }
    panic!(rt; "the raises of {name}");
}

/// Takes the turns of a case by raises of at most `max_pushes` pushes each. Answers how many of the raises pushed.
fn play_all<L: Ledger, R: Abort>(
    rt: &R,
    circ: &mut CirculationMut<'_>,
    tree: &mut ResidualTree<'_>,
    case: &Case,
    max_pushes: u32,
    pushes: &mut Steps<L>,
) -> u32
    requires { IsResidualTree circ.old tree.old }
    ensures { IsResidualTree circ.new tree.new }
{
    let mut raises: u32 = 0;
    for turn in case.turns {
        let more = play(rt, circ, tree, turn, case.name, max_pushes, pushes);
        raises = raises.saturating_add(more);
    }
    raises
}

/// Compares the unlabeled nodes with those to which the last search does not come where the arcs are raised by
/// searches.
fn compare_unlabeled<R: Abort>(
    rt: &R,
    circ: &CirculationMut<'_>,
    tree: &ResidualTree<'_>,
    case: &Case,
)
    requires { IsResidualTree circ.now tree.now }
{
    for (node, came) in case.reached.iter().enumerate() {
        assert!(rt; node < circ.nodes() as usize);
        assert!(rt;
            tree.is_unlabeled(node as u32) != *came,
            "{} at node {node}",
            case.name
        );
    }
}

/// Plays a case that is begun along a tree in these words, and compares what it leaves. Answers how many raises pushed.
fn play_over<L: Ledger, R: Abort>(
    rt: &R,
    circ: &mut CirculationMut<'_>,
    words: &mut [u64],
    case: &Case,
    max_pushes: u32,
    pushes: &mut Steps<L>,
) -> u32
    requires { length words.old ≡ tree_words circ.old.nodes }
{
    // Months are planted in the order of the network; without an order all steps are looked at.
    let mut tree = ResidualTree::plant(circ, &[], words);
    let raises = play_all(rt, circ, &mut tree, case, max_pushes, pushes);
    compare_unlabeled(rt, circ, &tree, case);
    compare_flows(rt, circ, case);
    raises
}

/// Plays a case from its start. Answers how many raises pushed.
fn play_from_start<L: Ledger, R: Abort>(
    rt: &R,
    alloc: Global,
    circ: &mut CirculationMut<'_>,
    case: &Case,
    max_pushes: u32,
    pushes: &mut Steps<L>,
) -> Result<u32, AllocError> {
    begin(rt, alloc, circ, case)?;
    hold_all(rt, circ, case);
    let mut words = vec![in alloc; 0; tree_words(circ.nodes())]?;
    let raises = play_over(rt, circ, &mut words, case, max_pushes, pushes);
    drop(words);
    Ok(raises)
}

/// Opens a case and plays it. Answers how many raises pushed.
fn run<L: Ledger, R: Abort>(
    rt: &R,
    alloc: Global,
    blank: Blank,
    case: &Case,
    max_pushes: u32,
) -> Result<u32, AllocError>
    requires name { blank.name ≡ L.name }
    requires parts { blank.parts ≡ L.parts }
    requires some { 0 < blank.parts }
{
    let mut laid = open(rt, alloc, case)?;
    let place = laid.circ.place;
    let mut circ = lend(&laid.circ, laid.region.words_mut(place));
    let mut pushes: Steps<L> = Steps::new(blank);
    let raises = play_from_start(rt, alloc, &mut circ, case, max_pushes, &mut pushes);
    drop(laid);
    raises
}

/// Plays one case under a ledger of its own.
fn run_alone<R: Abort>(
    rt: &R,
    alloc: Global,
    case: &Case,
    max_pushes: u32,
) -> Result<u32, AllocError> {
    run::<Brand, R>(rt, alloc, Blank::new(1), case, max_pushes)
}

/// Plays all cases by raises of at most `max_pushes` pushes each. Answers how many raises pushed.
fn run_all<R: Abort>(rt: &R, alloc: Global, max_pushes: u32) -> Result<u32, AllocError> {
    let mut raises: u32 = 0;
    for case in cases() {
        raises = raises.saturating_add(run_alone(rt, alloc, case, max_pushes)?);
    }
    Ok(raises)
}

/// No turn needs more than two pushes, so that with ten each ends by one raise. Thirteen turns raise a flow.
#[test]
fn pulls_as_worked_out(rt: HostRuntime) -> Result<(), AllocError> {
    assert!(rt; run_all(&rt, rt.alloc(), 10)? == 13);
    Ok(())
}

/// A counter of searches has no value when the tests run. Where a raise has one push, the raises that push are as
/// many as the pushes. Counted by hand, they are 2 in each of the cases of the junior, the parallel arcs, the senior's
/// amount, the narrow canal and the canals both ways; none where the flow is there already, the canal is shut or there
/// is no water; and 1 in each of the six others.
#[test]
fn pushes_as_worked_out(rt: HostRuntime) -> Result<(), AllocError> {
    assert!(rt; run_all(&rt, rt.alloc(), 1)? == 16);
    Ok(())
}
