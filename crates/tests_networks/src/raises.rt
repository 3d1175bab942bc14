//! The worked networks, raised by searches.
ghost use Rattle.std.specs.Prelude.{◌≡◌, ◌<◌};

use crate::networks::{
    Case, Turn, begin, cases, compare_flows, hold, hold_all, leads_outside, lend, open,
};
use augment::{raise, reached};
use circulation::CirculationMut;
use std::alloc::{AllocError, Global};
use std::marker::Brand;
use std::process::Abort;
use std::sync::ledger::{Blank, Ledger};
use steps::Steps;

/// Takes a turn, and holds what it came to.
fn play<L: Ledger, R: Abort>(
    rt: &R,
    circ: &mut CirculationMut<'_>,
    turn: &Turn,
    name: &str,
    pushes: &mut Steps<L>,
) {
    let Turn(arc, want, raised, flow) = turn;
    assert!(rt; *arc < circ.arcs());
    assert!(rt; leads_outside(circ, *arc));
    assert!(rt; *want <= circ.flow(*arc) + circ.room(*arc, true));
    assert!(rt; raise(circ, *arc, *want, pushes) == *raised, "{name}");
    assert!(rt; circ.flow(*arc) == *flow, "the flow of {name}");
    hold(rt, circ, *arc, *flow);
}

/// Takes the turns of a case.
fn play_all<L: Ledger, R: Abort>(
    rt: &R,
    circ: &mut CirculationMut<'_>,
    case: &Case,
    pushes: &mut Steps<L>,
) {
    for turn in case.turns {
        play(rt, circ, turn, case.name, pushes);
    }
}

/// Compares where the last search came.
fn compare_reached<R: Abort>(rt: &R, circ: &CirculationMut<'_>, case: &Case) {
    for (node, came) in case.reached.iter().enumerate() {
        assert!(rt; node < circ.nodes() as usize);
        assert!(rt;
            reached(circ, node as u32) == *came,
            "{} at node {node}",
            case.name
        );
    }
}

/// Plays a case from its start, and compares what it leaves.
fn play_from_start<L: Ledger, R: Abort>(
    rt: &R,
    alloc: Global,
    circ: &mut CirculationMut<'_>,
    case: &Case,
    pushes: &mut Steps<L>,
) -> Result<(), AllocError> {
    begin(rt, alloc, circ, case)?;
    hold_all(rt, circ, case);
    play_all(rt, circ, case, pushes);
    compare_reached(rt, circ, case);
    compare_flows(rt, circ, case);
    Ok(())
}

/// Opens a case and plays it.
fn run<L: Ledger, R: Abort>(
    rt: &R,
    alloc: Global,
    blank: Blank,
    case: &Case,
) -> Result<(), AllocError>
    requires name { blank.name ≡ L.name }
    requires parts { blank.parts ≡ L.parts }
    requires some { 0 < blank.parts }
{
    let mut laid = open(rt, alloc, case)?;
    let place = laid.circ.place;
    let mut circ = lend(&laid.circ, laid.region.words_mut(place));
    let mut pushes: Steps<L> = Steps::new(blank);
    let played = play_from_start(rt, alloc, &mut circ, case, &mut pushes);
    drop(laid);
    played
}

/// Plays one case under a ledger of its own.
fn run_alone<R: Abort>(rt: &R, alloc: Global, case: &Case) -> Result<(), AllocError> {
    run::<Brand, R>(rt, alloc, Blank::new(1), case)
}

#[test]
fn raises_as_worked_out(rt: HostRuntime) -> Result<(), AllocError> {
    for case in cases() {
        run_alone(&rt, rt.alloc(), case)?;
    }
    Ok(())
}
