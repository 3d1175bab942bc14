//! A month's rights, one after another, seniors first.
//!
//! By the tree, water stays where it rises: a month begins with nothing on the links and each node's supply on its
//! spill. By searches a month goes on from a plan, and only outlets let water out. What is left on the spills at the
//! end runs down the rivers. No delivery changes by that, as a tight cut bounds every plan.
ghost use Rattle.std.specs.Prelude.{◌≡◌, ℕ, ◌+◌, ◌*◌, ◌^◌, ◌<◌, ◌≤◌, length, slice_index};
ghost use Rattle.water_model.specs.Plans.{IsPlan};
ghost use Rattle.circulation.specs.Contents.{network, flow_of};
ghost use Rattle.residual_tree.specs.TreeWords.{tree_words};
ghost use Rattle.river_net.specs.Net.{total_of};
ghost use Rattle.senior_hold.specs.MonthNetwork.{HasBasinEnds, right_arc, right_exit};
ghost use Rattle.senior_hold.specs.Arcs.{AreBounds};
ghost use Rattle.senior_hold.specs.Solved.{FitsPlan};
ghost use Rattle.senior_hold.specs.Layouts.{FitsRoom};
ghost use Rattle.senior_hold.specs.Givens.{IsGivens, CanBegin, IsSweep};
ghost use Rattle.senior_hold.specs.Places.{HasArcs};
ghost use Rattle.senior_hold.specs.Spilled.{spilled, spills_of, spill_most, IsBegun};
ghost use Rattle.senior_hold.specs.Spilled.{IsSpilledStart, IsSettledPlan};

use crate::amounts::{lay, read_links, read_spills, read_takes, write_bounds, write_outlets};
use crate::arcs::Position;
use crate::serving::{Claim, Turn, serve_by};
use crate::solver::{Layout, Room};
use circulation::{Circulation, CirculationMut};
use residual_tree::ResidualTree;
use std::sync::ledger::Ledger;
use steps::Steps;
use water_model::cut_list::CutList;
use water_model::types::{Basin, Plan, RIVER_CARRY};
use water_text::month::Month;

/// The pushes that a month may have for each of its rights.
const PUSHES_PER_RIGHT: u32 = 30;

/// A way to serve the rights of a month.
#[derive(Clone, Copy, Debug, PartialEq, Eq)]
pub enum Method {
    /// By the residual tree, with at most 30 pushes for each right on average.
    Tree,
    /// By pushes, beginning with a plan of the month.
    Searches,
}

/// What a month's plan is sought for, and by which method. Supplies are indexed by node, wants by right.
#[derive(Drop)]
pub struct Givens<'b, 's, 'm> {
    pub method: Method,
    pub basin: &'b Basin,
    pub layout: &'s Layout,
    pub month: Month,
    pub supply: &'m [u64],
    pub want: &'m [u64],
}

/// Writes the most that each node may spill.
fn write_spills(method: Method, basin: &Basin, most: &mut [u64])
    requires { length most.old ≡ length basin.now.nodes }
    ensures { (n : ℕ) → n < length basin.now.nodes → slice_index most.new n ≡ spill_most basin.now method n }
{
    match method {
        Method::Tree => most.fill(RIVER_CARRY),
        Method::Searches => write_outlets(basin, most),
    }
}

/// Writes the bounds of a month.
fn write_uppers(givens: &Givens, room: &mut Room)
    requires givens { IsGivens givens.now }
    requires room { FitsRoom givens.now.basin.now room.old }
    ensures room { FitsRoom givens.now.basin.now room.new }
    ensures bounds { let g = givens.now in AreBounds (spilled g.basin.now) g.month g.want.now
        (spill_most g.basin.now g.method) (slice_index room.new.upper.items) }
{
    write_spills(givens.method, givens.basin, room.most.out.as_mut_slice());
    write_bounds(
        givens.basin,
        &givens.layout.arcs,
        &givens.layout.dailies,
        givens.month,
        givens.want,
        room.most.out.as_slice(),
        &mut room.upper,
    );
}

/// Starts a month with no arc held: by the tree with all supply spilled where it comes in, by searches from the plan.
/// The words that change may hold anything.
fn begin<'r>(
    givens: &Givens,
    room: &mut Room,
    held: &Circulation,
    fixed: &'r [u64],
    moving: &'r mut [u64],
    plan: &Plan,
) -> CirculationMut<'r>
    requires givens { IsGivens givens.now }
    requires room { FitsRoom givens.now.basin.now room.old }
    requires arcs { HasArcs givens.now.basin.now held.now fixed.now moving.old }
    requires plan { let g = givens.now in
        g.method ≡ Method.Searches → IsPlan g.basin.now g.month g.supply.now g.want.now plan.now }
    ensures room { FitsRoom givens.now.basin.now room.new }
    ensures begun { let g = givens.now in IsBegun g.basin.now g.method g.month g.supply.now g.want.now result }
    ensures start { let g = givens.now in g.method ≡ Method.Tree → IsSpilledStart g.basin.now g.supply.now result }
{
    write_uppers(givens, room);
    let supply = givens.supply;
    match givens.method {
        // The spills are the last arcs, in the order of the nodes.
        Method::Tree => held.lend_month(fixed, moving, supply, &room.upper, supply),
        Method::Searches => {
            lay(givens.basin, &givens.layout.arcs, plan, &mut room.start);
            held.lend_month(fixed, moving, supply, &room.upper, &room.start)
        }
    }
}

/// What the right whose turn it is claims. All but the want lies in the order of the turns, so that a turn doesn't have
/// to look for it in three lists.
fn claim_of(givens: &Givens, turn: usize) -> Claim
    requires givens { IsGivens givens.now }
    requires turn { turn < length givens.now.basin.now.rights }
    ensures right { result.right ≡ slice_index givens.now.layout.now.roll.order turn }
    ensures arc { result.arc ≡ right_arc givens.now.basin.now result.right }
    ensures exit { result.exit ≡ right_exit givens.now.basin.now result.right }
    ensures want { result.want ≡ slice_index givens.now.want.now result.right }
{
    let Position { right, arc, exit } = givens.layout.positions[turn];
    let want = givens.want[right as usize];
    Claim {
        right,
        arc,
        exit,
        want,
    }
}

/// Adds the flows of a run to flows.
fn add_run(run: &[u64], flow: &mut [u64])
    requires count { length run.now ≡ length flow.old }
    requires fits { (e : ℕ) → e < length flow.old → slice_index flow.old e + slice_index run.now e < 2 ^ 64 }
    ensures { (e : ℕ) → e < length flow.old → slice_index flow.new e ≡ slice_index flow.old e + slice_index run.now e }
{
    for link in 0..flow.len() {
        flow[link] += run[link];
    }
}

/// Writes the plan of a flow: what is spilled runs down the rivers, and leaves the basin at outlets.
fn settle_plan(givens: &Givens, room: &mut Room, circ: &CirculationMut<'_>, plan: &mut Plan)
    requires givens { IsGivens givens.now }
    requires room { FitsRoom givens.now.basin.now room.old }
    requires ends { HasBasinEnds (spilled givens.now.basin.now) (network circ.now) }
    requires plan { FitsPlan givens.now.basin.now plan.old }
    requires small { total_of (spills_of givens.now.basin.now (flow_of circ.now)) < 10 ^ 15 }
    ensures room { FitsRoom givens.now.basin.now room.new }
    ensures fits { FitsPlan givens.now.basin.now plan.new }
    ensures settled { IsSettledPlan givens.now.basin.now (flow_of circ.now) plan.new }
{
    let basin = givens.basin;
    let layout = givens.layout;
    // This call says that the circulation is kept.
    let _nodes = circ.nodes();
    read_spills(basin, circ, &layout.arcs, room.most.out.as_mut_slice());
    read_links(circ, plan.flow.as_mut_slice());
    read_takes(basin, circ, &layout.arcs, plan.take.as_mut_slice());
    layout.net.natural(
        room.most.out.as_slice(),
        room.most.flow.as_mut_slice(),
        plan.out.as_mut_slice(),
    );
    add_run(room.most.flow.as_slice(), plan.flow.as_mut_slice());
}

/// What a sweep came to.
#[derive(Clone, Copy, Debug, PartialEq, Eq)]
pub enum Sweep {
    /// The month is solved.
    Solved,
    /// The pushes were used up: more than 29 for each right were made.
    GaveUp,
}

/// Serves the rights by a method, seniors first, and writes the plan. Of the budget each turn by the tree loses at most
/// one push, its last, so that GaveUp comes only after more than 29 pushes for each right. By searches it begins with
/// the plan that it is given, and never gives up.
pub fn sweep_month<L: Ledger>(
    givens: &Givens,
    room: &mut Room,
    held: &Circulation,
    fixed: &[u64],
    moving: &mut [u64],
    words: &mut [u64],
    plan: &mut Plan,
    cuts: &mut CutList,
    pushes: &mut Steps<L>,
) -> Sweep
    requires givens { IsGivens givens.now }
    requires room { FitsRoom givens.now.basin.now room.old }
    requires arcs { HasArcs givens.now.basin.now held.now fixed.now moving.old }
    requires size { length words.old ≡ tree_words (length givens.now.basin.now.nodes) }
    requires begin { CanBegin givens.now plan.old cuts.old }
    ensures room { FitsRoom givens.now.basin.now room.new }
    ensures swept { IsSweep givens.now plan.new cuts.new pushes.old pushes.new result }
{
    let mut circ = begin(givens, room, held, fixed, moving, plan);
    let mut tree = ResidualTree::plant(&circ, givens.layout.net.order(), words);
    let turns = givens.layout.positions.len();
    let mut left = PUSHES_PER_RIGHT * turns as u32;
    for turn in 0..turns {
        let claim = claim_of(givens, turn);
        let turn = serve_by(
            givens.method,
            &mut circ,
            &mut tree,
            claim,
            cuts,
            &mut left,
            pushes,
        );
        if turn == Turn::GaveUp {
            settle_plan(givens, room, &circ, plan);
            return Sweep::GaveUp;
        }
    }
    settle_plan(givens, room, &circ, plan);
    Sweep::Solved
}
