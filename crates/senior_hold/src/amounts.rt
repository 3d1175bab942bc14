//! Amounts by arc: the bounds of a month, and plans as flows and back.
ghost use Rattle.std.specs.Prelude.{◌≡◌, ℕ, ◌+◌, ◌^◌, ◌<◌, ◌≤◌, length, slice_index};
ghost use Rattle.finite_sums.specs.Sums.{when};
ghost use Rattle.water_text.specs.Months.{IsMonth};
ghost use Rattle.water_model.specs.Basin.{is_outlet};
ghost use Rattle.water_model.specs.Plans.{carry_of};
ghost use Rattle.water_model.specs.Valid.{IsValidBasin};
ghost use Rattle.circulation.specs.Contents.{network, flow_of, arcs};
ghost use Rattle.senior_hold.specs.MonthNetwork.{arc_count, taker_count, take_arc, spill_arc, takes, list_of};
ghost use Rattle.senior_hold.specs.Carries.{AreDailies};
ghost use Rattle.senior_hold.specs.Arcs.{AreArcs, AreAmounts, AreAmountsOf, AreBounds};
ghost use Rattle.senior_hold.specs.Solved.{FitsPlan};
ghost use Rattle.senior_hold.specs.Spilled.{spilled, spills_of};

use crate::arcs::Arcs;
use crate::carries::lay_carries;
use circulation::CirculationMut;
use water_model::rows::Rows;
use water_model::types::{Basin, Plan, RIVER_CARRY};
use water_text::month::Month;

/// Writes the flows of links at their indices.
fn lay_flows(basin: &Basin, flow: &[u64], into: &mut [u64])
    requires flow { length flow.now ≡ length basin.now.links }
    requires into { length basin.now.links ≤ length into.old }
    ensures { (e : ℕ) → e < length basin.now.links → slice_index into.new e ≡ slice_index flow.now e }
{
    for link in 0..basin.links.len() {
        into[link] = flow[link];
    }
}

/// Whether a right's arc is that of its take, which comes after the links.
fn is_taker(basin: &Basin, arcs: &Arcs, right: usize) -> bool
    requires valid { IsValidBasin basin.now }
    requires arcs { AreArcs basin.now arcs.now }
    requires right { right < length basin.now.rights }
    ensures { result ≡ takes basin.now right }
{
    arcs.rights[right] as usize >= basin.links.len()
}

/// Writes what rights take at the indices of their arcs.
fn lay_takes(basin: &Basin, arcs: &Arcs, take: &[u64], into: &mut [u64])
    requires valid { IsValidBasin basin.now }
    requires arcs { AreArcs basin.now arcs.now }
    requires take { length take.now ≡ length basin.now.rights }
    requires into { length basin.now.links + taker_count basin.now ≤ length into.old }
    ensures { (p : Plan) → p.take ≡ take.now →
        AreAmountsOf basin.now p (slice_index into.old) (length basin.now.links) 0 0 →
        AreAmountsOf basin.now p (slice_index into.new) (length basin.now.links) (length basin.now.rights) 0 }
{
    for right in 0..basin.rights.len() {
        if is_taker(basin, arcs, right) {
            into[arcs.rights[right] as usize] = take[right];
        }
    }
}

/// Writes outflows, indexed by node, at the indices of the spills.
fn lay_spills(basin: &Basin, arcs: &Arcs, out: &[u64], into: &mut [u64])
    requires valid { IsValidBasin basin.now }
    requires arcs { AreArcs basin.now arcs.now }
    requires out { length out.now ≡ length basin.now.nodes }
    requires into { length into.old ≡ arc_count (spilled basin.now) }
    ensures { (p : Plan) → p.out ≡ out.now →
        AreAmountsOf basin.now p (slice_index into.old) (length basin.now.links) (length basin.now.rights) 0 →
        AreAmounts (spilled basin.now) p (slice_index into.new) }
{
    let first = arcs.spill as usize;
    for node in 0..basin.nodes.len() {
        into[first + node] = out[node];
    }
}

/// Writes the amounts of a plan, which may let water out at each node, at the indices of their arcs.
pub fn lay(basin: &Basin, arcs: &Arcs, plan: &Plan, into: &mut [u64])
    requires valid { IsValidBasin basin.now }
    requires arcs { AreArcs basin.now arcs.now }
    requires plan { FitsPlan basin.now plan.now }
    requires into { length into.old ≡ arc_count (spilled basin.now) }
    ensures { AreAmounts (spilled basin.now) plan.now (slice_index into.new) }
{
    lay_flows(basin, plan.flow.as_slice(), into);
    lay_takes(basin, arcs, plan.take.as_slice(), into);
    lay_spills(basin, arcs, plan.out.as_slice(), into);
}

/// As much as a river carries where a node is an outlet, and else nothing.
pub fn write_outlets(basin: &Basin, into: &mut [u64])
    requires { length into.old ≡ length basin.now.nodes }
    ensures { (n : ℕ) → n < length basin.now.nodes → slice_index into.new n ≡ when (is_outlet basin.now n) (10 ^ 15) }
{
    for node in 0..basin.nodes.len() {
        into[node] = if basin.nodes[node].outlet {
            RIVER_CARRY
        } else {
            0
        };
    }
}

/// The most that each arc may have in a month: for a link its carry, for a take the want of its right, and for a spill
/// its amount of `out`, which is indexed by node. `dailies` has what links carry in a day of each calendar month.
pub fn write_bounds(
    basin: &Basin,
    arcs: &Arcs,
    dailies: &[Rows<u64>],
    month: Month,
    want: &[u64],
    out: &[u64],
    upper: &mut [u64],
)
    requires valid { IsValidBasin basin.now }
    requires month { IsMonth month }
    requires arcs { AreArcs basin.now arcs.now }
    requires dailies { AreDailies basin.now dailies.now }
    requires want { length want.now ≡ length basin.now.rights }
    requires out { length out.now ≡ length basin.now.nodes }
    requires upper { length upper.old ≡ arc_count (spilled basin.now) }
    ensures { AreBounds (spilled basin.now) month want.now (slice_index out.now) (slice_index upper.new) }
{
    lay_carries(basin, dailies, month, upper);
    lay_takes(basin, arcs, want, upper);
    lay_spills(basin, arcs, out, upper);
}

/// Reads the flow of each link.
pub fn read_links(circ: &CirculationMut<'_>, into: &mut [u64])
    requires { length into.old ≤ arcs circ.now }
    ensures { into.new ≡ list_of (length into.old) (flow_of circ.now) }
{
    let _arcs = circ.arcs();
    for link in 0..into.len() as u32 {
        into[link as usize] = circ.flow(link);
    }
}

/// Reads what each right takes.
pub fn read_takes(basin: &Basin, circ: &CirculationMut<'_>, arcs: &Arcs, into: &mut [u64])
    requires valid { IsValidBasin basin.now }
    requires inside { length basin.now.links + taker_count basin.now ≤ length circ.now.from }
    requires into { length into.old ≡ length basin.now.rights }
    requires arcs { AreArcs basin.now arcs.now }
    ensures { into.new ≡ list_of (length basin.now.rights) (λ r.
        when (takes basin.now r) (flow_of circ.now (take_arc basin.now r))) }
{
    for right in 0..basin.rights.len() {
        into[right] = if is_taker(basin, arcs, right) {
            circ.flow(arcs.rights[right])
        } else {
            0
        };
    }
}

/// Reads what each node spills.
pub fn read_spills(basin: &Basin, circ: &CirculationMut<'_>, arcs: &Arcs, into: &mut [u64])
    requires spills { spill_arc basin.now (length basin.now.nodes) ≤ length circ.now.from }
    requires arcs { AreArcs basin.now arcs.now }
    requires into { length into.old ≡ length basin.now.nodes }
    ensures { into.new ≡ spills_of basin.now (flow_of circ.now) }
{
    let _arcs = circ.arcs();
    let first = arcs.spill;
    for node in 0..basin.nodes.len() {
        into[node] = circ.flow(first + node as u32);
    }
}
