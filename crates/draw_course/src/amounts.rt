//! Amounts by arc: with what a month begins, and what it ends with.
ghost use Rattle.std.specs.Prelude.{◌≡◌, ℕ, ◌+◌, ◌^◌, ◌<◌, ◌≤◌, length, slice_index};
ghost use Rattle.finite_sums.specs.Sums.{when};
ghost use Rattle.water_text.specs.Months.{IsMonth};
ghost use Rattle.water_model.specs.Basin.{is_outlet};
ghost use Rattle.water_model.specs.Plans.{carry_of};
ghost use Rattle.water_model.specs.Valid.{IsValidBasin};
ghost use Rattle.circulation.specs.Contents.{arcs, flow_of, IsCirculation};
ghost use Rattle.draw_course.specs.Draws.{AreDraws};
ghost use Rattle.draw_course.specs.Arcs.{arc_count, amount_at};
ghost use Rattle.draw_course.specs.Raising.{SameButLower, IsHeldFrom};

use crate::arcs::{Part, arc_count, part_of};
use crate::draws::DrawNodes;
use circulation::CirculationMut;
use water_model::calls::carry_of;
use water_model::rows::Rows;
use water_model::types::{Basin, RIVER_CARRY};
use water_text::month::Month;

/// The most that an arc may carry before any draw.
fn most_on(basin: &Basin, draws: &Rows<DrawNodes>, month: Month, taken: &[u64], arc: u32) -> u64
    requires basin { IsValidBasin basin.now }
    requires month { IsMonth month }
    requires taken { length taken.now ≡ length basin.now.nodes }
    requires arc { arc < arc_count basin.now (length draws.now) }
    ensures { let b = basin.now in
        result ≡ amount_at b (carry_of b month) (slice_index taken.now) (λ n. when (is_outlet b n) (10 ^ 15)) (λ k. 0)
        arc }
{
    match part_of(basin, draws, arc) {
        Part::Link(link) => carry_of(basin, link, month),
        Part::Take(node) => taken[node as usize],
        Part::Out(node) => {
            if basin.nodes[node as usize].outlet {
                RIVER_CARRY
            } else {
                0
            }
        }
        Part::Draw(_draw) => 0,
    }
}

/// Writes the most that each arc may carry before any draw.
pub fn write_bounds(
    basin: &Basin,
    draws: &Rows<DrawNodes>,
    month: Month,
    taken: &[u64],
    upper: &mut [u64],
)
    requires basin { IsValidBasin basin.now }
    requires draws { AreDraws basin.now draws.now }
    requires month { IsMonth month }
    requires taken { length taken.now ≡ length basin.now.nodes }
    requires upper { length upper.old ≡ arc_count basin.now (length draws.now) }
    ensures { let b = basin.now in (a : ℕ) → a < arc_count b (length draws.now) →
        slice_index upper.new a ≡
        amount_at b (carry_of b month) (slice_index taken.now) (λ n. when (is_outlet b n) (10 ^ 15)) (λ k. 0) a }
{
    for arc in 0..arc_count(basin, draws) {
        upper[arc as usize] = most_on(basin, draws, month, taken, arc);
    }
}

/// What an arc carries before any draw.
fn amount_on(
    basin: &Basin,
    draws: &Rows<DrawNodes>,
    flow: &[u64],
    taken: &[u64],
    out: &[u64],
    arc: u32,
) -> u64
    requires basin { IsValidBasin basin.now }
    requires flow { length flow.now ≡ length basin.now.links }
    requires taken { length taken.now ≡ length basin.now.nodes }
    requires out { length out.now ≡ length basin.now.nodes }
    requires arc { arc < arc_count basin.now (length draws.now) }
    ensures { result ≡
        amount_at basin.now (slice_index flow.now) (slice_index taken.now) (slice_index out.now) (λ k. 0) arc }
{
    match part_of(basin, draws, arc) {
        Part::Link(link) => flow[link as usize],
        Part::Take(node) => taken[node as usize],
        Part::Out(node) => out[node as usize],
        Part::Draw(_draw) => 0,
    }
}

/// Writes what each arc carries before any draw.
pub fn write_amounts(
    basin: &Basin,
    draws: &Rows<DrawNodes>,
    flow: &[u64],
    taken: &[u64],
    out: &[u64],
    start: &mut [u64],
)
    requires basin { IsValidBasin basin.now }
    requires draws { AreDraws basin.now draws.now }
    requires flow { length flow.now ≡ length basin.now.links }
    requires taken { length taken.now ≡ length basin.now.nodes }
    requires out { length out.now ≡ length basin.now.nodes }
    requires start { length start.old ≡ arc_count basin.now (length draws.now) }
    ensures { (a : ℕ) → a < arc_count basin.now (length draws.now) → slice_index start.new a ≡
        amount_at basin.now (slice_index flow.now) (slice_index taken.now) (slice_index out.now) (λ k. 0) a }
{
    for arc in 0..arc_count(basin, draws) {
        start[arc as usize] = amount_on(basin, draws, flow, taken, out, arc);
    }
}

/// Holds amounts on the arcs from `first` on, on which nothing was held.
pub fn hold_from(circ: &mut CirculationMut<'_>, first: u32, amounts: &[u64])
    requires inside { first + length amounts.now ≤ arcs circ.old }
    requires fits { (i : ℕ) → i < length amounts.now → slice_index amounts.now i ≤ flow_of circ.old (first + i) }
    requires free { (i : ℕ) → i < length amounts.now → slice_index circ.old.lower (first + i) ≡ 0 }
    ensures kept { IsCirculation circ.new }
    ensures rest { SameButLower circ.old circ.new }
    ensures held { IsHeldFrom circ.old.lower circ.new.lower first amounts.now (length amounts.now) }
{
    // These calls say that the circulation is kept, and that it has fewer than 2^32 arcs.
    let _nodes = circ.nodes();
    let _arcs = circ.arcs();
    for place in 0..amounts.len() as u32 {
        circ.hold(first + place, amounts[place as usize]);
    }
}

/// Reads the flow of the arcs from `first` on.
pub fn read_from(circ: &CirculationMut<'_>, first: u32, into: &mut [u64])
    requires { first + length into.old ≤ arcs circ.now }
    ensures { (i : ℕ) → i < length into.old → slice_index into.new i ≡ flow_of circ.now (first + i) }
{
    let _arcs = circ.arcs();
    for place in 0..into.len() as u32 {
        into[place as usize] = circ.flow(first + place);
    }
}
