//! The condition under which a month's draws may begin, as a test.
ghost use Rattle.std.specs.Prelude.{◌≡◌, IsTrue, ℕ, ◌+◌, ◌*◌, ◌^◌, ◌<◌, ◌≤◌, ◌==◌, false, length, slice_index};
ghost use Rattle.finite_sums.specs.Sums.{total, total_where};
ghost use Rattle.water_text.specs.Months.{IsMonth};
ghost use Rattle.water_model.specs.Basin.{tail_of, head_of, is_outlet};
ghost use Rattle.water_model.specs.Plans.{carry_of};
ghost use Rattle.water_model.specs.Valid.{IsValidBasin};
ghost use Rattle.draw_course.specs.Courses.{IsBalancedAt};

use water_model::calls::carry_of;
use water_model::types::Basin;
use water_text::month::Month;

/// More than all supply of a month, in units of 1,000 cubic metres.
const SUPPLY: u128 = 100_000_000_000_000;

/// Whether there is an amount for each node or link.
pub fn are_sized(
    basin: &Basin,
    supply: &[u64],
    taken: &[u64],
    held: &[u64],
    flow: &[u64],
    out: &[u64],
) -> bool
    ensures supply { IsTrue result → length supply.now ≡ length basin.now.nodes }
    ensures taken { IsTrue result → length taken.now ≡ length basin.now.nodes }
    ensures held { IsTrue result → length held.now ≡ length basin.now.links }
    ensures flow { IsTrue result → length flow.now ≡ length basin.now.links }
    ensures out { IsTrue result → length out.now ≡ length basin.now.nodes }
{
    let links = basin.links.len();
    let nodes = basin.nodes.len();
    supply.len() == nodes
        && taken.len() == nodes
        && held.len() == links
        && flow.len() == links
        && out.len() == nodes
}

/// Whether the amounts, of which there are few, sum to less than may run down one river.
pub fn are_little(amounts: &[u64]) -> bool
    requires { length amounts.now ≤ 2000 }
    ensures { IsTrue result → total (length amounts.now) (λ n. slice_index amounts.now n) < 10 ^ 14 }
{
    let mut sum = 0u128;
    for place in 0..amounts.len() {
        sum += u128::from(amounts[place]);
    }
    sum < SUPPLY
}

/// What the links that enter a node bring.
fn brought_to(basin: &Basin, flow: &[u64], node: u32) -> u128
    requires basin { IsValidBasin basin.now }
    requires flow { length flow.now ≡ length basin.now.links }
    ensures sum { result ≡ total_where (length basin.now.links) (λ e. head_of basin.now e == node) (slice_index flow.now) }
    ensures small { result < 2 ^ 80 }
{
    let mut sum = 0u128;
    for place in 0..flow.len() {
        if basin.links[place].to == node {
            sum += u128::from(flow[place]);
        }
    }
    sum
}

/// What the links that leave a node take.
fn led_from(basin: &Basin, flow: &[u64], node: u32) -> u128
    requires basin { IsValidBasin basin.now }
    requires flow { length flow.now ≡ length basin.now.links }
    ensures sum { result ≡ total_where (length basin.now.links) (λ e. tail_of basin.now e == node) (slice_index flow.now) }
    ensures small { result < 2 ^ 80 }
{
    let mut sum = 0u128;
    for place in 0..flow.len() {
        if basin.links[place].from == node {
            sum += u128::from(flow[place]);
        }
    }
    sum
}

/// Whether each link carries at least what is held on it, and at most what it can.
pub fn are_carried(basin: &Basin, month: Month, held: &[u64], flow: &[u64]) -> bool
    requires basin { IsValidBasin basin.now }
    requires month { IsMonth month }
    requires held { length held.now ≡ length basin.now.links }
    requires flow { length flow.now ≡ length basin.now.links }
    ensures { IsTrue result → (e : ℕ) → e < length basin.now.links →
        (slice_index held.now e ≤ slice_index flow.now e) × (slice_index flow.now e ≤ carry_of basin.now month e) }
{
    for link in 0..flow.len() {
        if held[link] > flow[link] || flow[link] > carry_of(basin, link as u32, month) {
            return false;
        }
    }
    true
}

/// Whether a node is in balance, and lets no water out unless it is an outlet.
fn is_balanced_at(
    basin: &Basin,
    supply: &[u64],
    taken: &[u64],
    flow: &[u64],
    out: &[u64],
    node: u32,
) -> bool
    requires basin { IsValidBasin basin.now }
    requires supply { length supply.now ≡ length basin.now.nodes }
    requires taken { length taken.now ≡ length basin.now.nodes }
    requires flow { length flow.now ≡ length basin.now.links }
    requires out { length out.now ≡ length basin.now.nodes }
    requires node { node < length basin.now.nodes }
    ensures outlet { IsTrue result → is_outlet basin.now node ≡ false → slice_index out.now node ≡ 0 }
    ensures balance { IsTrue result → IsBalancedAt basin.now supply.now taken.now flow.now out.now node }
{
    let place = node as usize;
    if !basin.nodes[place].outlet && out[place] > 0 {
        return false;
    }
    let gained = u128::from(supply[place]) + brought_to(basin, flow, node);
    let led = led_from(basin, flow, node) + u128::from(taken[place]);
    gained == led + u128::from(out[place])
}

/// Whether each node is in balance, and water leaves the basin at outlets alone.
pub fn are_balanced(basin: &Basin, supply: &[u64], taken: &[u64], flow: &[u64], out: &[u64]) -> bool
    requires basin { IsValidBasin basin.now }
    requires supply { length supply.now ≡ length basin.now.nodes }
    requires taken { length taken.now ≡ length basin.now.nodes }
    requires flow { length flow.now ≡ length basin.now.links }
    requires out { length out.now ≡ length basin.now.nodes }
    ensures outlets { IsTrue result → (n : ℕ) → n < length basin.now.nodes → is_outlet basin.now n ≡ false →
        slice_index out.now n ≡ 0 }
    ensures balance { IsTrue result → (n : ℕ) → n < length basin.now.nodes →
        IsBalancedAt basin.now supply.now taken.now flow.now out.now n }
{
    for node in 0..basin.nodes.len() as u32 {
        if !is_balanced_at(basin, supply, taken, flow, out, node) {
            return false;
        }
    }
    true
}
