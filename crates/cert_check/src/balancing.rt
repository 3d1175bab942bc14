//! Whether what comes into each node leaves it.
ghost use Rattle.std.specs.Prelude.{if◌then◌else◌, true, false, length, slice_index, slice_set};
ghost use Rattle.std.specs.Prelude.{ℕ, ◌≡◌, ◌+◌, ◌==◌, ◌^◌, ◌<◌, ◌≤◌};
ghost use Rattle.month_terms.specs.Terms.{FitsRecord};
ghost use Rattle.water_model.specs.Basin.{taking_node};
ghost use Rattle.water_model.specs.Plans.{inflow_to, outflow_from, taken_at};
ghost use Rattle.water_model.specs.Valid.{IsValidBasin};
ghost use Rattle.cert_check.specs.Checking.{balances};
ghost use Rattle.cert_check.specs.Keeping.{with_outflow};
ghost use Rattle.cert_check.specs.Ready.{AreSums, flow_at};

use month_terms::add::add_at;
use water_model::calls::taking_node;
use water_model::rows::Rows;
use water_model::types::{Basin, Link, MonthRecord};

/// The node that a link flows to, or else the one that it flows from.
fn end_of(link: &Link, to: bool) -> u32
    ensures { result ≡ (if to then link.now.to else link.now.from) }
{
    if to { link.to } else { link.from }
}

/// Adds at each node what flows to it on links, or else what flows from it.
fn add_flows(basin: &Basin, flow: &[u64], to: bool, sums: &mut [u64])
    requires basin { IsValidBasin basin.now }
    requires flow { length flow.now ≡ length basin.now.links }
    requires sums { length sums.old ≡ length basin.now.nodes }
    requires small { (n : ℕ) → n < length basin.now.nodes →
        slice_index sums.old n + flow_at basin.now to flow.now n < 2 ^ 64 }
    ensures length { length sums.new ≡ length sums.old }
    ensures each { (n : ℕ) → slice_index sums.new n ≡ slice_index sums.old n + flow_at basin.now to flow.now n }
{
    for link in 0..basin.links.len() {
        add_at(sums, end_of(&basin.links[link], to) as usize, flow[link]);
    }
}

/// Adds at each node what diversions and zones take there.
fn add_takes(basin: &Basin, take: &[u64], out_of: &mut [u64])
    requires basin { IsValidBasin basin.now }
    requires take { length take.now ≡ length basin.now.rights }
    requires out_of { length out_of.old ≡ length basin.now.nodes }
    requires small { (n : ℕ) → n < length basin.now.nodes →
        slice_index out_of.old n + taken_at basin.now take.now n < 2 ^ 64 }
    ensures length { length out_of.new ≡ length out_of.old }
    ensures each { (n : ℕ) → slice_index out_of.new n ≡ slice_index out_of.old n + taken_at basin.now take.now n }
{
    for right in 0..basin.rights.len() {
        match taking_node(basin, right as u32) {
            Some(node) => add_at(out_of, node as usize, take[right]),
            None => {}
        }
    }
}

/// Whether what comes in is what leaves and what goes out.
fn is_even(into: u64, out_of: u64, out: u64) -> bool
    ensures { result ≡ (into == out_of + out) }
{
    out_of <= into && into - out_of == out
}

/// What leaves the basin at `node`, where `amount` leaves it at the node `at`.
fn out_with(out: &[u64], at: u32, amount: u64, node: usize) -> u64
    requires at { at < length out.now }
    requires node { node < length out.now }
    ensures { result ≡ slice_index (slice_set out.now at amount) node }
{
    if node == at as usize {
        amount
    } else {
        out[node]
    }
}

/// Whether each node is in balance, by what comes into it, what leaves it and what leaves the basin there, which is
/// `amount` at the node `at`.
fn are_even(into: &[u64], out_of: &[u64], out: &[u64], at: u32, amount: u64) -> bool
    requires count { length out_of.now ≡ length into.now }
    requires out { length out.now ≡ length into.now }
    requires at { at < length into.now }
    ensures all { result ≡ true → (n : ℕ) → n < length into.now →
        slice_index into.now n == slice_index out_of.now n + slice_index (slice_set out.now at amount) n ≡ true }
    ensures some { result ≡ false → (n : ℕ) × (n < length into.now) ×
        (slice_index into.now n == slice_index out_of.now n + slice_index (slice_set out.now at amount) n ≡ false) }
{
    for node in 0..into.len() {
        if !is_even(into[node], out_of[node], out_with(out, at, amount, node)) {
            return false;
        }
    }
    true
}

/// Writes what comes into each node: its supply, and what flows to it.
fn sum_into(basin: &Basin, month: &MonthRecord, into: &mut [u64])
    requires basin { IsValidBasin basin.now }
    requires fits { FitsRecord basin.now month.now }
    requires into { length into.old ≡ length basin.now.nodes }
    requires supply { (n : ℕ) → n < length basin.now.nodes → slice_index month.now.supply n ≤ 10 ^ 15 }
    requires flow { (e : ℕ) → e < length basin.now.links → slice_index month.now.plan.flow e ≤ 10 ^ 15 }
    ensures length { length into.new ≡ length into.old }
    ensures each { (n : ℕ) →
        slice_index into.new n ≡ slice_index month.now.supply n + inflow_to basin.now month.now.plan.flow n }
{
    into.copy_from_slice(month.supply.as_slice());
    add_flows(basin, month.plan.flow.as_slice(), true, into);
}

/// Writes what leaves each node: what flows from it, and what is taken there.
fn sum_out_of(basin: &Basin, month: &MonthRecord, out_of: &mut [u64])
    requires basin { IsValidBasin basin.now }
    requires fits { FitsRecord basin.now month.now }
    requires out_of { length out_of.old ≡ length basin.now.nodes }
    requires flow { (e : ℕ) → e < length basin.now.links → slice_index month.now.plan.flow e ≤ 10 ^ 15 }
    requires take { (r : ℕ) → r < length basin.now.rights → slice_index month.now.plan.take r ≤ 10 ^ 9 }
    ensures length { length out_of.new ≡ length out_of.old }
    ensures each { (n : ℕ) → slice_index out_of.new n
        ≡ outflow_from basin.now month.now.plan.flow n + taken_at basin.now month.now.plan.take n }
{
    out_of.fill(0);
    add_flows(basin, month.plan.flow.as_slice(), false, out_of);
    add_takes(basin, month.plan.take.as_slice(), out_of);
}

/// Writes what comes into each node, and what leaves it for another node or a right, in a month whose record has its
/// supply.
pub fn make_sums(basin: &Basin, month: &MonthRecord, into: &mut Rows<u64>, out_of: &mut Rows<u64>)
    requires basin { IsValidBasin basin.now }
    requires fits { FitsRecord basin.now month.now }
    requires into { length into.old ≡ length basin.now.nodes }
    requires out_of { length out_of.old ≡ length basin.now.nodes }
    requires supply { (n : ℕ) → n < length basin.now.nodes → slice_index month.now.supply n ≤ 10 ^ 15 }
    requires flow { (e : ℕ) → e < length basin.now.links → slice_index month.now.plan.flow e ≤ 10 ^ 15 }
    requires take { (r : ℕ) → r < length basin.now.rights → slice_index month.now.plan.take r ≤ 10 ^ 9 }
    ensures into { length into.new ≡ length into.old }
    ensures out_of { length out_of.new ≡ length out_of.old }
    ensures sums { AreSums basin.now month.now into.new out_of.new }
{
    sum_into(basin, month, into.as_mut_slice());
    sum_out_of(basin, month, out_of.as_mut_slice());
}

/// Whether each node is in balance by these sums of a month, where this amount leaves the basin at this node.
pub fn in_balance(
    basin: &Basin,
    month: &MonthRecord,
    at: u32,
    amount: u64,
    into: &[u64],
    out_of: &[u64],
) -> bool
    requires fits { FitsRecord basin.now month.now }
    requires at { at < length basin.now.nodes }
    requires into { length into.now ≡ length basin.now.nodes }
    requires out_of { length out_of.now ≡ length basin.now.nodes }
    requires sums { AreSums basin.now month.now into.now out_of.now }
    ensures all { result ≡ true → (n : ℕ) → n < length basin.now.nodes →
        balances basin.now (with_outflow month.now at amount) n ≡ true }
    ensures some { result ≡ false → (n : ℕ) × (n < length basin.now.nodes)
        × (balances basin.now (with_outflow month.now at amount) n ≡ false) }
{
    are_even(into, out_of, month.plan.out.as_slice(), at, amount)
}
