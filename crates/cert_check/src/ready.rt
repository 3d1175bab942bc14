//! What the tests of a line look at. It is made before them, so that a test only reads.
ghost use Rattle.std.specs.Prelude.{◌≡◌, ◌≤◌, true};
ghost use Rattle.result_reader.specs.ReadSoFar.{ReadSoFar};
ghost use Rattle.result_lines.specs.OfBasin.{IsOfBasin};
ghost use Rattle.cert_check.specs.Coming.{Awaits, HasMonth, HasRead};
ghost use Rattle.cert_check.specs.Keeping.{Keeps};
ghost use Rattle.cert_check.specs.Context.{IsContext};
ghost use Rattle.cert_check.specs.Ready.{HasSums, IsReadyForLine, IsReadyForAmount, IsReadyForCalled, IsReadyForSet};

use crate::answering::next_due;
use crate::balancing::make_sums;
use crate::compare::{is_after_calls, is_free_of_calls, is_member};
use crate::passing::pass_over;
use crate::state::{CheckState, Context};
use crate::supplying::make_supply;
use cut_cert::calls::callers_by_node;
use month_terms::closing::close_zones;
use result_lines::item::Item;
use result_lines::quantity::Quantity;

/// Makes the supply that was read, unless the record has it.
#[inline(never)]
pub fn know_supply(context: &Context, state: &mut CheckState)
    requires context { IsContext context.now }
    requires month { HasMonth context.now.basin.now context.now.series.now state.old }
    ensures rest { state.new ≡ record state.old {
      month = record state.old.month { supply = state.new.month.supply };
      has_supply = true;
    } }
    ensures keeps { (t : ReadSoFar) → Keeps context.now.basin.now context.now.series.now state.old t →
        Keeps context.now.basin.now context.now.series.now state.new t }
{
    if !state.has_supply {
        make_supply(context.basin, context.series, &mut state.month);
        state.has_supply = true;
    }
}

/// Makes the sums of the zones' takes that were read, unless the check state has them.
fn know_closes(context: &Context, state: &mut CheckState)
    requires context { IsContext context.now }
    requires month { HasMonth context.now.basin.now context.now.series.now state.old }
    ensures rest { state.new ≡ record state.old { closes = state.new.closes; has_closes = true } }
    ensures keeps { (t : ReadSoFar) → Keeps context.now.basin.now context.now.series.now state.old t →
        Keeps context.now.basin.now context.now.series.now state.new t }
{
    if !state.has_closes {
        close_zones(
            context.basin,
            state.month.plan.take.as_slice(),
            state.closes.as_mut_slice(),
        );
        state.has_closes = true;
    }
}

/// Finds the first caller of each node by the deliveries and sets that were read. A function clears the room of its
/// locals when it starts, so this one with a table is called only where one is made.
#[inline(never)]
fn find_callers(context: &Context, state: &mut CheckState)
    requires context { IsContext context.now }
    requires keeps { HasRead context.now.basin.now context.now.series.now state.old }
    ensures rest { state.new ≡ record state.old { callers = state.new.callers; has_callers = true } }
    ensures keeps { (t : ReadSoFar) → Keeps context.now.basin.now context.now.series.now state.old t →
        Keeps context.now.basin.now context.now.series.now state.new t }
{
    state.callers = callers_by_node(context.basin, &context.roll, &state.month);
    state.has_callers = true;
}

/// Finds the first caller of each node by the deliveries and sets that were read, unless the check state has them.
fn know_callers(context: &Context, state: &mut CheckState)
    requires context { IsContext context.now }
    requires keeps { HasRead context.now.basin.now context.now.series.now state.old }
    ensures rest { state.new ≡ record state.old { callers = state.new.callers; has_callers = true } }
    ensures keeps { (t : ReadSoFar) → Keeps context.now.basin.now context.now.series.now state.old t →
        Keeps context.now.basin.now context.now.series.now state.new t }
{
    if !state.has_callers {
        find_callers(context, state);
    }
}

/// Makes the sums of what comes into each node and of what leaves it, where the month's flows and takes were read.
#[inline(never)]
fn know_sums(context: &Context, state: &mut CheckState)
    requires context { IsContext context.now }
    requires month { HasMonth context.now.basin.now context.now.series.now state.old }
    ensures supply { state.new.has_supply ≡ true }
    ensures calling { state.new.calling ≡ state.old.calling }
    ensures callers { state.new.has_callers ≡ state.old.has_callers }
    ensures sums { HasSums context.now.basin.now state.new }
    ensures keeps { (t : ReadSoFar) → Keeps context.now.basin.now context.now.series.now state.old t →
        Keeps context.now.basin.now context.now.series.now state.new t }
{
    know_supply(context, state);
    make_sums(
        context.basin,
        &state.month,
        &mut state.into,
        &mut state.out_of,
    );
}

/// Makes these sums where a node is the last outlet.
fn know_sums_at(context: &Context, state: &mut CheckState, node: u32)
    requires context { IsContext context.now }
    requires month { HasMonth context.now.basin.now context.now.series.now state.old }
    ensures sums { context.now.last_outlet ≤ node → HasSums context.now.basin.now state.new }
    ensures supply { state.old.has_supply ≡ true → state.new.has_supply ≡ true }
    ensures calling { state.new.calling ≡ state.old.calling }
    ensures callers { state.new.has_callers ≡ state.old.has_callers }
    ensures keeps { (t : ReadSoFar) → Keeps context.now.basin.now context.now.series.now state.old t →
        Keeps context.now.basin.now context.now.series.now state.new t }
{
    if context.last_outlet <= node {
        know_sums(context, state);
    }
}

/// Passes over the rights that a line passes over, unless one of them lacks its `call`: those that are settled aren't
/// looked at again.
fn pass(context: &Context, state: &mut CheckState, item: &Item)
    requires context { IsContext context.now }
    requires item { IsOfBasin context.now.basin.now item.now }
    requires awaits { Awaits context.now.basin.now context.now.series.now state.old item.now }
    ensures calling { state.new.calling ≡ state.old.calling }
    ensures keeps { (t : ReadSoFar) → Keeps context.now.basin.now context.now.series.now state.old t →
        Keeps context.now.basin.now context.now.series.now state.new t }
{
    let order = context.roll.by_seniority();
    match pass_over(context.basin, order, &state.month, state.passed, item) {
        Some(count) => state.passed = count,
        None => {}
    }
}

/// Finds the callers where a line stands after the `call` lines. Where no right is left that answers to one, they
/// aren't looked at again.
#[inline(never)]
fn answer(context: &Context, state: &mut CheckState, item: &Item)
    requires context { IsContext context.now }
    requires keeps { HasRead context.now.basin.now context.now.series.now state.old }
    ensures callers { IsReadyForCalled state.new item.now }
    ensures calling { state.new.calling ≡ state.old.calling }
    ensures keeps { (t : ReadSoFar) → Keeps context.now.basin.now context.now.series.now state.old t →
        Keeps context.now.basin.now context.now.series.now state.new t }
{
    if !is_after_calls(item) {
        return;
    }
    know_callers(context, state);
    match next_due(
        context.basin,
        &context.roll,
        &state.callers,
        &state.month,
        state.answered,
    ) {
        Some(_) => {}
        None => state.answered = context.basin.rights.len(),
    }
}

/// Makes what the test of a set looks at, where a line ends its nodes.
fn make_ready_for_set(context: &Context, state: &mut CheckState, item: &Item)
    requires context { IsContext context.now }
    requires awaits { Awaits context.now.basin.now context.now.series.now state.old item.now }
    ensures ready { IsReadyForSet state.new item.now }
    ensures callers { state.new.has_callers ≡ state.old.has_callers }
    ensures keeps { (t : ReadSoFar) → Keeps context.now.basin.now context.now.series.now state.old t →
        Keeps context.now.basin.now context.now.series.now state.new t }
{
    if is_member(item) {
        return;
    }
    match state.calling {
        Some(_) => know_supply(context, state),
        None => {}
    }
}

/// Makes what the rows of the calls look at. They look at no amount and no delivery before the `call` lines.
fn make_ready_for_calls(context: &Context, state: &mut CheckState, item: &Item)
    requires context { IsContext context.now }
    requires item { IsOfBasin context.now.basin.now item.now }
    requires awaits { Awaits context.now.basin.now context.now.series.now state.old item.now }
    ensures set { IsReadyForSet state.new item.now }
    ensures callers { IsReadyForCalled state.new item.now }
    ensures keeps { (t : ReadSoFar) → Keeps context.now.basin.now context.now.series.now state.old t →
        Keeps context.now.basin.now context.now.series.now state.new t }
{
    if is_free_of_calls(state.calling, item) {
        return;
    }
    pass(context, state, item);
    answer(context, state, item);
    make_ready_for_set(context, state, item);
}

/// Makes what the test of an amount looks at.
#[inline(never)]
fn make_ready_for_amount(context: &Context, state: &mut CheckState, quantity: Quantity, entry: u32)
    requires context { IsContext context.now }
    requires month { HasMonth context.now.basin.now context.now.series.now state.old }
    ensures ready { IsReadyForAmount context.now state.new quantity entry }
    ensures callers { state.new.has_callers ≡ state.old.has_callers }
    ensures supply { state.old.has_supply ≡ true → state.new.has_supply ≡ true }
    ensures calling { state.new.calling ≡ state.old.calling }
    ensures keeps { (t : ReadSoFar) → Keeps context.now.basin.now context.now.series.now state.old t →
        Keeps context.now.basin.now context.now.series.now state.new t }
{
    match quantity {
        Quantity::Outflow => know_sums_at(context, state, entry),
        Quantity::Closing => know_closes(context, state),
        Quantity::Opening
        | Quantity::Evaporated
        | Quantity::Returned
        | Quantity::Used
        | Quantity::Flow => {}
    }
}

/// Makes what the tests of a line look at. What was read stays. The tests of an `in` line look at nothing.
pub fn make_ready(context: &Context, state: &mut CheckState, item: &Item)
    requires context { IsContext context.now }
    requires item { IsOfBasin context.now.basin.now item.now }
    requires awaits { Awaits context.now.basin.now context.now.series.now state.old item.now }
    ensures ready { IsReadyForLine context.now state.new item.now }
    ensures keeps { (t : ReadSoFar) → Keeps context.now.basin.now context.now.series.now state.old t →
        Keeps context.now.basin.now context.now.series.now state.new t }
{
    if is_member(item) {
        return;
    }
    make_ready_for_calls(context, state, item);
    match *item {
        Item::Amount {
            quantity,
            entry,
            ..
        } => make_ready_for_amount(context, state, quantity, entry),
        _ => {}
    }
}
