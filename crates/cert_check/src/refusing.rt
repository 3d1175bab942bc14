//! The first row of the verdict that holds of a line, by what was read before it.
ghost use Rattle.std.specs.Prelude.{◌≡◌, ◌<◌, ◌==◌, ◌&&◌, ◌∷◌, [], true, not, length, nat_lt, slice_get, Some};
ghost use Rattle.std.specs.List.{list_any};
ghost use Rattle.result_lines.specs.OfBasin.{IsOfBasin};
ghost use Rattle.result_reader.specs.ReadSoFar.{ReadSoFar, with_supply};
ghost use Rattle.water_model.specs.Entries.{count_in};
ghost use Rattle.water_model.specs.Indices.{indices_of};
ghost use Rattle.result_lines.specs.Quantities.{space_of};
ghost use Rattle.cert_check.specs.Checking as checking;
ghost use Rattle.cert_check.specs.Checking.{call_rows, own_rows};
ghost use Rattle.cert_check.specs.Coming.{Awaits, HasMonth, HasRead, IsWithinMonth, MayCome};
ghost use Rattle.cert_check.specs.FirstRows.{first_of};
ghost use Rattle.cert_check.specs.Keeping.{Keeps, with_outflow};
ghost use Rattle.cert_check.specs.Context.{IsContext};
ghost use Rattle.cert_check.specs.Ready.{HasSums, IsReadyForLine, IsReadyForAmount, IsReadyForCalled, IsReadyForOwn};
ghost use Rattle.cert_check.specs.Ready.{IsReadyForSet};

use crate::answering::{Due, next_due};
use crate::balancing::in_balance;
use crate::compare;
use crate::passing::pass_over;
use crate::refuted::RefutedKind;
use crate::state::{CheckState, Context};
use cut_cert::tight;
use result_lines::item::Item;
use result_lines::quantity::Quantity;

/// Whether the set of the right whose nodes came is no tight cut of it.
fn is_loose(context: &Context, state: &CheckState, right: u32) -> bool
    requires context { IsContext context.now }
    requires month { HasMonth context.now.basin.now context.now.series.now state.now }
    requires calling { state.now.calling ≡ Some right }
    requires supply { state.now.has_supply ≡ true }
    ensures { (t : ReadSoFar) → Keeps context.now.basin.now context.now.series.now state.now t →
        result ≡ not (checking.has_tight context.now.basin.now
        (with_supply context.now.basin.now context.now.series.now t.now) right) }
{
    !tight(
        context.basin,
        &context.roll,
        &context.rows,
        state.month.month,
        state.month.supply.as_slice(),
        state.month.delivered.as_slice(),
        right,
        &state.month.cuts,
    )
}

/// Whether a line ends the nodes of a set that is no tight cut of its right.
fn cut_loose(context: &Context, state: &CheckState, item: &Item) -> bool
    requires context { IsContext context.now }
    requires awaits { Awaits context.now.basin.now context.now.series.now state.now item.now }
    requires ready { IsReadyForSet state.now item.now }
    ensures { (t : ReadSoFar) → Keeps context.now.basin.now context.now.series.now state.now t →
        result ≡ checking.cut_loose context.now.basin.now context.now.series.now t item.now }
{
    if compare::is_member(item) {
        return false;
    }
    match state.calling {
        Some(right) => is_loose(context, state, right),
        None => false,
    }
}

/// Whether a line passes over a short right that has no `call`.
fn cut_missing(context: &Context, state: &CheckState, item: &Item) -> bool
    requires context { IsContext context.now }
    requires item { IsOfBasin context.now.basin.now item.now }
    requires awaits { Awaits context.now.basin.now context.now.series.now state.now item.now }
    ensures { (t : ReadSoFar) → Keeps context.now.basin.now context.now.series.now state.now t →
        result ≡ checking.cut_missing context.now.basin.now t item.now }
{
    let order = context.roll.by_seniority();
    match pass_over(context.basin, order, &state.month, state.passed, item) {
        Some(_) => false,
        None => true,
    }
}

/// Whether a right that answers to a caller has no `called` line yet.
fn has_due(context: &Context, state: &CheckState) -> bool
    requires context { IsContext context.now }
    requires keeps { HasRead context.now.basin.now context.now.series.now state.now }
    requires callers { state.now.has_callers ≡ true }
    ensures { (t : ReadSoFar) → Keeps context.now.basin.now context.now.series.now state.now t →
        result ≡ nat_lt t.called (length (checking.callers_due context.now.basin.now t.now)) }
{
    match next_due(
        context.basin,
        &context.roll,
        &state.callers,
        &state.month,
        state.answered,
    ) {
        Some(_) => true,
        None => false,
    }
}

fn is_pair(due: Due, right: u32, by: u32) -> bool
    ensures { result ≡ (due.right == right && due.caller == by) }
{
    due.right == right && due.caller == by
}

/// Whether a right and its caller are not the next that are due.
fn is_not_due(context: &Context, state: &CheckState, right: u32, by: u32) -> bool
    requires context { IsContext context.now }
    requires keeps { HasRead context.now.basin.now context.now.series.now state.now }
    requires callers { state.now.has_callers ≡ true }
    ensures { (t : ReadSoFar) → Keeps context.now.basin.now context.now.series.now state.now t →
        result ≡ not (checking.is_due right by
        (slice_get (checking.callers_due context.now.basin.now t.now) t.called)) }
{
    match next_due(
        context.basin,
        &context.roll,
        &state.callers,
        &state.month,
        state.answered,
    ) {
        Some(due) => !is_pair(due, right, by),
        None => true,
    }
}

/// Whether a line is a `called` line other than the one that is due, or another line where one is due.
fn called_wrong(context: &Context, state: &CheckState, item: &Item) -> bool
    requires context { IsContext context.now }
    requires keeps { HasRead context.now.basin.now context.now.series.now state.now }
    requires ready { IsReadyForCalled state.now item.now }
    ensures { (t : ReadSoFar) → Keeps context.now.basin.now context.now.series.now state.now t →
        result ≡ checking.called_wrong context.now.basin.now t item.now }
{
    match *item {
        Item::Called { right, by } => is_not_due(context, state, right, by),
        _ => compare::is_after_calls(item) && has_due(context, state),
    }
}

/// Whether some node isn't in balance, where this amount leaves the basin at `node`.
fn is_uneven(context: &Context, state: &CheckState, node: u32, amount: u64) -> bool
    requires context { IsContext context.now }
    requires node { node < length context.now.basin.now.nodes }
    requires month { HasMonth context.now.basin.now context.now.series.now state.now }
    requires sums { HasSums context.now.basin.now state.now }
    ensures { (t : ReadSoFar) → Keeps context.now.basin.now context.now.series.now state.now t →
        result ≡ list_any (λ n. not (checking.balances context.now.basin.now
        (with_supply context.now.basin.now context.now.series.now (with_outflow t.now node amount)) n))
        (indices_of context.now.basin.now.nodes) }
{
    !in_balance(
        context.basin,
        &state.month,
        node,
        amount,
        state.into.as_slice(),
        state.out_of.as_slice(),
    )
}

/// Whether a node is the last outlet, and some node isn't in balance, where this amount leaves the basin at it.
fn balance_wrong(context: &Context, state: &CheckState, node: u32, amount: u64) -> bool
    requires context { IsContext context.now }
    requires node { node < length context.now.basin.now.nodes }
    requires month { HasMonth context.now.basin.now context.now.series.now state.now }
    requires ready { IsReadyForAmount context.now state.now Quantity.Outflow node }
    ensures { (t : ReadSoFar) → Keeps context.now.basin.now context.now.series.now state.now t →
        result ≡ checking.quantity_wrong context.now.basin.now context.now.series.now t Quantity.Outflow node amount }
{
    if node < context.last_outlet {
        return false;
    }
    is_uneven(context, state, node, amount)
}

/// Whether an amount isn't what the reservoir's zones take.
fn closing_wrong(context: &Context, state: &CheckState, reservoir: u32, amount: u64) -> bool
    requires context { IsContext context.now }
    requires reservoir { reservoir < length context.now.basin.now.reservoirs }
    requires month { HasMonth context.now.basin.now context.now.series.now state.now }
    requires closes { state.now.has_closes ≡ true }
    ensures { (t : ReadSoFar) → Keeps context.now.basin.now context.now.series.now state.now t →
        result ≡ checking.quantity_wrong context.now.basin.now context.now.series.now t Quantity.Closing reservoir
        amount }
{
    compare::differs(state.closes.as_slice(), reservoir, amount)
}

/// The first of the rows of the calls that holds of a line.
#[inline(never)]
fn call_row(context: &Context, state: &CheckState, item: &Item) -> Option<RefutedKind>
    requires context { IsContext context.now }
    requires item { IsOfBasin context.now.basin.now item.now }
    requires awaits { Awaits context.now.basin.now context.now.series.now state.now item.now }
    requires ready { IsReadyForSet state.now item.now }
    requires callers { IsReadyForCalled state.now item.now }
    ensures { (t : ReadSoFar) → Keeps context.now.basin.now context.now.series.now state.now t →
        result ≡ first_of (call_rows context.now.basin.now context.now.series.now t item.now) }
{
    if cut_loose(context, state, item) {
        return Some(RefutedKind::CutLoose);
    }
    if cut_missing(context, state, item) {
        return Some(RefutedKind::CutMissing);
    }
    if compare::cut_needless(context.basin, &state.month, item) {
        return Some(RefutedKind::CutNeedless);
    }
    if called_wrong(context, state, item) {
        return Some(RefutedKind::Called);
    }
    None
}

/// Whether the amount of an entry is wrong.
fn quantity_wrong(
    context: &Context,
    state: &CheckState,
    quantity: Quantity,
    entry: u32,
    amount: u64,
) -> bool
    requires context { IsContext context.now }
    requires entry { entry < count_in (space_of quantity) context.now.basin.now }
    requires month { HasMonth context.now.basin.now context.now.series.now state.now }
    requires ready { IsReadyForAmount context.now state.now quantity entry }
    ensures { (t : ReadSoFar) → Keeps context.now.basin.now context.now.series.now state.now t →
        IsWithinMonth context.now.basin.now context.now.series.now t →
        result ≡ checking.quantity_wrong context.now.basin.now context.now.series.now t quantity entry amount }
{
    let basin = context.basin;
    match quantity {
        Quantity::Opening => compare::differs(state.opens.as_slice(), entry, amount),
        Quantity::Evaporated => {
            compare::evaporation_wrong(basin, &context.tables, &state.month, entry, amount)
        }
        Quantity::Returned => compare::differs(state.comes.as_slice(), entry, amount),
        Quantity::Used => compare::differs(state.used.as_slice(), entry, amount),
        Quantity::Flow => compare::flow_wrong(basin, &state.month, entry, amount),
        Quantity::Outflow => balance_wrong(context, state, entry, amount),
        Quantity::Closing => closing_wrong(context, state, entry, amount),
    }
}

/// What a wrong amount is refuted for.
fn kind_of(quantity: Quantity) -> RefutedKind
    ensures { result ≡ checking.kind_of quantity }
{
    match quantity {
        Quantity::Opening => RefutedKind::Opening,
        Quantity::Evaporated => RefutedKind::Evaporation,
        Quantity::Returned => RefutedKind::Return,
        Quantity::Used => RefutedKind::Used,
        Quantity::Flow => RefutedKind::Flow,
        Quantity::Outflow => RefutedKind::Balance,
        Quantity::Closing => RefutedKind::Closing,
    }
}

/// The kind, where a row of it holds.
fn kind_if(holds: bool, kind: RefutedKind) -> Option<RefutedKind>
    ensures { result ≡ first_of ((kind, holds) ∷ []) }
{
    if holds { Some(kind) } else { None }
}

/// The row of a line's own kind, if it has one and it holds.
#[inline(never)]
fn own_row(context: &Context, state: &CheckState, item: &Item) -> Option<RefutedKind>
    requires context { IsContext context.now }
    requires item { IsOfBasin context.now.basin.now item.now }
    requires awaits { Awaits context.now.basin.now context.now.series.now state.now item.now }
    requires ready { IsReadyForOwn context.now state.now item.now }
    ensures { (t : ReadSoFar) → Keeps context.now.basin.now context.now.series.now state.now t →
        MayCome context.now.basin.now context.now.series.now t item.now →
        result ≡ first_of (own_rows context.now.basin.now context.now.series.now t item.now) }
{
    match *item {
        Item::Run { first, months } => {
            kind_if(
                compare::head_wrong(context.basin, first, months),
                RefutedKind::Head,
            )
        }
        Item::Amount {
            quantity,
            entry,
            amount,
        } => {
            kind_if(
                quantity_wrong(context, state, quantity, entry, amount),
                kind_of(quantity),
            )
        }
        Item::Deliver {
            right,
            amount,
            want,
        } => kind_if(
            compare::delivery_wrong(
                context.basin,
                context.series,
                &state.month,
                right,
                amount,
                want,
            ),
            RefutedKind::Delivery,
        ),
        _ => None,
    }
}

/// The first row of the verdict that holds of a line. The check state is ready for it. No row holds of an `in` line.
pub fn first_row(context: &Context, state: &CheckState, item: &Item) -> Option<RefutedKind>
    requires context { IsContext context.now }
    requires item { IsOfBasin context.now.basin.now item.now }
    requires awaits { Awaits context.now.basin.now context.now.series.now state.now item.now }
    requires ready { IsReadyForLine context.now state.now item.now }
    ensures { (t : ReadSoFar) → Keeps context.now.basin.now context.now.series.now state.now t →
        MayCome context.now.basin.now context.now.series.now t item.now →
        result ≡ checking.first_row context.now.basin.now context.now.series.now t item.now }
{
    if compare::is_member(item) {
        return None;
    }
    if compare::is_free_of_calls(state.calling, item) {
        return own_row(context, state, item);
    }
    match call_row(context, state, item) {
        Some(kind) => Some(kind),
        None => own_row(context, state, item),
    }
}
