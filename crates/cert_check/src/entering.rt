//! Enters what a line says into a check state.
ghost use Rattle.std.specs.Prelude.{ℕ, ◌≡◌, ◌+◌, ◌^◌, ◌<◌, ◌≤◌, ◌&&◌, not, ◌++◌, ◌∷◌, [], List, Some, None, true};
ghost use Rattle.std.specs.Prelude.{false, Bool, All, Option, IfSome, IsSome, length, replicate, slice_index};
ghost use Rattle.std.specs.Prelude.{slice_set, is_some, if◌then◌else◌};
ghost use Rattle.cut_cert.specs.Callers.{AreCallers};
ghost use Rattle.lag_returns.specs.Lags.{HasReturned, return_rows};
ghost use Rattle.lag_returns.specs.Lags as lag;
ghost use Rattle.month_terms.specs.Terms.{FitsRecord, HasUsed};
ghost use Rattle.water_model.specs.Blank.{blank_month};
ghost use Rattle.water_model.specs.Basin.{taking_node};
ghost use Rattle.water_model.specs.CutSets.{set_of, with_set};
ghost use Rattle.result_lines.specs.Quantities.{amounts_of, with_amounts};
ghost use Rattle.water_model.specs.Valid.{IsValidBasin};
ghost use Rattle.result_lines.specs.OfBasin.{IsOfBasin};
ghost use Rattle.result_lines.specs.declared.item.Item.TheVariants as line;
ghost use Rattle.result_reader.specs.ReadSoFar.{ReadSoFar, read_item};
ghost use Rattle.rights_roll.specs.Rolls.{IsRollOf};
ghost use Rattle.water_model.specs.History.{FitsBasin};
ghost use Rattle.cert_check.specs.Checking.{first_row};
ghost use Rattle.cert_check.specs.Coming.{Awaits, MayCome};
ghost use Rattle.cert_check.specs.Keeping.{Keeps, is_supplied};
ghost use Rattle.cert_check.specs.Context.{IsContext};
ghost use Rattle.cert_check.specs.Ready.{IsReadyForCalled};
ghost use Rattle.cert_check.specs.Walks.{IsDueFrom, after};
ghost use Rattle.cert_check.specs.declared.answering.Due.{Due};

use crate::answering::next_due;
use crate::noting;
use crate::state::{CheckState, Context};
use month_terms::used::use_month;
use result_lines::item::Item;
use result_lines::quantity::Quantity;
use rights_roll::roll::Roll;
use water_model::rows::Rows;
use water_model::types::{Basin, MonthRecord};
use water_text::month::Month;

/// Makes all numbers of a list 0.
fn clear(list: &mut Rows<u64>)
    ensures { list.new ≡ replicate (length list.old) 0 }
{
    list.as_mut_slice().fill(0);
}

/// Makes a record one of which only its index and month were read.
fn blank(basin: &Basin, month: &mut MonthRecord, index: u32, calendar: Month)
    requires { FitsRecord basin.now month.old }
    ensures { month.new ≡ blank_month basin.now index calendar }
{
    month.index = index;
    month.month = calendar;
    clear(&mut month.opening);
    clear(&mut month.evaporated);
    clear(&mut month.returned);
    clear(&mut month.used);
    clear(&mut month.supply);
    clear(&mut month.want);
    clear(&mut month.plan.flow);
    clear(&mut month.plan.take);
    clear(&mut month.plan.out);
    clear(&mut month.delivered);
    month.cuts.clear();
    clear(&mut month.closing);
}

/// Enters a `month` line.
#[inline(never)]
pub fn enter_month(basin: &Basin, state: &mut CheckState, calendar: Month)
    requires { FitsRecord basin.now state.old.month }
    ensures { state.new ≡ record state.old {
      month = blank_month basin.now state.old.done calendar;
      calling = None;
      has_supply = false;
      has_closes = false;
      has_callers = false;
      passed = 0;
      answered = 0;
    } }
{
    blank(basin, &mut state.month, state.done, calendar);
    state.calling = None;
    state.has_supply = false;
    state.has_closes = false;
    state.has_callers = false;
    state.passed = 0;
    state.answered = 0;
}

/// Whether the supply is made of a quantity.
fn is_supplied(quantity: Quantity) -> bool
    ensures { result ≡ is_supplied quantity }
{
    match quantity {
        Quantity::Opening | Quantity::Evaporated | Quantity::Returned => true,
        Quantity::Used | Quantity::Flow | Quantity::Outflow | Quantity::Closing => false,
    }
}

/// Enters the line of an amount.
pub fn enter_amount(state: &mut CheckState, quantity: Quantity, entry: u32, amount: u64)
    requires { entry < length (amounts_of quantity state.old.month) }
    ensures { state.new ≡ record state.old {
      month = with_amounts quantity state.old.month (slice_set (amounts_of quantity state.old.month) entry amount);
      calling = None;
      has_supply = state.old.has_supply && not (is_supplied quantity);
    } }
{
    noting::note_amount(&mut state.month, quantity, entry, amount);
    state.calling = None;
    state.has_supply = state.has_supply && !is_supplied(quantity);
}

/// Enters a `deliver` line. It comes before the month's `call` lines, so no right is passed over yet.
pub fn enter_delivery(basin: &Basin, state: &mut CheckState, right: u32, amount: u64, want: u64)
    requires basin { IsValidBasin basin.now }
    requires right { right < length basin.now.rights }
    requires delivered { right < length state.old.month.delivered }
    requires want { right < length state.old.month.want }
    requires take { right < length state.old.month.plan.take }
    ensures { state.new ≡ record state.old {
      month = record state.old.month {
        delivered = slice_set state.old.month.delivered right amount;
        want = slice_set state.old.month.want right want;
        plan = record state.old.month.plan {
          take = slice_set state.old.month.plan.take right
              (if is_some (taking_node basin.now right) then amount else 0);
        };
      };
      calling = None;
      has_closes = false;
      has_callers = false;
      passed = 0;
      answered = 0;
    } }
{
    noting::note_delivery(basin, &mut state.month, right, amount, want);
    state.calling = None;
    state.has_closes = false;
    state.has_callers = false;
    state.passed = 0;
    state.answered = 0;
}

/// Enters a `call` line. The right has no set yet.
pub fn enter_call(state: &mut CheckState, right: u32)
    requires right { right < length state.old.month.cuts.sets }
    requires free { set_of state.old.month.cuts right ≡ None }
    ensures { state.new ≡ record state.old {
      month = record state.old.month {
        cuts = with_set state.old.month.cuts right (Some (replicate state.old.month.cuts.nodes false));
      };
      calling = Some right;
      has_callers = false;
      answered = 0;
    } }
{
    state.month.cuts.begin(right);
    state.calling = Some(right);
    state.has_callers = false;
    state.answered = 0;
}

/// Enters an `in` line of the right whose nodes come.
#[inline(always)]
pub fn enter_member(state: &mut CheckState, node: u32)
    requires node { node < state.old.month.cuts.nodes }
    requires calling { IfSome state.old.calling (λ right. (right < length state.old.month.cuts.sets) ×
        IsSome (set_of state.old.month.cuts right)) }
    ensures none { state.old.calling ≡ None → state.new ≡ record state.old { has_callers = false; answered = 0 } }
    ensures some { (right : ℕ) (set : List Bool) → state.old.calling ≡ Some right →
        set_of state.old.month.cuts right ≡ Some set →
        state.new ≡ record state.old {
          month = record state.old.month {
            cuts = with_set state.old.month.cuts right (Some (slice_set set node true));
          };
          has_callers = false;
          answered = 0;
        } }
{
    state.has_callers = false;
    state.answered = 0;
    match state.calling {
        Some(right) => state.month.cuts.add(right, node),
        None => {}
    }
}

/// Enters the `in` line of a node, as `enter` does. It may come.
#[inline(always)]
pub fn enter_node(context: &Context, state: &mut CheckState, node: u32)
    requires context { IsContext context.now }
    requires node { node < length context.now.basin.now.nodes }
    requires awaits { Awaits context.now.basin.now context.now.series.now state.old (line.Member node) }
    ensures { (t : ReadSoFar) → Keeps context.now.basin.now context.now.series.now state.old t →
        MayCome context.now.basin.now context.now.series.now t (line.Member node) →
        Keeps context.now.basin.now context.now.series.now state.new
        (read_item context.now.basin.now context.now.series.now t (line.Member node)) }
{
    enter_member(state, node);
}

/// Enters a `called` line, which is that of the next right that answers to a caller.
#[inline(never)]
pub fn enter_called(basin: &Basin, roll: &Roll, state: &mut CheckState)
    requires basin { IsValidBasin basin.now }
    requires roll { IsRollOf basin.now.rights roll.now }
    requires fits { FitsBasin basin.now state.old.month }
    requires callers { AreCallers basin.now state.old.month state.old.callers }
    requires answered { state.old.answered ≤ length basin.now.rights }
    ensures { (due : Option Due) × IsDueFrom basin.now state.old.month state.old.answered due
        × (state.new ≡ record state.old { calling = None; answered = after state.old.answered due }) }
{
    state.calling = None;
    match next_due(basin, roll, &state.callers, &state.month, state.answered) {
        Some(due) => state.answered = due.position + 1,
        None => {}
    }
}

/// Enters an `end` line: what the month leaves to the next.
#[inline(never)]
pub fn enter_end(basin: &Basin, state: &mut CheckState)
    requires basin { IsValidBasin basin.now }
    requires rows { return_rows state.old.lags ≡ basin.now.returns }
    requires comes { length state.old.comes ≡ length basin.now.nodes }
    requires opens { length state.old.opens ≡ length state.old.month.closing }
    requires delivered { length state.old.month.delivered ≡ length basin.now.rights }
    requires small { All (λ n. n ≤ 10 ^ 9) state.old.month.delivered }
    requires done { state.old.done < basin.now.months }
    requires used { length state.old.used ≡ length basin.now.rights }
    requires little { (r : ℕ) → r < length basin.now.rights → slice_index state.old.used r ≤ 10 ^ 15 }
    ensures rest { state.new ≡ record state.old {
      done = state.old.done + 1;
      lags = state.new.lags;
      opens = state.old.month.closing;
      comes = state.new.comes;
      used = state.new.used;
      calling = None;
    } }
    ensures lags { (deliveries : List (List ℕ)) → lag.LagsStandFor state.old.lags basin.now.returns deliveries →
        lag.LagsStandFor state.new.lags basin.now.returns (deliveries ++ state.old.month.delivered ∷ []) }
    ensures comes { (deliveries : List (List ℕ)) → lag.LagsStandFor state.old.lags basin.now.returns deliveries →
        HasReturned basin.now (deliveries ++ state.old.month.delivered ∷ []) state.new.comes }
    ensures used { (deliveries : List (List ℕ)) → length deliveries ≡ state.old.done →
        HasUsed basin.now deliveries state.old.used →
        HasUsed basin.now (deliveries ++ state.old.month.delivered ∷ []) state.new.used }
{
    state.lags.month_done(state.month.delivered.as_slice());
    state
        .opens
        .as_mut_slice()
        .copy_from_slice(state.month.closing.as_slice());
    state.lags.write_returns(basin, &mut state.comes);
    use_month(
        basin,
        state.done,
        state.month.delivered.as_slice(),
        state.used.as_mut_slice(),
    );
    state.done += 1;
    state.calling = None;
}

/// Enters what a good line says. The check state is ready for it.
pub fn enter(context: &Context, state: &mut CheckState, item: &Item)
    requires context { IsContext context.now }
    requires item { IsOfBasin context.now.basin.now item.now }
    requires awaits { Awaits context.now.basin.now context.now.series.now state.old item.now }
    requires ready { IsReadyForCalled state.old item.now }
    ensures { (t : ReadSoFar) → Keeps context.now.basin.now context.now.series.now state.old t →
        MayCome context.now.basin.now context.now.series.now t item.now →
        first_row context.now.basin.now context.now.series.now t item.now ≡ None →
        Keeps context.now.basin.now context.now.series.now state.new
        (read_item context.now.basin.now context.now.series.now t item.now) }
{
    match *item {
        Item::Title => {}
        Item::Run { .. } => {}
        Item::Month { month } => enter_month(context.basin, state, month),
        Item::Amount {
            quantity,
            entry,
            amount,
        } => { enter_amount(state, quantity, entry, amount) }
        Item::Deliver {
            right,
            amount,
            want,
        } => enter_delivery(context.basin, state, right, amount, want),
        Item::Call { right } => enter_call(state, right),
        Item::Member { node } => enter_member(state, node),
        Item::Called { .. } => enter_called(context.basin, &context.roll, state),
        Item::End => enter_end(context.basin, state),
        Item::Done { .. } => {}
    }
}
