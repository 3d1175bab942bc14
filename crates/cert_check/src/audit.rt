//! An audit: whether the set of each short right is its reach.
ghost use Rattle.std.specs.Prelude.{◌≡◌, ◌<◌, length, None, slice_set, IfOk};
ghost use Rattle.plan_residual.specs.Reaches.{HaveTightSets};
ghost use Rattle.plan_residual.specs.Residual.{HasPlan};
ghost use Rattle.result_reader.specs.ReadSoFar.{ReadSoFar};
ghost use Rattle.rights_roll.specs.Rolls.{IsRollOf};
ghost use Rattle.result_lines.specs.OfBasin.{IsOfBasin};
ghost use Rattle.water_model.specs.Valid.{IsValidBasin};
ghost use Rattle.cert_check.specs.Auditing.{AsksMonth, HasMemory, MonthEnds, TakesAudit, audit_answer};
ghost use Rattle.cert_check.specs.Keeping.{Keeps};
ghost use Rattle.cert_check.specs.Context.{IsContext};

use crate::ready::know_supply;
use crate::refuted::{Refuted, RefutedKind};
use crate::state::{CheckState, Context};
use plan_residual::ResidualSearch;
use result_lines::item::Item;
use rights_roll::roll::Roll;
use std::alloc::{AllocError, Global};
use water_model::blank::zeros;
use water_model::rows::Rows;
use water_model::types::{Basin, MonthRecord};

/// What an audit keeps of good lines, with the memory for its searches.
#[derive(Drop)]
pub struct Audit {
    /// The search through a month's residual network.
    pub search: ResidualSearch,
    /// For each right the number of its last `call` line.
    pub call_lines: Rows<u64>,
    /// The number of the first `call` line, by month and then by seniority, whose right's set isn't its reach.
    pub other: Option<u64>,
}

impl Audit {
    /// An audit of no line.
    pub fn open(alloc: Global, basin: &Basin) -> Result<Audit, AllocError>
        requires { IsValidBasin basin.now }
        ensures memory { IfOk result (HasMemory basin.now) }
        ensures none { IfOk result (λ audit. audit.other ≡ None) }
    {
        let search = ResidualSearch::open(alloc, basin)?;
        let call_lines = zeros(alloc, basin.rights.len())?;
        Ok(Audit {
            search,
            call_lines,
            other: None,
        })
    }
}

/// Keeps the number of a right's `call` line.
fn keep_call(audit: &mut Audit, right: u32, number: u64)
    requires { right < length audit.old.call_lines }
    ensures { audit.new ≡ record audit.old { call_lines = slice_set audit.old.call_lines right number } }
{
    audit.call_lines.as_mut_slice()[right as usize] = number;
}

/// Asks a month for its most senior short right whose set isn't its reach, unless one was found before.
fn ask_month(basin: &Basin, roll: &Roll, month: &MonthRecord, audit: &mut Audit)
    requires memory { HasMemory basin.now audit.old }
    requires plan { HasPlan basin.now month.now }
    requires roll { IsRollOf basin.now.rights roll.now }
    requires sets { HaveTightSets basin.now month.now }
    ensures { AsksMonth basin.now month.now audit.old audit.new }
{
    match audit.other {
        Some(_) => return,
        None => {}
    }
    match audit.search.first_other(basin, roll, month) {
        Some(right) => audit.other = Some(audit.call_lines[right as usize]),
        None => {}
    }
}

/// Takes a good line of this number, before it is entered: the number of a `call` line is kept, and the month that an
/// `end` line ends is asked.
#[inline(never)]
pub fn audit_item(
    context: &Context,
    audit: &mut Audit,
    state: &mut CheckState,
    item: &Item,
    number: u64,
)
    requires context { IsContext context.now }
    requires item { IsOfBasin context.now.basin.now item.now }
    requires memory { HasMemory context.now.basin.now audit.old }
    requires ends { item.now ≡ Item.End → MonthEnds context.now.basin.now context.now.series.now state.old }
    ensures takes { (t : ReadSoFar) → Keeps context.now.basin.now context.now.series.now state.old t →
        TakesAudit context.now.basin.now context.now.series.now t item.now number audit.old audit.new }
    ensures callers { state.new.has_callers ≡ state.old.has_callers }
    ensures keeps { (t : ReadSoFar) → Keeps context.now.basin.now context.now.series.now state.old t →
        Keeps context.now.basin.now context.now.series.now state.new t }
{
    match *item {
        Item::Call { right } => keep_call(audit, right, number),
        Item::End => {
            know_supply(context, state);
            ask_month(context.basin, &context.roll, &state.month, audit);
        }
        _ => {}
    }
}

/// The answer where a check accepts: the number of months, or the first set that isn't a reach.
pub fn answer(audit: &Audit, months: u32) -> Result<u32, Refuted>
    ensures { result ≡ audit_answer audit.now.other months }
{
    match audit.other {
        Some(line) => Err(Refuted {
            line,
            kind: RefutedKind::NotReach,
        }),
        None => Ok(months),
    }
}
