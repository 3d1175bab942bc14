//! What nodes and rights have in each calendar month, laid out once for all months of a run.
//!
//! A month of a run goes over these lists, and not over the records of nodes and rights, which are many times as long.
ghost use Rattle.std.specs.Prelude.{◌≡◌, ◌<◌, map, IfOk};
ghost use Rattle.water_model.specs.Valid.{IsValidBasin, IsValidInflow, IsValidWant};
ghost use Rattle.month_terms.specs.Calendars.{IsCalendar, IsCalendarMonth, AreCalendarMonths, ListInstream};
ghost use Rattle.month_terms.specs.Calendars.{monthly_inflow, monthly_want, wants_otherwise, others_of};

use std::alloc::{AllocError, Global};
use water_model::calls::is_series;
use water_model::rows::Rows;
use water_model::types::{Basin, Inflow, Right, RightKind, Want};

/// What a calendar month has, in units of 1,000 cubic metres: what flows in at each node, or 0 where it is gauged, and
/// the number of each right.
#[derive(Drop)]
pub struct CalendarMonth {
    pub inflows: Rows<u64>,
    pub wants: Rows<u64>,
}

/// An instream right and its link.
#[derive(Clone, Copy, Debug, PartialEq, Eq)]
pub struct InstreamPlace {
    pub right: u32,
    pub link: u32,
}

/// The twelve calendar months, from January on; the rights that don't simply want their number of the calendar month,
/// in the order of the file: instream rights, and rights with a volume or with wants in the series; and the instream
/// rights with their links.
#[derive(Drop)]
pub struct Calendar {
    pub months: Rows<CalendarMonth>,
    pub others: Rows<u32>,
    pub instream: Rows<InstreamPlace>,
}

/// What flows in at a node in a calendar month, or 0 where it is gauged.
fn monthly_inflow(inflow: &Inflow, position: usize) -> u64
    requires inflow { IsValidInflow inflow.now }
    requires position { position < 12 }
    ensures { result ≡ monthly_inflow inflow.now position }
{
    match inflow {
        Inflow::Monthly(amounts) => amounts[position],
        Inflow::Gauged => 0,
    }
}

/// What flows in at each node in a calendar month. AllocError comes where memory is lacking.
fn inflows_in(alloc: Global, basin: &Basin, position: usize) -> Result<Rows<u64>, AllocError>
    requires basin { IsValidBasin basin.now }
    requires position { position < 12 }
    ensures { IfOk result (λ rows. rows ≡ map (λ n. monthly_inflow n.inflow position) basin.now.nodes) }
{
    let mut inflows = Vec::with_capacity(alloc, basin.nodes.len())?;
    for node in basin.nodes.as_slice() {
        inflows.push(monthly_inflow(&node.inflow, position))?;
    }
    Ok(Rows::from_vec(inflows))
}

/// The number of a right in a calendar month, or 0 where its wants stand in the series.
pub(crate) fn monthly_want(want: &Want, position: usize) -> u64
    requires want { IsValidWant want.now }
    requires position { position < 12 }
    ensures { result ≡ monthly_want want.now position }
{
    match want {
        Want::Monthly(amounts) => amounts[position],
        Want::Series => 0,
    }
}

/// The number of each right in a calendar month. AllocError comes where memory is lacking.
fn wants_in(alloc: Global, basin: &Basin, position: usize) -> Result<Rows<u64>, AllocError>
    requires basin { IsValidBasin basin.now }
    requires position { position < 12 }
    ensures { IfOk result (λ rows. rows ≡ map (λ r. monthly_want r.want position) basin.now.rights) }
{
    let mut wants = Vec::with_capacity(alloc, basin.rights.len())?;
    for right in basin.rights.as_slice() {
        wants.push(monthly_want(&right.want, position))?;
    }
    Ok(Rows::from_vec(wants))
}

/// What a calendar month has. AllocError comes where memory is lacking.
fn calendar_month(
    alloc: Global,
    basin: &Basin,
    position: usize,
) -> Result<CalendarMonth, AllocError>
    requires basin { IsValidBasin basin.now }
    requires position { position < 12 }
    ensures { IfOk result (λ month. IsCalendarMonth basin.now position month) }
{
    let inflows = inflows_in(alloc, basin, position)?;
    let wants = wants_in(alloc, basin, position)?;
    Ok(CalendarMonth { inflows, wants })
}

/// The twelve calendar months. AllocError comes where memory is lacking.
fn calendar_months(alloc: Global, basin: &Basin) -> Result<Rows<CalendarMonth>, AllocError>
    requires { IsValidBasin basin.now }
    ensures { IfOk result (λ months. AreCalendarMonths basin.now months) }
{
    let mut months = Vec::with_capacity(alloc, 12)?;
    for position in 0..12 {
        months.push(calendar_month(alloc, basin, position)?)?;
    }
    Ok(Rows::from_vec(months))
}

/// Whether the want of a right isn't simply its number of the calendar month.
fn wants_otherwise(right: &Right) -> bool
    ensures { result ≡ wants_otherwise right.now }
{
    if is_series(&right.want) || right.volume.is_some() {
        return true;
    }
    match right.kind {
        RightKind::Instream { .. } => true,
        RightKind::Diversion { .. } => false,
        RightKind::Zone { .. } => false,
    }
}

/// The rights that don't simply want their number of the calendar month. AllocError comes where memory is lacking.
fn others_of(alloc: Global, basin: &Basin) -> Result<Rows<u32>, AllocError>
    requires { IsValidBasin basin.now }
    ensures { IfOk result (λ others. others ≡ others_of basin.now) }
{
    let mut others = Vec::new(alloc);
    for right in 0..basin.rights.len() {
        if wants_otherwise(&basin.rights[right]) {
            others.push(right as u32)?;
        }
    }
    Ok(Rows::from_vec(others))
}

/// The instream rights with their links. AllocError comes where memory is lacking.
fn instream_of(alloc: Global, basin: &Basin) -> Result<Rows<InstreamPlace>, AllocError>
    requires { IsValidBasin basin.now }
    ensures { IfOk result (λ places. ListInstream basin.now places) }
{
    let mut places = Vec::new(alloc);
    for right in 0..basin.rights.len() {
        if let RightKind::Instream { link } = basin.rights[right].kind {
            places.push(InstreamPlace {
                right: right as u32,
                link,
            })?;
        }
    }
    Ok(Rows::from_vec(places))
}

impl Calendar {
    /// The calendar of a basin. AllocError comes where memory is lacking.
    pub fn of(alloc: Global, basin: &Basin) -> Result<Calendar, AllocError>
        requires { IsValidBasin basin.now }
        ensures { IfOk result (λ calendar. IsCalendar basin.now calendar) }
    {
        let months = calendar_months(alloc, basin)?;
        let others = others_of(alloc, basin)?;
        let instream = instream_of(alloc, basin)?;
        Ok(Calendar {
            months,
            others,
            instream,
        })
    }
}
