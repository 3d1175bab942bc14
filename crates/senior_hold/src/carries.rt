//! What links carry, laid out by calendar month: a month's bounds are made of a short row, and no link is looked at.
ghost use Rattle.std.specs.Prelude.{◌≡◌, ◌≤◌, ◌<◌, ◌^◌, ◌⊎◌, ℕ, length, slice_index, IfOk};
ghost use Rattle.water_text.specs.Months.{IsMonth};
ghost use Rattle.water_model.specs.Plans.{carry_of};
ghost use Rattle.water_model.specs.Valid.{IsValidBasin, IsValidCarry};
ghost use Rattle.senior_hold.specs.Carries.{AreDailies, carry_in, daily_of_kind, dailies_in};

use std::alloc::{AllocError, Global};
use water_model::rows::Rows;
use water_model::types::{Basin, Carry, RIVER_CARRY};
use water_text::month::Month;

/// Stands for a day's amount where a link is a river. No canal carries so much.
const OF_RIVER: u64 = u64::MAX;

/// What a link of this kind carries in a day of the calendar month at this position in a list of twelve.
fn daily_of(carry: &Carry, position: usize) -> u64
    requires carry { IsValidCarry carry.now }
    requires position { position < 12 }
    ensures { result ≡ daily_of_kind carry.now position }
{
    match carry {
        Carry::River => OF_RIVER,
        Carry::Canal { per_day, shut } => { if shut[position] { 0 } else { *per_day } }
    }
}

/// What each link carries in a day of a calendar month.
fn dailies_in(alloc: Global, basin: &Basin, position: usize) -> Result<Rows<u64>, AllocError>
    requires basin { IsValidBasin basin.now }
    requires position { position < 12 }
    ensures { IfOk result (λ row. row ≡ dailies_in basin.now position) }
{
    let mut row = Vec::with_capacity(alloc, basin.links.len())?;
    for link in basin.links.as_slice() {
        row.push(daily_of(&link.carry, position))?;
    }
    Ok(Rows::from_vec(row))
}

/// What each link carries in a day, in units of 1,000 cubic metres: a row by link for each calendar month. AllocError
/// comes where memory is lacking.
pub fn dailies_of(alloc: Global, basin: &Basin) -> Result<Vec<Rows<u64>>, AllocError>
    requires { IsValidBasin basin.now }
    ensures { IfOk result (λ rows. AreDailies basin.now rows.items) }
{
    let mut rows = Vec::with_capacity(alloc, 12)?;
    for position in 0..12 {
        let row = dailies_in(alloc, basin, position)?;
        rows.push(row)?;
    }
    Ok(rows)
}

/// What a link carries in so many days.
fn carry_in(daily: u64, days: u64) -> u64
    requires days { days ≤ 31 }
    requires daily { (daily ≡ OF_RIVER) ⊎ (daily ≤ 10 ^ 9) }
    ensures { result ≡ carry_in daily days }
{
    if daily == OF_RIVER {
        RIVER_CARRY
    } else {
        daily * days
    }
}

/// Writes the most that each link carries in a month at the indices of links.
pub fn lay_carries(basin: &Basin, dailies: &[Rows<u64>], month: Month, into: &mut [u64])
    requires valid { IsValidBasin basin.now }
    requires dailies { AreDailies basin.now dailies.now }
    requires month { IsMonth month }
    requires into { length basin.now.links ≤ length into.old }
    ensures { (e : ℕ) → e < length basin.now.links → slice_index into.new e ≡ carry_of basin.now month e }
{
    let days = u64::from(month.days());
    let row = dailies[month.month as usize - 1].as_slice();
    for link in 0..row.len() {
        into[link] = carry_in(row[link], days);
    }
}
