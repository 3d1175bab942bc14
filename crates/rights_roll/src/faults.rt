//! The faults of dates and of return rows, each by a function that finds the first.
ghost use Rattle.std.specs.Prelude.{◌≡◌, ◌<◌, ◌≤◌, length, nat_lt, position, All, None, Some, OnOk, IfOk, IfErr};
ghost use Rattle.water_model.specs.Rights.{has_bad_date};
ghost use Rattle.rights_roll.specs.RollFaults.{date_fault, parts_fault, IsRefusal};
ghost use Rattle.rights_roll.specs.Tables.{AreParts};

use crate::RollRefused;
use std::alloc::{AllocError, Global};
use water_model::types::{ReturnRow, Right};

/// The first right whose date is no day of the calendar.
fn first_bad_date(rights: &[Right]) -> Option<usize>
    ensures { result ≡ position has_bad_date rights.now }
{
    rights.iter().position(|right| !right.date.is_date())
}

/// Refuses the first right whose date is no day of the calendar.
pub fn check_dates(rights: &[Right]) -> Result<(), RollRefused>
    requires { length rights.now ≤ 2000 }
    ensures none { OnOk result (date_fault rights.now ≡ None) }
    ensures refused { IfErr result (λ e. date_fault rights.now ≡ Some e) }
{
    match first_bad_date(rights) {
        Some(right) => Err(RollRefused::BadDate(right as u32)),
        None => Ok(()),
    }
}

/// The sum of the parts of each right's return rows, or the greatest `u32` where it is more.
fn parts_by_right(
    alloc: Global,
    rights: usize,
    returns: &[ReturnRow],
) -> Result<Vec<u32>, AllocError>
    requires { All (λ row. row.right < rights) returns.now }
    ensures { IfOk result (λ sums. AreParts returns.now rights sums.items) }
{
    let mut sums = vec![in alloc; 0u32; rights]?;
    for row in returns {
        let right = row.right as usize;
        sums[right] = sums[right].saturating_add(row.part);
    }
    Ok(sums)
}

/// The first index with more than 10,000 parts, that is, more than the whole.
fn first_above_whole(sums: &[u32]) -> Option<usize>
    ensures { result ≡ position (nat_lt 10000) sums.now }
{
    sums.iter().position(|parts| *parts > 10_000)
}

/// Refuses the first right whose return rows have more than 10,000 parts.
pub fn check_parts(
    alloc: Global,
    rights: &[Right],
    returns: &[ReturnRow],
) -> Result<(), RollRefused>
    requires bounded { length rights.now ≤ 2000 }
    requires rows { All (λ row. row.right < length rights.now) returns.now }
    ensures none { OnOk result (parts_fault rights.now returns.now ≡ None) }
    ensures refused { IfErr result (λ e. IsRefusal e (parts_fault rights.now returns.now)) }
{
    let sums = parts_by_right(alloc, rights.len(), returns)?;
    match first_above_whole(sums.as_slice()) {
        Some(right) => Err(RollRefused::ReturnParts(right as u32)),
        None => Ok(()),
    }
}
