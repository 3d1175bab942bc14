//! The sums that are kept of the traces.
ghost use Rattle.std.specs.Prelude.{ℕ, ◌≡◌, ◌+◌, ◌<◌, ◌^◌, ◌++◌, ◌∷◌, [], length, slice_index, slice_index_or};
ghost use Rattle.std.specs.Prelude.{IfOk, OnOk};
ghost use Rattle.std.specs.List.Sorted.{IsNonDecreasingBy, IsPermutation};

use std::alloc::{AllocError, Global};
use water_model::rows::Rows;
use water_model::types::MonthRecord;

/// No amounts yet, with room for `room` of them.
fn empty_amounts(alloc: Global, room: usize) -> Result<Rows<u64>, AllocError>
    ensures { IfOk result (λ amounts. amounts ≡ []) }
{
    Ok(Rows::from_vec(Vec::with_capacity(alloc, room)?))
}

/// No amounts yet for each of `count` rights, with room for `room` of them each. AllocError comes where memory is
/// lacking.
pub fn empty_sums(alloc: Global, count: usize, room: usize) -> Result<Rows<Rows<u64>>, AllocError>
    ensures count { IfOk result (λ sums. length sums ≡ count) }
    ensures empty { IfOk result (λ sums. (r : ℕ) → slice_index_or sums r [] ≡ []) }
{
    let mut sums = Vec::with_capacity(alloc, count)?;
    for _right in 0..count {
        sums.push(empty_amounts(alloc, room)?)?;
    }
    Ok(Rows::from_vec(sums))
}

/// Adds what each right was delivered in a month to what it was delivered in the year so far.
pub fn add_month(year: &mut [u64], month: &MonthRecord)
    requires count { length year.old ≡ length month.now.delivered }
    requires room { (r : ℕ) → r < length year.old →
        slice_index year.old r + slice_index month.now.delivered r < 2 ^ 64 }
    ensures count { length year.new ≡ length year.old }
    ensures each { (r : ℕ) → r < length year.old →
        slice_index year.new r ≡ slice_index year.old r + slice_index month.now.delivered r }
{
    for right in 0..year.len() {
        year[right] += month.delivered[right];
    }
}

/// Adds an amount to the amounts of a right.
fn add_amount(amounts: &mut Rows<u64>, amount: u64) -> Result<(), AllocError>
    ensures { OnOk result (amounts.new ≡ amounts.old ++ amount ∷ []) }
{
    amounts.push(amount)
}

/// Adds to the amounts of each right what it was delivered in a year. AllocError comes where memory is lacking.
pub fn add_year(sums: &mut [Rows<u64>], year: &[u64]) -> Result<(), AllocError>
    requires count { length sums.old ≡ length year.now }
    ensures count { length sums.new ≡ length sums.old }
    ensures each { OnOk result ((r : ℕ) → r < length sums.old →
        slice_index_or sums.new r [] ≡ slice_index_or sums.old r [] ++ slice_index year.now r ∷ []) }
{
    for right in 0..sums.len() {
        add_amount(&mut sums[right], year[right])?;
    }
    Ok(())
}

/// Sets what each right was delivered in a year to 0.
fn clear_year(year: &mut [u64])
    ensures count { length year.new ≡ length year.old }
    ensures zeros { (r : ℕ) → r < length year.old → slice_index year.new r ≡ 0 }
{
    year.fill(0);
}

/// Adds a year that is over to the amounts of each right, and begins another. AllocError comes where memory is lacking.
pub fn end_year(sums: &mut [Rows<u64>], year: &mut [u64]) -> Result<(), AllocError>
    requires count { length sums.old ≡ length year.old }
    ensures count { length sums.new ≡ length sums.old }
    ensures each { OnOk result ((r : ℕ) → r < length sums.old →
        slice_index_or sums.new r [] ≡ slice_index_or sums.old r [] ++ slice_index year.old r ∷ []) }
    ensures begun { length year.new ≡ length year.old }
    ensures zeros { OnOk result ((r : ℕ) → r < length year.old → slice_index year.new r ≡ 0) }
{
    add_year(sums, year)?;
    clear_year(year);
    Ok(())
}

/// Puts amounts in order. It takes no memory.
fn sort_slice(amounts: &mut [u64])
    ensures count { length amounts.new ≡ length amounts.old }
    ensures permutation { IsPermutation amounts.old amounts.new }
    ensures sorted { IsNonDecreasingBy (λ x. x) amounts.new }
{
    amounts.sort_unstable();
}

/// Puts the amounts of a right in order.
fn sort_amounts(amounts: &mut Rows<u64>)
    ensures permutation { IsPermutation amounts.old amounts.new }
    ensures sorted { IsNonDecreasingBy (λ x. x) amounts.new }
{
    sort_slice(amounts.as_mut_slice());
}

/// Puts the amounts of each right in order. It takes no memory.
pub fn sort_sums(sums: &mut [Rows<u64>])
    ensures count { length sums.new ≡ length sums.old }
    ensures permutation { (r : ℕ) → IsPermutation (slice_index_or sums.old r []) (slice_index_or sums.new r []) }
    ensures sorted { (r : ℕ) → IsNonDecreasingBy (λ x. x) (slice_index_or sums.new r []) }
{
    for right in 0..sums.len() {
        sort_amounts(&mut sums[right]);
    }
}
