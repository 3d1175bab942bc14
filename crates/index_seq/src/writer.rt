//! The text of an ensemble, one `put` for each line.
ghost use Rattle.std.specs.Prelude.{ℕ, ◌≡◌, ◌<◌, ◌≤◌, ◌∷◌, [], drop, length, slice_index, slice_index_or, ◌==◌, IsErr};
ghost use Rattle.std.specs.List.{flat_map, prefix_len};
ghost use Rattle.std.specs.List.Sorted.{IsNonDecreasingBy};
ghost use Rattle.water_edge.specs.Edge.{HasCause, Puts};
ghost use Rattle.water_model.specs.Valid.{IsValidBasin};
ghost use Rattle.water_model.specs.declared.space.Space.TheVariants.{Rights};
ghost use Rattle.index_seq.specs.Entries.{whole_line};
ghost use Rattle.index_seq.specs.Text.{yearly_lines, right_lines, ensemble_lines};
ghost use Rattle.rights_roll.specs.Rolls.{IsRollOf};

use crate::entry::EnsembleLine;
use result_text::listing::{Listing, put_line, put_listing};
use rights_roll::roll::Roll;
use std::marker::Model;
use water_edge::{Sink, SinkFailed};
use water_model::rows::Rows;
use water_model::space::Space;
use water_model::types::Basin;

/// How many of the first amounts are equal to the first one.
#[tactic(auto, using(crate::proofs::Prefixes::prefixes))]
fn run_length(amounts: &[u64]) -> usize
    requires { 0 < length amounts.now }
    ensures count { result ≡ prefix_len (λ x. x == slice_index amounts.now 0) amounts.now }
    ensures within { result ≤ length amounts.now }
    ensures some { 0 < result }
{
    let mut count = 1;
    while count < amounts.len() && amounts[count] == amounts[0] {
        count += 1;
    }
    count
}

/// The amounts after the first `count`.
fn after(amounts: &[u64], count: usize) -> &[u64]
    requires { count ≤ length amounts.now }
    ensures { result.now ≡ drop count amounts.now }
{
    &amounts[count..]
}

/// Puts a line for each different amount, with how often it stands in the list, which doesn't fall.
pub fn put_yearly<K: Sink>(sink: &mut K, basin: &Basin, amounts: &[u64]) -> Result<(), SinkFailed>
    requires basin { IsValidBasin basin.now }
    requires sorted { IsNonDecreasingBy (λ x. x) amounts.now }
    ensures text { Puts (K.output sink.old) (K.output sink.new) result
        (flat_map (whole_line basin.now) (yearly_lines amounts.now)) }
    ensures cause { HasCause (K.faults sink.old) (K.faults sink.new) (IsErr result) }
{
    let mut rest = amounts;
    while !rest.is_empty() {
        let count = run_length(rest);
        let entry = EnsembleLine::Yearly {
            amount: rest[0],
            count: count as u64,
        };
        put_line(sink, basin, entry)?;
        rest = after(rest, count);
    }
    Ok(())
}

/// Puts the lines of a right, by the amounts that it was delivered in the years.
fn put_right<K: Sink>(
    sink: &mut K,
    basin: &Basin,
    right: u32,
    amounts: &[u64],
) -> Result<(), SinkFailed>
    requires basin { IsValidBasin basin.now }
    requires right { right < length basin.now.rights }
    requires sorted { IsNonDecreasingBy (λ x. x) amounts.now }
    ensures text { Puts (K.output sink.old) (K.output sink.new) result
        (flat_map (whole_line basin.now) (EnsembleLine.Right right ∷ yearly_lines amounts.now)) }
    ensures cause { HasCause (K.faults sink.old) (K.faults sink.new) (IsErr result) }
{
    put_line(sink, basin, EnsembleLine::Right { right })?;
    put_yearly(sink, basin, amounts)
}

/// What each right of a basin was delivered in the years of an ensemble. The amounts of each right don't fall.
#[derive(Drop)]
struct Amounts<'b> {
    basin: &'b Basin,
    by_right: &'b [Rows<u64>],
}

impl<'b> Model for Amounts<'b> {
    ghost use Rattle.index_seq.specs.Text.{AmountsSeen, AreAmounts, amounts_seen};

    ghost Value = { AmountsSeen };

    ghost view = { λ a. amounts_seen a.basin.now a.by_right.now };

    ghost invariant = { λ a. AreAmounts (amounts_seen a.basin.now a.by_right.now) };
}

impl<'b> Amounts<'b> {
    /// The amounts of a right.
    fn of(&self, right: u32) -> &[u64]
        requires { right < length self.now.basin.rights }
        ensures right { result.now ≡ slice_index_or self.now.by_right right [] }
        ensures sorted { IsNonDecreasingBy (λ x. x) result.now }
    {
        self.by_right[right as usize].as_slice()
    }
}

impl<'b> Listing for Amounts<'b> {
    type Part = ();

    type Said = EnsembleLine;

    ghost of_basin = { λ a. a.basin };

    ghost part_space = { λ part. Rights };

    ghost entry_lines = { λ a part right. right_lines (λ r. slice_index_or a.by_right r []) right };

    fn space(&self, _part: ()) -> Space {
        Space::Rights
    }

    fn put_entry<K: Sink>(&self, sink: &mut K, _part: (), right: u32) -> Result<(), SinkFailed> {
        put_right(sink, self.basin, right, self.of(right))
    }
}

/// Puts the text of an ensemble, by the amounts that each right was delivered in the years of its traces, which don't
/// fall.
///
/// Each line is one `put`. `SinkFailed` comes only where the sink counted a fault; a prefix of the text was then put.
/// No memory is taken.
pub fn put_ensemble<K: Sink>(
    sink: &mut K,
    basin: &Basin,
    roll: &Roll,
    amounts: &[Rows<u64>],
) -> Result<(), SinkFailed>
    requires basin { IsValidBasin basin.now }
    requires roll { IsRollOf basin.now.rights roll.now }
    requires count { length amounts.now ≡ length basin.now.rights }
    requires sorted { (r : ℕ) → IsNonDecreasingBy (λ x. x) (slice_index_or amounts.now r []) }
    ensures text { Puts (K.output sink.old) (K.output sink.new) result
        (flat_map (whole_line basin.now) (ensemble_lines basin.now (λ r. slice_index_or amounts.now r []))) }
    ensures cause { HasCause (K.faults sink.old) (K.faults sink.new) (IsErr result) }
{
    let traces = basin.months / 12;
    let first = EnsembleLine::Ensemble {
        first: basin.first,
        traces,
    };
    let last = EnsembleLine::Done { traces };
    let rights = Amounts {
        basin,
        by_right: amounts,
    };
    put_listing(sink, &rights, basin, roll, &[first], &[()], &[last])
}
