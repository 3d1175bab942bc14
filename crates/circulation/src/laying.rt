//! The words of a circulation that is opened.
ghost use Rattle.std.specs.Prelude.{◌≡◌, ◌≢◌, ℕ, ◌+◌, ◌*◌, ◌-◌, ◌^◌, ◌<◌, ◌≤◌};
ghost use Rattle.std.specs.Prelude.{All, length, take, drop, replicate, slice_index};
ghost use Rattle.circulation.specs.Rows.{Rows};
ghost use Rattle.circulation.specs.Chains.{tails_of, heads_of};
ghost use Rattle.circulation.specs.Places.{word_count, fixed_count, tails, heads};
ghost use Rattle.circulation.specs.Laid.{AreFixed, IsLaid};

use crate::rows::make_rows;
use crate::{END, Ends, fixed_words};

/// Packs the ends of each arc into a word.
fn pack(ends: &[Ends], pairs: &mut [u64])
    requires { length pairs.old ≡ length ends.now }
    ensures from { tails_of pairs.new ≡ tails ends.now }
    ensures to { heads_of pairs.new ≡ heads ends.now }
{
    for arc in 0..ends.len() {
        let Ends { from, to } = ends[arc];
        pairs[arc] = u64::from(from) * END + u64::from(to);
    }
}

/// Writes the rows of the steps into words that are 0. The chains of which they are made lie in spare words.
fn lay_rows(nodes: u32, pairs: &[u64], rows: &mut [u64], spare: &mut [u64])
    requires bounded { length pairs.now < 2 ^ 32 }
    requires from { (a : ℕ) → a < length pairs.now → slice_index (tails_of pairs.now) a ≤ nodes }
    requires to { (a : ℕ) → a < length pairs.now → slice_index (heads_of pairs.now) a ≤ nodes }
    requires rows { length rows.old ≡ 4 * length pairs.now + nodes + 2 }
    requires none { (p : ℕ) → slice_index rows.old p ≡ 0 }
    requires spare { 2 * length pairs.now + nodes + 1 ≤ length spare.old }
    ensures { (r : Rows) × AreFixed nodes pairs.now r rows.new }
{
    let arcs = pairs.len();
    let (step, rest) = rows.split_at_mut(2 * arcs);
    let (end, first) = rest.split_at_mut(2 * arcs);
    let (next, rest) = spare.split_at_mut(2 * arcs);
    let (heads, _unused) = rest.split_at_mut(nodes as usize + 1);
    make_rows(nodes, pairs, heads, next, step, end, first);
}

/// Writes the words that never change: the ends, and the rows of the steps.
fn lay_fixed(nodes: u32, ends: &[Ends], fixed: &mut [u64], spare: &mut [u64])
    requires bounded { length ends.now < 2 ^ 32 }
    requires ends { All (λ e. (e.from ≤ nodes) × (e.to ≤ nodes) × (e.from ≢ e.to)) ends.now }
    requires fixed { length fixed.old ≡ fixed_count nodes (length ends.now) }
    requires none { (p : ℕ) → slice_index fixed.old p ≡ 0 }
    requires spare { 2 * length ends.now + nodes + 1 ≤ length spare.old }
    ensures { IsLaid nodes ends.now fixed.new }
{
    let (pairs, rows) = fixed.split_at_mut(ends.len());
    pack(ends, pairs);
    lay_rows(nodes, pairs, rows, spare);
}

/// Writes the words of a circulation without supplies, bounds and flow into words that are 0.
pub fn lay(nodes: u32, ends: &[Ends], words: &mut [u64])
    requires bounded { length ends.now < 2 ^ 32 }
    requires ends { All (λ e. (e.from ≤ nodes) × (e.to ≤ nodes) × (e.from ≢ e.to)) ends.now }
    requires none { words.old ≡ replicate (word_count nodes (length ends.now)) 0 }
    ensures count { length words.new ≡ word_count nodes (length ends.now) }
    ensures fixed { IsLaid nodes ends.now (take (fixed_count nodes (length ends.now)) words.new) }
    ensures moving { drop (fixed_count nodes (length ends.now)) words.new ≡
        replicate (word_count nodes (length ends.now) - fixed_count nodes (length ends.now)) 0 }
{
    let (fixed, moving) = words.split_at_mut(fixed_words(nodes, ends.len() as u32));
    lay_fixed(nodes, ends, fixed, moving);
    moving.fill(0);
}
