//! The steps of the residual network, in a row for each node that they leave.
//!
//! Rows are made once, in time linear in nodes and arcs: the steps are chained by the nodes that they leave, and each
//! chain is then written down.
ghost use Rattle.std.specs.Prelude.{◌≡◌, ℕ, ◌+◌, ◌*◌, ◌^◌, ◌<◌, ◌≤◌, length, slice_index};
ghost use Rattle.circulation.specs.Residual.{arc_of, end_of};
ghost use Rattle.circulation.specs.Rows.{over, AreRows};
ghost use Rattle.circulation.specs.Chains.{turn_of, tails_of, heads_of, keys_of, IsNext, AreChains, IsPartRow};
ghost use Rattle.circulation.specs.Chains.{AreApart, AreSameBelow, AreSmall};

use crate::END;

/// The node that the step of a turn leaves: the heads of arcs come first, and then the tails.
fn key(pairs: &[u64], turn: usize) -> usize
    requires { turn < 2 * length pairs.now }
    ensures { result ≡ slice_index (keys_of pairs.now) turn }
{
    let arcs = pairs.len();
    if turn < arcs {
        (pairs[turn] % END) as usize
    } else {
        (pairs[turn - arcs] / END) as usize
    }
}

/// Chains each turn to the next one with its key, from the last turn to the first. The number of turns stands for
/// no turn.
fn link(first: &mut [u64], next: &mut [u64], pairs: &[u64])
    requires bounded { length pairs.now < 2 ^ 32 }
    requires nexts { length next.old ≡ 2 * length pairs.now }
    requires within { (a : ℕ) → a < length (keys_of pairs.now) → slice_index (keys_of pairs.now) a < length first.old }
    requires none { (v : ℕ) → v < length first.old → slice_index first.old v ≡ length (keys_of pairs.now) }
    ensures starts { (v : ℕ) → v < length first.new → IsNext (keys_of pairs.now) v 0 (slice_index first.new v) }
    ensures follows { (a : ℕ) → a < length (keys_of pairs.now) →
        IsNext (keys_of pairs.now) (slice_index (keys_of pairs.now) a) (a + 1) (slice_index next.new a) }
{
    for a in (0..2 * pairs.len()).rev() {
        let key = key(pairs, a);
        next[a] = first[key];
        first[key] = a as u64;
    }
}

/// The step of a turn, with this many arcs.
fn step_in_turn(arcs: u64, turn: u64) -> u64
    requires bounded { arcs < 2 ^ 32 }
    requires turn { turn < 2 * arcs }
    ensures arc { arc_of result < arcs }
    ensures turn { turn_of arcs result ≡ turn }
{
    if turn < arcs {
        2 * turn + 1
    } else {
        2 * (turn - arcs)
    }
}

/// The node that a step enters.
fn end(pairs: &[u64], step: u64) -> u64
    requires arc { arc_of step < length pairs.now }
    ensures end { result ≡ end_of (over (tails_of pairs.now) (heads_of pairs.now)) step }
    ensures small { result < 2 ^ 32 }
{
    let pair = pairs[(step / 2) as usize];
    if step % 2 == 1 {
        pair / END
    } else {
        pair % END
    }
}

/// Writes the row of a node from an index on, along its chain. Answers where it ends.
fn write_row(
    pairs: &[u64],
    heads: &[u64],
    next: &[u64],
    node: u32,
    step: &mut [u64],
    ends: &mut [u64],
    first: usize,
) -> usize
    requires bounded { length pairs.now < 2 ^ 32 }
    requires node { node < length heads.now }
    requires chains { (n : ℕ) × AreChains (keys_of pairs.now) n heads.now next.now }
    requires steps { length step.old ≡ 2 * length pairs.now }
    requires ends { length ends.old ≡ length step.old }
    requires inside { first ≤ length step.old }
    requires apart { AreApart (tails_of pairs.now) (heads_of pairs.now) node first step.old }
    requires small { AreSmall ends.old }
    ensures row { IsPartRow (tails_of pairs.now) (heads_of pairs.now) node (2 * length pairs.now)
        first result step.new ends.new }
    ensures apart { AreApart (tails_of pairs.now) (heads_of pairs.now) (node + 1) result step.new }
    ensures same { AreSameBelow first step.old ends.old step.new ends.new }
    ensures small { AreSmall ends.new }
    ensures inside { result ≤ length step.new }
{
    let arcs = pairs.len() as u64;
    let mut place = first;
    let mut turn = heads[node as usize];
    while turn < 2 * arcs {
        let here = step_in_turn(arcs, turn);
        step[place] = here;
        ends[place] = end(pairs, here);
        place += 1;
        turn = next[turn as usize];
    }
    place
}

/// Writes the rows of all nodes along their chains.
fn write_rows(
    nodes: u32,
    pairs: &[u64],
    heads: &[u64],
    next: &[u64],
    step: &mut [u64],
    ends: &mut [u64],
    first: &mut [u64],
)
    requires bounded { length pairs.now < 2 ^ 32 }
    requires chains { AreChains (keys_of pairs.now) nodes heads.now next.now }
    requires steps { length step.old ≡ 2 * length pairs.now }
    requires ends { length ends.old ≡ length step.old }
    requires first { length first.old ≡ nodes + 2 }
    requires none { AreSmall ends.old }
    ensures rows { AreRows nodes (tails_of pairs.now) (heads_of pairs.now)
        record { first = first.new; step = step.new; end = ends.new } }
    ensures small { AreSmall ends.new }
{
    let mut place = 0;
    first[0] = 0;
    for node in 0..nodes as usize + 1 {
        place = write_row(pairs, heads, next, node as u32, step, ends, place);
        first[node + 1] = place as u64;
    }
}

/// Writes the rows of the steps over the arcs whose ends are packed in words and may be the outside node. The chains of
/// which they are made lie in `heads` and `next`.
pub fn make_rows(
    nodes: u32,
    pairs: &[u64],
    heads: &mut [u64],
    next: &mut [u64],
    step: &mut [u64],
    ends: &mut [u64],
    first: &mut [u64],
)
    requires bounded { length pairs.now < 2 ^ 32 }
    requires from { (a : ℕ) → a < length pairs.now → slice_index (tails_of pairs.now) a ≤ nodes }
    requires to { (a : ℕ) → a < length pairs.now → slice_index (heads_of pairs.now) a ≤ nodes }
    requires heads { length heads.old ≡ nodes + 1 }
    requires next { length next.old ≡ 2 * length pairs.now }
    requires steps { length step.old ≡ 2 * length pairs.now }
    requires ends { length ends.old ≡ length step.old }
    requires first { length first.old ≡ nodes + 2 }
    requires none { AreSmall ends.old }
    ensures rows { AreRows nodes (tails_of pairs.now) (heads_of pairs.now)
        record { first = first.new; step = step.new; end = ends.new } }
    ensures small { AreSmall ends.new }
{
    heads.fill(2 * pairs.len() as u64);
    link(heads, next, pairs);
    write_rows(nodes, pairs, heads, next, step, ends, first);
}
