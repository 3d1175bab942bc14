//! The scratch words in which a search keeps what it reached.
ghost use Rattle.std.specs.Prelude.{◌≡◌, ℕ, ◌+◌, ◌*◌, ◌<◌, ◌≤◌, slice_set};
ghost use Rattle.circulation.specs.Contents.{step_of, IsCirculation, SameButScratch};
ghost use Rattle.augment.specs.Search.{with_node};
ghost use Rattle.augment.specs.Raised.{position_of};

use circulation::CirculationMut;

/// A scratch word.
pub fn word(circ: &CirculationMut<'_>, at: usize) -> u64
    requires at { at < 4 * circ.now.nodes + 8 }
    requires kept { IsCirculation circ.now }
    ensures { result ≡ step_of circ.now at }
{
    circ.scratch_get(at)
}

/// Writes a scratch word.
pub fn set_word(circ: &mut CirculationMut<'_>, at: usize, value: u64)
    requires at { at < 4 * circ.old.nodes + 8 }
    requires kept { IsCirculation circ.old }
    ensures kept { IsCirculation circ.new }
    ensures written { circ.new ≡ record circ.old { scratch = slice_set circ.old.scratch at value } }
{
    circ.scratch_set(at, value);
}

/// The position of a node among those reached, from 1 on, or 0 for a node that was not reached.
pub fn position(circ: &CirculationMut<'_>, node: u32) -> u64
    requires node { node ≤ circ.now.nodes }
    requires kept { IsCirculation circ.now }
    ensures { result ≡ position_of circ.now node }
{
    word(circ, node as usize)
}

/// Reaches a node by a step, unless it was reached before. Takes how many were reached before, and answers
/// how many are now.
pub fn visit(circ: &mut CirculationMut<'_>, node: u32, step: u64, size: usize) -> usize
    requires node { node ≤ circ.old.nodes }
    requires room { position_of circ.old node ≡ 0 → size ≤ circ.old.nodes }
    requires kept { IsCirculation circ.old }
    ensures kept { IsCirculation circ.new }
    ensures seen { 0 < position_of circ.old node → (result ≡ size) × (circ.new ≡ circ.old) }
    ensures fresh { position_of circ.old node ≡ 0 →
        (result ≡ size + 1) × (circ.new ≡ with_node circ.old size node step) }
{
    if position(circ, node) == 0 {
        let nodes = circ.nodes() as usize;
        set_word(circ, node as usize, size as u64 + 1);
        set_word(circ, nodes + 1 + size, u64::from(node));
        set_word(circ, 2 * nodes + 2 + size, step);
        size + 1
    } else {
        size
    }
}

/// Marks no node as reached.
pub fn clear(circ: &mut CirculationMut<'_>)
    requires kept { IsCirculation circ.old }
    ensures kept { IsCirculation circ.new }
    ensures rest { SameButScratch circ.old circ.new }
    ensures none { (v : ℕ) → v ≤ circ.old.nodes → position_of circ.new v ≡ 0 }
{
    for at in 0..circ.nodes() as usize + 1 {
        set_word(circ, at, 0);
    }
}
