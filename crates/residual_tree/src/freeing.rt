//! Nodes are freed: those whose steps lost their room and into which no near step leads, and all that is below them in
//! the tree.
ghost use Rattle.std.specs.Prelude.{◌≡◌, ℕ, ◌+◌, ◌-◌, ◌*◌, ◌^◌, ◌<◌, ◌≤◌, ◌≢◌, ◌⊎◌, length, slice_set};
ghost use Rattle.circulation.specs.Contents.{arcs, flow_of, network, step_of, IsCirculation};
ghost use Rattle.circulation.specs.Residual.{arc_of, room_of, end_of};
ghost use Rattle.residual_tree.specs.Tree.{label_of, relabel};
ghost use Rattle.residual_tree.specs.Repair.{IsFreeing};
ghost use Rattle.residual_tree.specs.Adopting.{HasSteps, IsAdopted, IsFreedNode};

use crate::ROOT;
use crate::adopting::find_near;
use crate::labels::Labels;
use circulation::CirculationMut;
use circulation::residual::{end, room, start};

/// Frees the node that a step enters, where it is the step by which the node is labeled. Takes how many nodes were
/// freed before, and answers how many are now.
fn free_end(labels: &mut Labels<'_>, freed: &mut [u64], step: u64, node: u32, size: usize) -> usize
    requires step { step < 2 ^ 33 }
    requires node { node < length labels.old }
    requires room { label_of labels.old node ≡ step + 1 → size < length freed.old }
    ensures child { label_of labels.old node ≡ step + 1 →
        (result ≡ size + 1) × (labels.new ≡ relabel labels.old node 0 0) × (freed.new ≡ slice_set freed.old size node) }
    ensures other { label_of labels.old node ≢ step + 1 →
        (result ≡ size) × (labels.new ≡ labels.old) × (freed.new ≡ freed.old) }
{
    if labels.get(node) == step + 1 {
        labels.set(node, 0, 0);
        freed[size] = u64::from(node);
        size + 1
    } else {
        size
    }
}

/// Where a node is labeled by this step, which has no room, it is adopted over a step that is near, or is freed.
fn adopt_or_free_node(
    circ: &CirculationMut<'_>,
    labels: &mut Labels<'_>,
    freed: &mut [u64],
    step: u64,
    node: u32,
    size: usize,
) -> usize
    requires step { step < 2 ^ 33 }
    requires node { node ≤ circ.now.nodes }
    requires root { label_of labels.old circ.now.nodes ≡ ROOT }
    requires words { length labels.old ≡ circ.now.nodes + 1 }
    requires steps { HasSteps circ.now labels.old }
    requires room { label_of labels.old node ≡ step + 1 → size < length freed.old }
    requires kept { IsCirculation circ.now }
    ensures child { label_of labels.old node ≡ step + 1 →
        IsAdopted circ.now labels.old labels.new freed.old freed.new size result node ⊎
        IsFreedNode labels.old labels.new freed.old freed.new size result node }
    ensures other { label_of labels.old node ≢ step + 1 →
        (result ≡ size) × (labels.new ≡ labels.old) × (freed.new ≡ freed.old) }
{
    if labels.get(node) != step + 1 {
        return size;
    }
    let word = find_near(circ, labels, node);
    if word != 0 {
        labels.set(node, word, start(circ, word - 1));
        return size;
    }
    labels.set(node, 0, 0);
    freed[size] = u64::from(node);
    size + 1
}

/// Where a step has no room and the node that it enters is labeled by it, the node is adopted over a step that is near,
/// or is freed.
fn adopt_or_free_end(
    circ: &CirculationMut<'_>,
    labels: &mut Labels<'_>,
    freed: &mut [u64],
    step: u64,
    size: usize,
) -> usize
    requires arc { arc_of step < arcs circ.now }
    requires root { label_of labels.old circ.now.nodes ≡ ROOT }
    requires words { length labels.old ≡ circ.now.nodes + 1 }
    requires steps { HasSteps circ.now labels.old }
    requires room { label_of labels.old (end_of (network circ.now) step) ≡ step + 1 → size < length freed.old }
    requires kept { IsCirculation circ.now }
    ensures saturated { let v = end_of (network circ.now) step in
        label_of labels.old v ≡ step + 1 → room_of (network circ.now) (flow_of circ.now) step ≡ 0 →
        IsAdopted circ.now labels.old labels.new freed.old freed.new size result v ⊎
        IsFreedNode labels.old labels.new freed.old freed.new size result v }
    ensures other { label_of labels.old (end_of (network circ.now) step) ≢ step + 1 →
        (result ≡ size) × (labels.new ≡ labels.old) × (freed.new ≡ freed.old) }
    ensures firm { 0 < room_of (network circ.now) (flow_of circ.now) step →
        (result ≡ size) × (labels.new ≡ labels.old) × (freed.new ≡ freed.old) }
{
    if room(circ, step) == 0 {
        adopt_or_free_node(circ, labels, freed, step, end(circ, step), size)
    } else {
        size
    }
}

/// Adopts the nodes whose steps lost their room over steps that are near, or frees them. The steps that may have lost
/// it stand in the scratch words from `first` to below `last`.
pub fn adopt_or_free(
    circ: &CirculationMut<'_>,
    labels: &mut Labels<'_>,
    freed: &mut [u64],
    first: usize,
    last: usize,
) -> usize
    requires order { first ≤ last }
    requires fits { last ≤ 4 * circ.now.nodes + 8 }
    requires arcs { (i : ℕ) → first ≤ i → i < last → arc_of (step_of circ.now i) < arcs circ.now }
    requires tree { IsFreeing circ.now labels.old freed.old first last 0 0 }
    requires kept { IsCirculation circ.now }
    ensures { IsFreeing circ.now labels.new freed.new last last 0 result }
{
    let mut size = 0;
    for at in first..last {
        let step = circ.scratch_get(at);
        size = adopt_or_free_end(circ, labels, freed, step, size);
    }
    size
}

/// Frees the children of the freed node at the index `done`.
fn free_children(
    circ: &CirculationMut<'_>,
    labels: &mut Labels<'_>,
    freed: &mut [u64],
    done: usize,
    size: usize,
) -> usize
    requires done { done < size }
    requires tree { (at : ℕ) × IsFreeing circ.now labels.old freed.old at at done size }
    requires kept { IsCirculation circ.now }
    ensures { (at : ℕ) × IsFreeing circ.now labels.new freed.new at at (done + 1) result }
{
    let node = freed[done] as u32;
    let mut count = size;
    for place in circ.row_first(node)..circ.row_last(node) {
        let step = circ.step_at(place);
        count = free_end(labels, freed, step, circ.end_at(place), count);
    }
    count
}

/// Frees all that is below the freed nodes in the tree.
pub fn free_below(
    circ: &CirculationMut<'_>,
    labels: &mut Labels<'_>,
    freed: &mut [u64],
    size: usize,
) -> usize
    requires tree { (at : ℕ) × IsFreeing circ.now labels.old freed.old at at 0 size }
    requires kept { IsCirculation circ.now }
    ensures { (at : ℕ) × IsFreeing circ.now labels.new freed.new at at result result }
{
    let mut count = size;
    let mut done = 0;
    while done < count {
        count = free_children(circ, labels, freed, done, count);
        done += 1;
    }
    count
}
