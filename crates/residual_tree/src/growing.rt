//! The tree grows: freed nodes are labeled again, as far as steps with room lead to them.
ghost use Rattle.std.specs.Prelude.{◌≡◌, true, false, ℕ, ◌+◌, ◌-◌, ◌*◌, ◌^◌, ◌<◌, ◌≤◌, []};
ghost use Rattle.std.specs.Prelude.{length, replicate, slice_index, slice_set};
ghost use Rattle.circulation.specs.Contents.{arcs, flow_of, network, IsCirculation};
ghost use Rattle.circulation.specs.Residual.{arc_of, room_of, start_of, end_of, opposite};
ghost use Rattle.residual_tree.specs.Tree.{label_of, relabel, IsLabeled, IsResidualTree};
ghost use Rattle.residual_tree.specs.Repair.{no_step, IsFoundLabel, IsShut, IsFreeing, IsGrowing, IsWayIn};
ghost use Rattle.residual_tree.specs.Repair.{HasArtificialStep};

use crate::ROOT;
use crate::labels::Labels;
use circulation::CirculationMut;
use circulation::residual::{opposite, room, start};

/// Whether the opposite of a step to a node is a way into the node that the step leaves: it has room, and comes from a
/// node that is labeled.
pub fn is_way_back(circ: &CirculationMut<'_>, labels: &Labels<'_>, step: u64, node: u32) -> bool
    requires arc { arc_of step < arcs circ.now }
    requires node { end_of (network circ.now) step ≡ node }
    requires inside { node ≤ circ.now.nodes }
    requires words { length labels.now ≡ circ.now.nodes + 1 }
    requires kept { IsCirculation circ.now }
    ensures yes { result ≡ true → IsLabeled labels.now (end_of (network circ.now) step) ×
        (0 < room_of (network circ.now) (flow_of circ.now) (opposite step)) }
    ensures no { result ≡ false → IsShut circ.now labels.now step }
{
    // Both words are read before the one branch: which of the two says no can't be foreseen, and one branch costs less
    // than two.
    let labeled = labels.get(node) != 0;
    let open = room(circ, opposite(circ, step)) != 0;
    labeled & open
}

/// One more than a way into a node, which is a step with room from a labeled node, or 0 where there is none.
fn find_way(circ: &CirculationMut<'_>, labels: &Labels<'_>, node: u32) -> u64
    requires node { node ≤ circ.now.nodes }
    requires words { length labels.now ≡ circ.now.nodes + 1 }
    requires kept { IsCirculation circ.now }
    ensures { IsFoundLabel circ.now labels.now node result }
{
    for place in circ.row_first(node)..circ.row_last(node) {
        let step = circ.step_at(place);
        if is_way_back(circ, labels, step, circ.end_at(place)) {
            return opposite(circ, step) + 1;
        }
    }
    0
}

/// Finds a way into each freed node, from nodes that are labeled already.
fn find_ways(
    circ: &CirculationMut<'_>,
    labels: &Labels<'_>,
    freed: &[u64],
    count: usize,
    found: &mut [u64],
)
    requires count { count ≤ length freed.now }
    requires places { count ≤ length found.old }
    requires within { (k : ℕ) → k < count → slice_index freed.now k < circ.now.nodes }
    requires words { length labels.now ≡ circ.now.nodes + 1 }
    requires kept { IsCirculation circ.now }
    ensures { (k : ℕ) → k < count →
        IsFoundLabel circ.now labels.now (slice_index freed.now k) (slice_index found.new k) }
{
    for at in 0..count {
        found[at] = find_way(circ, labels, freed[at] as u32);
    }
}

/// Labels a node by a step from the node `start`. Takes how many nodes were labeled before, and answers how many are
/// now.
fn attach(
    labels: &mut Labels<'_>,
    queue: &mut [u64],
    node: u32,
    step: u64,
    start: u32,
    size: usize,
) -> usize
    requires node { node < length labels.old }
    requires size { size < length queue.old }
    requires step { step < 2 ^ 33 }
    ensures count { result ≡ size + 1 }
    ensures labels { labels.new ≡ relabel labels.old node (step + 1) start }
    ensures queue { queue.new ≡ slice_set queue.old size node }
{
    labels.set(node, step + 1, start);
    queue[size] = u64::from(node);
    size + 1
}

/// Labels an unlabeled node by a step, of which `word` is one more, unless `word` is 0. Takes how many nodes were
/// labeled before, and answers how many are now.
fn seed_node(
    circ: &CirculationMut<'_>,
    labels: &mut Labels<'_>,
    queue: &mut [u64],
    node: u32,
    word: u64,
    size: usize,
) -> usize
    requires node { node < length labels.old }
    requires arc { 0 < word → arc_of (word - 1) < arcs circ.now }
    requires kept { IsCirculation circ.now }
    requires room { label_of labels.old node ≡ 0 → size < length queue.old }
    ensures none { word ≡ 0 → (result ≡ size) × (labels.new ≡ labels.old) × (queue.new ≡ queue.old) }
    ensures seen { IsLabeled labels.old node → (result ≡ size) × (labels.new ≡ labels.old) × (queue.new ≡ queue.old) }
    ensures fresh { 0 < word → label_of labels.old node ≡ 0 →
        (result ≡ size + 1) × (labels.new ≡ relabel labels.old node word (start_of (network circ.now) (word - 1))) ×
        (queue.new ≡ slice_set queue.old size node) }
{
    if word == 0 {
        return size;
    }
    if labels.get(node) != 0 {
        return size;
    }
    labels.set(node, word, start(circ, word - 1));
    queue[size] = u64::from(node);
    size + 1
}

/// Labels the freed nodes into which steps lead from nodes labeled before. All ways are found before the first is
/// taken, so that a way is no longer than it need be.
fn seed(
    circ: &CirculationMut<'_>,
    labels: &mut Labels<'_>,
    queue: &mut [u64],
    freed: &[u64],
    count: usize,
    found: &mut [u64],
) -> usize
    requires count { count ≤ length freed.now }
    requires places { count ≤ length found.old }
    requires tree { IsGrowing circ.now (no_step circ.now) labels.old freed.now queue.old 0 count 0 0 }
    requires kept { IsCirculation circ.now }
    ensures { IsGrowing circ.now (no_step circ.now) labels.new freed.now queue.new count count 0 result }
{
    find_ways(circ, labels, freed, count, found);
    let mut size = 0;
    for at in 0..count {
        size = seed_node(circ, labels, queue, freed[at] as u32, found[at], size);
    }
    size
}

/// Labels the node that a step from the node `start` enters, if the step has room and the node is not labeled.
fn label_end(
    circ: &CirculationMut<'_>,
    labels: &mut Labels<'_>,
    queue: &mut [u64],
    step: u64,
    start: u32,
    node: u32,
    size: usize,
) -> usize
    requires arc { arc_of step < arcs circ.now }
    requires start { start_of (network circ.now) step ≡ start }
    requires node { end_of (network circ.now) step ≡ node }
    requires inside { node ≤ circ.now.nodes }
    requires words { length labels.old ≡ circ.now.nodes + 1 }
    requires room { label_of labels.old (end_of (network circ.now) step) ≡ 0 → size < length queue.old }
    requires kept { IsCirculation circ.now }
    ensures fresh { let v = end_of (network circ.now) step in
        label_of labels.old v ≡ 0 → 0 < room_of (network circ.now) (flow_of circ.now) step →
        (result ≡ size + 1) × (labels.new ≡ relabel labels.old v (step + 1) (start_of (network circ.now) step)) ×
        (queue.new ≡ slice_set queue.old size v) }
    ensures seen { IsLabeled labels.old (end_of (network circ.now) step) →
        (result ≡ size) × (labels.new ≡ labels.old) × (queue.new ≡ queue.old) }
    ensures full { room_of (network circ.now) (flow_of circ.now) step ≡ 0 →
        (result ≡ size) × (labels.new ≡ labels.old) × (queue.new ≡ queue.old) }
{
    // One branch, as in `is_way_back`.
    let unlabeled = labels.get(node) == 0;
    let open = room(circ, step) != 0;
    if unlabeled & open {
        attach(labels, queue, node, step, start, size)
    } else {
        size
    }
}

/// Labels the nodes to which steps with room lead from the node at the index `done` of the queue.
fn spread_from(
    circ: &CirculationMut<'_>,
    labels: &mut Labels<'_>,
    queue: &mut [u64],
    done: usize,
    size: usize,
) -> usize
    ghost artificial: { ℕ }
    requires done { done < size }
    requires tree { IsGrowing circ.now artificial labels.old [] queue.old 0 0 done size }
    requires kept { IsCirculation circ.now }
    ensures tree { IsGrowing circ.now artificial labels.new [] queue.new 0 0 (done + 1) result }
    ensures more { (v : ℕ) → IsLabeled labels.old v → IsLabeled labels.new v }
{
    let node = queue[done] as u32;
    let mut count = size;
    for place in circ.row_first(node)..circ.row_last(node) {
        let step = circ.step_at(place);
        count = label_end(circ, labels, queue, step, node, circ.end_at(place), count);
    }
    count
}

/// Labels all nodes to which steps lead from those that were labeled, in the order in which they were labeled.
fn spread(circ: &CirculationMut<'_>, labels: &mut Labels<'_>, queue: &mut [u64], size: usize)
    ghost artificial: { ℕ }
    requires tree { IsGrowing circ.now artificial labels.old [] queue.old 0 0 0 size }
    requires kept { IsCirculation circ.now }
    ensures tree { HasArtificialStep circ.now labels.new artificial }
    ensures more { (v : ℕ) → IsLabeled labels.old v → IsLabeled labels.new v }
{
    let mut count = size;
    let mut done = 0;
    while done < count {
        count = spread_from(circ, labels, queue, done, count);
        done += 1;
    }
}

/// Labels the freed nodes again, as far as steps with room lead to them.
pub fn grow(
    circ: &CirculationMut<'_>,
    labels: &mut Labels<'_>,
    queue: &mut [u64],
    freed: &[u64],
    count: usize,
    found: &mut [u64],
)
    requires places { length queue.old ≡ circ.now.nodes }
    requires found { length found.old ≡ circ.now.nodes }
    requires tree { (at : ℕ) × IsFreeing circ.now labels.old freed.now at at count count }
    requires kept { IsCirculation circ.now }
    ensures { IsResidualTree circ.now labels.new }
{
    let size = seed(circ, labels, queue, freed, count, found);
    spread(circ, labels, queue, size);
}

/// Labels the nodes to which steps lead from the outside, where no other node is labeled.
fn spread_out(circ: &CirculationMut<'_>, labels: &mut Labels<'_>, queue: &mut [u64]) -> usize
    requires bare { labels.old ≡ relabel (replicate (circ.now.nodes + 1) 0) circ.now.nodes ROOT 0 }
    requires places { length queue.old ≡ circ.now.nodes }
    requires kept { IsCirculation circ.now }
    ensures { IsGrowing circ.now (no_step circ.now) labels.new [] queue.new 0 0 0 result }
{
    let outside = circ.nodes();
    let mut count = 0;
    for place in circ.row_first(outside)..circ.row_last(outside) {
        let step = circ.step_at(place);
        count = label_end(
            circ,
            labels,
            queue,
            step,
            outside,
            circ.end_at(place),
            count,
        );
    }
    count
}

/// Notes that no step leads on to the nodes in the queue: they are labeled from the outside.
fn note_first(queue: &[u64], size: usize, depth: &mut [u64])
    requires size { size ≤ length queue.now }
    requires within { (k : ℕ) → k < size → slice_index queue.now k < length depth.old }
    ensures { length depth.new ≡ length depth.old }
{
    for at in 0..size {
        depth[queue[at] as usize] = 0;
    }
}

/// One more than a way into a node from upstream, or 0 where none is found. `depth` has for each labeled node how many
/// steps lead on to it, and gets the number for this one; of several ways the shortest is taken. No clause says so: any
/// way will do, and a long one only costs time.
fn nearest_way(circ: &CirculationMut<'_>, labels: &Labels<'_>, depth: &mut [u64], node: u32) -> u64
    requires node { node < circ.now.nodes }
    requires depth { circ.now.nodes < length depth.old }
    requires words { length labels.now ≡ circ.now.nodes + 1 }
    requires kept { IsCirculation circ.now }
    ensures way { (s : ℕ) → result ≡ s + 1 → IsWayIn circ.now labels.now node s }
    ensures count { length depth.new ≡ length depth.old }
{
    let mut word = 0;
    let mut least = u64::MAX;
    for place in circ.row_first(node)..circ.row_last(node) {
        let step = circ.step_at(place);
        // The arcs that leave the node come last in its row.
        if step % 2 == 0 {
            break;
        }
        let end = circ.end_at(place);
        if is_way_back(circ, labels, step, end) && depth[end as usize] < least {
            least = depth[end as usize];
            word = opposite(circ, step) + 1;
        }
    }
    depth[node as usize] = least.saturating_add(1);
    word
}

/// Labels, in the given order, each unlabeled node into which a way leads from upstream.
fn label_in_order(
    circ: &CirculationMut<'_>,
    order: &[u32],
    labels: &mut Labels<'_>,
    queue: &mut [u64],
    depth: &mut [u64],
    size: usize,
) -> usize
    requires order { (i : ℕ) → i < length order.now → slice_index order.now i < circ.now.nodes }
    requires depth { length depth.old ≡ 2 * circ.now.nodes }
    requires tree { IsGrowing circ.now (no_step circ.now) labels.old [] queue.old 0 0 0 size }
    requires kept { IsCirculation circ.now }
    ensures { IsGrowing circ.now (no_step circ.now) labels.new [] queue.new 0 0 0 result }
{
    let mut count = size;
    for place in 0..order.len() {
        let node = order[place];
        let own = labels.get(node);
        if own == 0 {
            let word = nearest_way(circ, labels, depth, node);
            count = seed_node(circ, labels, queue, node, word, count);
        }
    }
    count
}

/// Whether no way leads into an unlabeled node.
fn is_closed(circ: &CirculationMut<'_>, labels: &Labels<'_>) -> bool
    requires words { length labels.now ≡ circ.now.nodes + 1 }
    requires kept { IsCirculation circ.now }
    ensures { result ≡ true → (v : ℕ) → v < circ.now.nodes → label_of labels.now v ≡ 0 →
        (s : ℕ) → ¬ IsWayIn circ.now labels.now v s }
{
    for node in 0..circ.nodes() {
        let own = labels.get(node);
        if own == 0 {
            if find_way(circ, labels, node) != 0 {
                return false;
            }
        }
    }
    true
}

/// Labels all nodes to which steps lead from the outside, where none is labeled. Where each node of the order comes
/// after those from which a way leads into it, no row of a labeled node is looked at.
pub fn grow_out(
    circ: &CirculationMut<'_>,
    order: &[u32],
    labels: &mut Labels<'_>,
    queue: &mut [u64],
    depth: &mut [u64],
)
    requires order { (i : ℕ) → i < length order.now → slice_index order.now i < circ.now.nodes }
    requires bare { labels.old ≡ replicate (circ.now.nodes + 1) 0 }
    requires places { length queue.old ≡ circ.now.nodes }
    requires depth { length depth.old ≡ 2 * circ.now.nodes }
    requires kept { IsCirculation circ.now }
    ensures { IsResidualTree circ.now labels.new }
{
    labels.set(circ.nodes(), ROOT, 0);
    let first = spread_out(circ, labels, queue);
    note_first(queue, first, depth);
    let size = label_in_order(circ, order, labels, queue, depth, first);
    if is_closed(circ, labels) {
        return;
    }
    spread(circ, labels, queue, size);
}

/// Labels the unlabeled tail of an exit back over the exit, and all nodes to which steps with room lead from there.
pub fn label_over(circ: &CirculationMut<'_>, labels: &mut Labels<'_>, queue: &mut [u64], exit: u32)
    requires exit { exit < arcs circ.now }
    requires out { slice_index circ.now.to exit ≡ circ.now.nodes }
    requires unlabeled { label_of labels.old (slice_index circ.now.from exit) ≡ 0 }
    requires tree { IsResidualTree circ.now labels.old }
    requires places { length queue.old ≡ circ.now.nodes }
    requires kept { IsCirculation circ.now }
    ensures tree { HasArtificialStep circ.now labels.new (2 * exit + 1) }
    ensures head { IsLabeled labels.new (slice_index circ.now.from exit) }
{
    let node = circ.ends(exit).from;
    let size = attach(
        labels,
        queue,
        node,
        2 * u64::from(exit) + 1,
        circ.nodes(),
        0,
    );
    spread(circ, labels, queue, size);
}
