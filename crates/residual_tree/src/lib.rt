//! A tree of the nodes to which steps with room lead from the outside, in the residual network of a circulation. It is
//! kept from push to push.
//!
//! The kept tree is that of Boykov and Kolmogorov, An Experimental Comparison of Min-Cut/Max-Flow Algorithms for Energy
//! Minimization in Vision (2004), in a simple form: where a step lost its room, the subtree below it is freed, and
//! grows again from the nodes that are still labeled. The terms are those of Ahuja, Magnanti and Orlin, Network Flows
//! (1993), section 2.4. A basin node to which no such steps lead is unlabeled. All amounts are in units of 1,000 cubic
//! metres. A tree lies in words that are borrowed: no call takes memory.
#![tactic(auto)]

ghost use Rattle.std.specs.Prelude.{◌≡◌, ℕ, ◌+◌, ◌-◌, ◌*◌, ◌<◌, ◌≤◌, ◌==◌, length, slice_index, IsTrue, ◌↔◌};
ghost use Rattle.circulation.specs.Contents.{arcs, flow_of, step_of, held_contents, IsCirculation, SameButScratch};
ghost use Rattle.circulation.specs.Residual.{arc_of};
ghost use Rattle.bit_words.specs.Marks.{words_for, is_marked};
ghost use Rattle.residual_tree.specs.Tree.{label_of, IsLabeled, IsResidualTree, unlabeled};
ghost use Rattle.residual_tree.specs.Repair.{IsSaturatedTree, HasArtificialStep};
ghost use Rattle.residual_tree.specs.TreeWords.{tree_words};

mod adopting;
mod freeing;
mod growing;
mod labels;
pub mod laws;
mod parts;
mod predecessor;
mod raising;
mod tracing;

use crate::labels::Labels;
use crate::parts::{grow_all, label_back, regrow};
pub use crate::raising::{TreeRaised, raise_by_tree, raise_take, raise_within_unlabeled};
use bit_words::words_for;
use circulation::CirculationMut;
use circulation::residual::end;
use std::marker::Model;

/// The label of the outside node, which no step has. All labels are below 2^34.
const ROOT: u64 = 0x3_FFFF_FFFF;

/// How many words a tree takes, for this many basin nodes.
pub fn tree_words(nodes: u32) -> usize
    ensures { result ≡ tree_words nodes }
{
    4 * nodes as usize + 1 + words_for(nodes)
}

/// The tree: a word for each node, a mark for each that is unlabeled, and room for a search. Contracts see it as the
/// list of its words.
#[derive(Drop)]
pub struct ResidualTree<'t> {
    labels: Labels<'t>,
    room: &'t mut [u64],
}

impl<'t> Model for ResidualTree<'t> {
    ghost use Rattle.std.specs.Prelude.{ℕ, List};

    ghost Value = { List ℕ };

    ghost use Rattle.residual_tree.specs.Kept.{words, HasTreeRoom};

    ghost view = { words };

    ghost invariant = { HasTreeRoom };
}

impl<'t> ResidualTree<'t> {
    /// The tree that grows from the outside alone, over all steps with room, in these words, which may hold anything.
    /// The nodes are looked at in the given order. Any basin nodes will do; where each node is there after those from
    /// which water can come to it, planting takes least time.
    pub fn plant(circ: &CirculationMut<'_>, order: &[u32], words: &'t mut [u64]) -> ResidualTree<'t>
        requires order { (i : ℕ) → i < length order.now → slice_index order.now i < circ.now.nodes }
        requires words { length words.old ≡ tree_words circ.now.nodes }
        ensures { IsResidualTree circ.now result }
    {
        let nodes = circ.nodes();
        let (labels, words) = words.split_at_mut(nodes as usize + 1);
        let (unlabeled, room) = words.split_at_mut(words_for(nodes));
        let mut labels = Labels::over(labels, unlabeled);
        grow_all(circ, order, room, &mut labels);
        ResidualTree { labels, room }
    }

    /// Repairs the tree after steps may have lost their room: those that stand in `count` scratch words from word
    /// `first` on. Only nodes below such steps are searched.
    pub fn repair(&mut self, circ: &CirculationMut<'_>, first: usize, count: usize)
        requires fits { first + count ≤ 4 * circ.now.nodes + 8 }
        requires arcs { (i : ℕ) → first ≤ i → i < first + count → arc_of (step_of circ.now i) < arcs circ.now }
        requires saturated { IsSaturatedTree circ.now self.old first (first + count) }
        ensures { IsResidualTree circ.now self.new }
    {
        // This call says that the circulation is kept.
        let _nodes = circ.nodes();
        let last = first + count;
        for at in first..last {
            let step = circ.scratch_get(at);
            // Most steps that a push fills label no node.
            if self.word(end(circ, step)) == step + 1 {
                regrow(circ, self.room, &mut self.labels, at, last - at);
                return;
            }
        }
    }

    /// The label of a node, from its word: 0 where it is unlabeled, else one more than the step by which it is labeled.
    /// The outside has `ROOT`.
    fn word(&self, node: u32) -> u64
        requires { node < length self.now }
        ensures { result ≡ label_of self.now node }
    {
        self.labels.get(node)
    }

    /// The marks of the unlabeled nodes, 64 to a word, as `bit_words` has them. The outside has none, and the bits
    /// above the last basin node's mean nothing.
    pub fn unlabeled_marks(&self) -> &[u64]
        ensures count { length result.now ≡ words_for (length self.now - 1) }
        ensures marks { (v : ℕ) → v + 1 < length self.now → is_marked result.now v ≡ (label_of self.now v == 0) }
    {
        self.labels.unlabeled()
    }

    /// Whether a node is unlabeled, which only a basin node can be.
    pub fn is_unlabeled(&self, node: u32) -> bool
        requires { node < length self.now }
        ensures { IsTrue result ↔ (label_of self.now node ≡ 0) }
    {
        self.labels.get(node) == 0
    }

    /// Holds an amount on an arc, in units of 1,000 cubic metres, as `CirculationMut::hold` does, and repairs the tree.
    /// Where at least as much is held already, nothing changes.
    pub fn hold(&mut self, circ: &mut CirculationMut<'_>, arc: u32, amount: u64)
        requires arc { arc < arcs circ.old }
        requires amount { amount ≤ flow_of circ.old arc }
        requires tree { IsResidualTree circ.old self.old }
        ensures kept { IsCirculation circ.new }
        ensures held { circ.new ≡ record (held_contents circ.old arc amount) { scratch = circ.new.scratch } }
        ensures tree { IsResidualTree circ.new self.new }
    {
        // This call says that the circulation is kept.
        let _nodes = circ.nodes();
        if amount <= circ.lower(arc) {
            return;
        }
        circ.scratch_set(0, 2 * u64::from(arc) + 1);
        circ.hold(arc, amount);
        self.repair(circ, 0, 1);
    }

    /// Labels the unlabeled tail of an exit, an arc to the outside, by the artificial step back over the exit, and then
    /// all nodes to which steps with room lead from there.
    pub fn add_artificial(&mut self, circ: &CirculationMut<'_>, exit: u32)
        requires exit { exit < arcs circ.now }
        requires out { slice_index circ.now.to exit ≡ circ.now.nodes }
        requires unlabeled { label_of self.old (slice_index circ.now.from exit) ≡ 0 }
        requires tree { IsResidualTree circ.now self.old }
        ensures tree { HasArtificialStep circ.now self.new (2 * exit + 1) }
        ensures head { IsLabeled self.new (slice_index circ.now.from exit) }
    {
        // This call says that the circulation is kept.
        let _nodes = circ.nodes();
        label_back(circ, self.room, &mut self.labels, exit);
    }

    /// Drops the artificial step back over an exit, and repairs the tree.
    pub fn drop_artificial(&mut self, circ: &mut CirculationMut<'_>, exit: u32)
        requires exit { exit < arcs circ.old }
        requires tree { HasArtificialStep circ.old self.old (2 * exit + 1) }
        ensures kept { IsCirculation circ.new }
        ensures rest { SameButScratch circ.old circ.new }
        ensures tree { IsResidualTree circ.new self.new }
    {
        // This call says that the circulation is kept.
        let _nodes = circ.nodes();
        circ.scratch_set(0, 2 * u64::from(exit) + 1);
        self.repair(circ, 0, 1);
    }
}
