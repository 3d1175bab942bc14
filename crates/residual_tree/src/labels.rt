//! The words of the nodes, and beside them a mark for each node that is unlabeled.
ghost use Rattle.std.specs.Prelude.{◌≡◌, ℕ, ◌+◌, ◌-◌, ◌/◌, ◌^◌, ◌<◌, ◌≢◌, ◌==◌, length, replicate};
ghost use Rattle.bit_words.specs.Marks.{words_for, is_marked};
ghost use Rattle.residual_tree.specs.Tree.{label_of, predecessor_of, relabel};

use bit_words::{mark, unmark};
use std::marker::Model;

/// All labels are below this: 0, one more than a step, and `ROOT`. The label of a word is its remainder by this.
const MOST_LABELS: u64 = 0x4_0000_0000;

/// From this many basin nodes on, a word may not hold a node's number whole: 30 bits are left above the label.
pub const MOST_NODES: u32 = 0x4000_0000;

/// A word for each node, the outside's last, and a mark for each basin node whose label is 0. The word of a node holds
/// its label and its predecessor, the node that its step leaves, so that one load gives both. Contracts see the list of
/// the words. They lie in words that are borrowed.
#[derive(Drop)]
pub struct Labels<'t> {
    labels: &'t mut [u64],
    unlabeled: &'t mut [u64],
}

impl<'t> Model for Labels<'t> {
    ghost use Rattle.std.specs.Prelude.{ℕ, List};

    ghost Value = { List ℕ };

    ghost use Rattle.residual_tree.specs.UnlabeledMarks.{node_words, IsMarked};

    ghost view = { node_words };

    ghost invariant = { IsMarked };
}

impl<'t> Labels<'t> {
    /// The word 0 for each basin node and for the outside, in the words `labels`, with marks in the words `unlabeled`.
    pub fn over(labels: &'t mut [u64], unlabeled: &'t mut [u64]) -> Labels<'t>
        requires outside { 0 < length labels.old }
        requires marks { length unlabeled.old ≡ words_for (length labels.old - 1) }
        ensures { result ≡ replicate (length labels.old) 0 }
    {
        labels.fill(0);
        unlabeled.fill(u64::MAX);
        Labels { labels, unlabeled }
    }

    /// The label of a node.
    #[tactic(auto, unfolding(crate::specs::Tree::label_of))]
    pub fn get(&self, node: u32) -> u64
        requires { node < length self.now }
        ensures { result ≡ label_of self.now node }
    {
        self.labels[node as usize] % MOST_LABELS
    }

    /// What is kept of a labeled node's predecessor: the remainder of its number by 2^30.
    #[tactic(auto, unfolding(crate::specs::Tree::predecessor_of))]
    pub fn predecessor(&self, node: u32) -> u32
        requires { node < length self.now }
        ensures { result ≡ predecessor_of self.now node }
    {
        (self.labels[node as usize] / MOST_LABELS) as u32
    }

    /// Gives a node its label and the node that its step leaves.
    pub fn set(&mut self, node: u32, label: u64, start: u32)
        requires node { node < length self.old }
        requires label { label < 2 ^ 34 }
        ensures { self.new ≡ relabel self.old node label start }
    {
        self.labels[node as usize] = label + u64::from(start % MOST_NODES) * MOST_LABELS;
        if node as usize + 1 < self.labels.len() {
            mark_as(self.unlabeled, node, label == 0);
        }
    }

    /// The marks of the basin nodes, 64 to a word: a node is marked where its label is 0. The bits above the last one's
    /// mean nothing.
    pub fn unlabeled(&self) -> &[u64]
        ensures count { length result.now ≡ words_for (length self.now - 1) }
        ensures marks { (v : ℕ) → v + 1 < length self.now → is_marked result.now v ≡ (label_of self.now v == 0) }
    {
        self.unlabeled
    }
}

/// Marks an index, or takes its mark away. The other marks stay.
fn mark_as(words: &mut [u64], place: u32, marked: bool)
    requires { place / 64 < length words.old }
    ensures count { length words.new ≡ length words.old }
    ensures on { is_marked words.new place ≡ marked }
    ensures off { (q : ℕ) → q ≢ place → is_marked words.new q ≡ is_marked words.old q }
{
    if marked {
        mark(words, place);
    } else {
        unmark(words, place);
    }
}
