//! The nodes that a search has seen.
ghost use Rattle.std.specs.Prelude.{◌≡◌, ◌<◌, ◌≤◌, IfOk, length, slice_index};
ghost use Rattle.plan_residual.specs.Queue.{IsEmpty, IsQueue, IsVisit};

use std::alloc::{AllocError, Global};
use std::marker::Model;

/// The nodes that a search has seen, each once, in the order in which it saw them, with a mark for each node of the
/// basin that says whether it was seen.
#[derive(Drop)]
pub struct Queue {
    seen: Vec<bool>,
    nodes: Vec<u32>,
    size: usize,
}

impl Model for Queue {
    ghost use Rattle.plan_residual.specs.Queue.{QueueView};

    ghost Value = { QueueView };

    ghost view = { λ q. record { seen = q.seen.items; nodes = q.nodes.items; size = q.size } };
}

impl Queue {
    /// Takes the memory for so many nodes.
    pub fn open(alloc: Global, nodes: usize) -> Result<Queue, AllocError>
        requires { nodes ≤ 2000 }
        ensures { IfOk result (IsEmpty nodes) }
    {
        let seen = vec![in alloc; false; nodes]?;
        let nodes = vec![in alloc; 0; nodes]?;
        Ok(Queue {
            seen,
            nodes,
            size: 0,
        })
    }

    /// Whether each node of the basin was seen.
    pub fn seen(&self) -> &[bool]
        ensures { result.now ≡ self.now.seen }
    {
        self.seen.as_slice()
    }

    /// How many nodes were seen.
    pub fn len(&self) -> usize
        ensures { result ≡ self.now.size }
    {
        self.size
    }

    /// The node at an index.
    pub fn node(&self, index: usize) -> u32
        requires queue { IsQueue self.now }
        requires index { index < self.now.size }
        ensures value { result ≡ slice_index self.now.nodes index }
        ensures within { result < length self.now.seen }
    {
        self.nodes[index]
    }

    /// Puts a node in that was not there yet.
    pub fn visit(&mut self, node: u32)
        requires queue { IsQueue self.old }
        requires node { node < length self.old.seen }
        ensures { IsVisit self.old self.new node }
    {
        if self.seen[node as usize] {
            return;
        }
        self.seen[node as usize] = true;
        self.nodes[self.size] = node;
        self.size += 1;
    }

    /// Takes out all nodes.
    pub fn clear(&mut self)
        requires { IsQueue self.old }
        ensures { IsEmpty (length self.old.seen) self.new }
    {
        self.seen.fill(false);
        self.size = 0;
    }

    /// Takes out the nodes from an index on.
    pub fn forget(&mut self, size: usize)
        requires queue { IsQueue self.old }
        requires size { size ≤ self.old.size }
        ensures queue { IsQueue self.new }
        ensures count { length self.new.seen ≡ length self.old.seen }
        ensures nodes { self.new.nodes ≡ self.old.nodes }
        ensures size { self.new.size ≡ size }
    {
        for position in (size..self.size).rev() {
            self.seen[self.nodes[position] as usize] = false;
        }
        self.size = size;
    }
}
