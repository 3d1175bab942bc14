//! The order in which water runs.
ghost use Rattle.std.specs.Prelude.{◌≡◌, ◌+◌, ◌-◌, ◌<◌, ◌==◌, ◌++◌, ◌∷◌, [], if◌then◌else◌, IfOk, OnOk, length};
ghost use Rattle.std.specs.Prelude.{slice_index, slice_set};
ghost use Rattle.river_net.specs.Sorting.{HasSources, IsReleased};

use crate::graph::Graph;
use std::alloc::{AllocError, Global};

/// Nodes in an order in which each link runs forward, and what the other nodes wait for.
#[derive(Drop)]
pub struct Sorting {
    pub order: Vec<u32>,
    /// For each node how many links lead to it from nodes that have no position in the order yet, or whose links are
    /// still to be looked at.
    pub waits: Vec<u32>,
}

impl Sorting {
    /// Puts the nodes that no link leads to into the order.
    fn start(alloc: Global, graph: &Graph) -> Result<Sorting, AllocError>
        ensures { IfOk result (λ sorting.
            HasSources graph.now sorting.order.items sorting.waits.items graph.now.nodes) }
    {
        let waits = graph.links_into(alloc)?;
        let mut order = Vec::new(alloc);
        for node in 0..waits.len() {
            if waits[node] == 0 {
                order.push(node as u32)?;
            }
        }
        Ok(Sorting { order, waits })
    }

    /// Counts off a link that leads to a node. Where it was the last, the node gets the next position.
    fn settle(&mut self, node: u32) -> Result<(), AllocError>
        requires within { node < length self.old.waits.items }
        requires waits { 0 < slice_index self.old.waits.items node }
        ensures waits { let waits = self.old.waits.items in
            self.new.waits.items ≡ slice_set waits node (slice_index waits node - 1) }
        ensures order { let order = self.old.order.items in
            let last = slice_index self.old.waits.items node == 1 in
            OnOk result (self.new.order.items ≡ (if last then order ++ node ∷ [] else order)) }
    {
        let count = self.waits[node as usize] - 1;
        self.waits[node as usize] = count;
        if count == 0 {
            self.order.push(node)?;
        }
        Ok(())
    }

    /// Counts off the links that leave the node at the position `done` of the order.
    fn release(&mut self, done: usize, graph: &Graph) -> Result<(), AllocError>
        requires within { done < length self.old.order.items }
        requires sorting { IsReleased graph.now self.old.order.items self.old.waits.items done }
        ensures { OnOk result
            (IsReleased graph.now self.new.order.items self.new.waits.items (done + 1)) }
    {
        let mut next = graph.first(self.order[done]);
        while let Some(link) = next {
            self.settle(graph.head(link))?;
            next = graph.next(link);
        }
        Ok(())
    }
}

/// Puts nodes into the order as long as one waits for no link (A. B. Kahn, Topological sorting of large
/// networks, 1962).
pub fn sort(alloc: Global, graph: &Graph) -> Result<Sorting, AllocError>
    ensures { IfOk result (λ sorting.
        let order = sorting.order.items in
        IsReleased graph.now order sorting.waits.items (length order)) }
{
    let mut sorting = Sorting::start(alloc, graph)?;
    let mut done = 0;
    while done < sorting.order.len() {
        sorting.release(done, graph)?;
        done += 1;
    }
    Ok(sorting)
}
