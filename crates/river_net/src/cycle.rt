//! The first node on a cycle of links.
ghost use Rattle.std.specs.Prelude.{◌≡◌, ℕ, ◌+◌, ◌<◌, ◌++◌, ◌∷◌, [], if◌then◌else◌, true, false, IfOk, OnOk, length};
ghost use Rattle.std.specs.Prelude.{slice_index, slice_set};
ghost use Rattle.std.specs.Bool.{OnTrue, OnFalse};
ghost use Rattle.std.specs.List.{find, range_with_len};
ghost use Rattle.water_model.specs.Lookups.{has};
ghost use Rattle.river_net.specs.Firsts.{IsWithin};
ghost use Rattle.river_net.specs.Search.{IsExpanded, reaches_itself};

use crate::graph::Graph;
use std::alloc::{AllocError, Global};

/// A search along links, breadth first.
#[derive(Drop)]
struct Search {
    /// For each node whether it was seen.
    seen: Vec<bool>,
    /// The nodes that were seen, in the order in which they were.
    queue: Vec<u32>,
}

impl Search {
    /// A search that has seen only the start.
    fn start(alloc: Global, graph: &Graph, node: u32) -> Result<Search, AllocError>
        requires { node < graph.now.nodes }
        ensures search { IfOk result (λ search.
            IsExpanded graph.now node search.seen.items search.queue.items 0) }
        ensures within { IsWithin graph.now.nodes graph.now.links }
    {
        let mut seen = vec![in alloc; false; graph.nodes()]?;
        seen[node as usize] = true;
        let queue = vec![in alloc; node]?;
        Ok(Search { seen, queue })
    }

    /// Puts a node into the queue, unless it is there already.
    fn visit(&mut self, node: u32) -> Result<(), AllocError>
        requires { node < length self.old.seen.items }
        ensures seen { OnOk result (self.new.seen.items ≡ slice_set self.old.seen.items node true) }
        ensures queue { let queue = self.old.queue.items in
            let known = has self.old.seen.items node in
            OnOk result (self.new.queue.items ≡ (if known then queue else queue ++ node ∷ [])) }
    {
        if !self.seen[node as usize] {
            self.seen[node as usize] = true;
            self.queue.push(node)?;
        }
        Ok(())
    }

    /// Follows the links that leave the node at the index `done` of the queue. Says whether one leads to the start.
    fn expand(&mut self, done: usize, start: u32, graph: &Graph) -> Result<bool, AllocError>
        requires within { done < length self.old.queue.items }
        requires search { IsExpanded graph.now start self.old.seen.items self.old.queue.items done }
        ensures found { IfOk result (λ found.
            OnTrue found (reaches_itself graph.now start ≡ true)) }
        ensures search { IfOk result (λ found. OnFalse found
            (IsExpanded graph.now start self.new.seen.items self.new.queue.items (done + 1))) }
    {
        let mut next = graph.first(self.queue[done]);
        while let Some(link) = next {
            let head = graph.head(link);
            if head == start {
                return Ok(true);
            }
            self.visit(head)?;
            next = graph.next(link);
        }
        Ok(false)
    }
}

/// Whether links lead from the node back to it.
fn reaches_itself(alloc: Global, graph: &Graph, node: u32) -> Result<bool, AllocError>
    requires { node < graph.now.nodes }
    ensures { IfOk result (λ found. found ≡ reaches_itself graph.now node) }
{
    let mut search = Search::start(alloc, graph, node)?;
    let mut done = 0;
    while done < search.queue.len() {
        if search.expand(done, node, graph)? {
            return Ok(true);
        }
        done += 1;
    }
    Ok(false)
}

/// The first node that reaches itself. `waits` has the counts of [`crate::sorting::Sorting`]: where one is 0, the node
/// does not reach itself, so no search starts from it.
pub fn node_on_cycle(alloc: Global, graph: &Graph, waits: &[u32]) -> Result<Option<u32>, AllocError>
    requires count { length waits.now ≡ graph.now.nodes }
    requires waiting { (v : ℕ) → v < graph.now.nodes → slice_index waits.now v ≡ 0 →
        reaches_itself graph.now v ≡ false }
    ensures { let nodes = range_with_len 0 graph.now.nodes in
        IfOk result (λ node. node ≡ find (reaches_itself graph.now) nodes) }
{
    let nodes = graph.nodes();
    for node in 0..nodes {
        if waits[node] > 0 && reaches_itself(alloc, graph, node as u32)? {
            return Ok(Some(node as u32));
        }
    }
    Ok(None)
}
