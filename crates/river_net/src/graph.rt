//! The nodes and links as a graph.
ghost use Rattle.std.specs.Prelude.{◌≡◌, ◌+◌, ◌<◌, ◌≤◌, All, IfOk, length};
ghost use Rattle.water_model.specs.Network.{HasNodes, head_in, tail_in};
ghost use Rattle.river_net.specs.Firsts.{IsNextFrom, IsWithin};
ghost use Rattle.river_net.specs.Sorting.{AreEntering};

use chains::{Chains, chains_by};
use std::alloc::{AllocError, Global};
use std::marker::Model;
use water_model::types::{Link, Node};

/// Links between nodes, with those that leave each node as a chain in the order of their indices.
#[derive(Drop)]
pub struct Graph<'a> {
    links: &'a [Link],
    leaving: Chains,
}

impl<'a> Model for Graph<'a> {
    ghost use Rattle.std.specs.Prelude.{length};
    ghost use Rattle.river_net.specs.GraphView.{GraphView};
    ghost use Rattle.river_net.specs.Firsts.{IsGraph};

    ghost Value = { GraphView };

    ghost view = { λ g. record { nodes = length g.leaving.first.items; links = g.links.now } };

    ghost invariant = { λ g. IsGraph g.links.now g.leaving };
}

/// The node that a link leaves.
fn tail(nodes: &[Node], links: &[Link], link: usize) -> u32
    requires ends { All (λ l. HasNodes nodes.now l) links.now }
    requires link { link < length links.now }
    ensures value { result ≡ tail_in links.now link }
    ensures within { result < length nodes.now }
{
    links[link].from
}

/// For each node how many links lead to it.
fn count_entering(alloc: Global, nodes: usize, links: &[Link]) -> Result<Vec<u32>, AllocError>
    requires bounded_links { length links.now ≤ 4000 }
    requires within { IsWithin nodes links.now }
    ensures { IfOk result (λ counts.
        AreEntering (record { nodes = nodes; links = links.now }) (length links.now) counts.items) }
{
    let mut counts = vec![in alloc; 0; nodes]?;
    for link in links {
        counts[link.to as usize] += 1;
    }
    Ok(counts)
}

impl<'a> Graph<'a> {
    /// Puts each link into the chain of the node that it leaves.
    pub fn build(alloc: Global, nodes: &[Node], links: &'a [Link]) -> Result<Graph<'a>, AllocError>
        requires bounded_nodes { length nodes.now ≤ 2000 }
        requires bounded_links { length links.now ≤ 4000 }
        requires ends { All (λ l. HasNodes nodes.now l) links.now }
        ensures { IfOk result (λ graph.
            graph ≡ record { nodes = length nodes.now; links = links.now }) }
    {
        let leaving = chains_by(alloc, nodes.len(), links.len(), |link| {
            Some(tail(nodes, links, link))
        })?;
        Ok(Graph { links, leaving })
    }

    /// How many nodes there are.
    pub fn nodes(&self) -> usize
        ensures value { result ≡ self.now.nodes }
        ensures bounded { result ≤ 2000 }
        ensures within { IsWithin self.now.nodes self.now.links }
    {
        self.leaving.first.len()
    }

    /// For each node how many links lead to it.
    pub fn links_into(&self, alloc: Global) -> Result<Vec<u32>, AllocError>
        ensures entering { IfOk result (λ counts.
            AreEntering self.now (length self.now.links) counts.items) }
        ensures within { IsWithin self.now.nodes self.now.links }
        ensures bounded { self.now.nodes ≤ 2000 }
    {
        count_entering(alloc, self.leaving.first.len(), self.links)
    }

    /// The node that a link leads to.
    pub fn head(&self, link: u32) -> u32
        requires { link < length self.now.links }
        ensures value { result ≡ head_in self.now.links link }
        ensures within { result < self.now.nodes }
    {
        self.links[link as usize].to
    }

    /// The first link that leaves a node.
    pub fn first(&self, node: u32) -> Option<u32>
        requires { node < self.now.nodes }
        ensures value { IsNextFrom self.now.links node 0 result }
        ensures within { IsWithin self.now.nodes self.now.links }
    {
        self.leaving.first_of(node)
    }

    /// The next link that leaves the same node as this one.
    pub fn next(&self, link: u32) -> Option<u32>
        requires { link < length self.now.links }
        ensures { IsNextFrom self.now.links (tail_in self.now.links link) (link + 1) result }
    {
        self.leaving.next_of(link)
    }
}
