//! The network of a basin.
ghost use Rattle.std.specs.Prelude.{◌≡◌, ◌<◌, ◌≤◌, ◌^◌, List, length, map, All, None, IfOk, OnOk, IfErr, IfSome};
ghost use Rattle.std.specs.Prelude.{IfNone, slice_index};
ghost use Rattle.water_model.specs.Network.{HasNodes, IsSoundNetwork};
ghost use Rattle.water_model.specs.RunOfRiver.{RunsNaturally};
ghost use Rattle.water_model.specs.declared.types.Link.{Link};
ghost use Rattle.water_model.specs.declared.types.Node.{Node};
ghost use Rattle.river_net.specs.Net.{IsNet, IsNetOfSome, total_of};
ghost use Rattle.river_net.specs.NetFaults.{net_fault, IsNetRefusal};
ghost use Rattle.river_net.specs.Running.{CanSend, IsSent};

use crate::cycle::node_on_cycle;
use crate::faults::{link_from_outlet, node_without_river, self_link};
use crate::graph::Graph;
use crate::refused::NetRefused;
use crate::rivers::first_rivers;
use crate::sorting::{Sorting, sort};
use std::alloc::{AllocError, Global};
use std::marker::Model;
use water_model::types::{Link, Node};

/// The nodes of a basin in an order in which each link runs forward, and where their water goes.
#[derive(Drop)]
pub struct Net {
    order: Vec<u32>,
    /// For each node the first river that leaves it.
    rivers: Vec<Option<u32>>,
    /// For each link the node that it leads to.
    heads: Vec<u32>,
}

impl Model for Net {
    ghost use Rattle.river_net.specs.NetView.{NetView};

    ghost Value = { NetView };

    ghost view = { λ n. record { order = n.order.items; rivers = n.rivers.items; heads = n.heads.items } };
}

/// The node that each link leads to.
fn heads(alloc: Global, links: &[Link]) -> Result<Vec<u32>, AllocError>
    ensures { IfOk result (λ heads. heads.items ≡ map (λ l. l.to) links.now) }
{
    links.iter().map(|link| link.to).collect(alloc)
}

/// Sends the water that stands at a node down a river, if there is one.
fn send(river: Option<u32>, heads: &[u32], node: usize, flow: &mut [u64], out: &mut [u64])
    requires node { node < length out.old }
    requires river { CanSend river node heads.now flow.old out.old }
    ensures none { IfNone river ((flow.new ≡ flow.old) × (out.new ≡ out.old)) }
    ensures some { IfSome river (λ e. IsSent e node (slice_index heads.now e)
        (λ x. slice_index flow.old x) (λ x. slice_index flow.new x)
        (λ x. slice_index out.old x) (λ x. slice_index out.new x)) }
{
    if let Some(link) = river {
        let water = out[node];
        let head = heads[link as usize] as usize;
        flow[link as usize] = water;
        out[node] = 0;
        out[head] += water;
    }
}

impl Net {
    /// The network of nodes and links, which name nodes by their indices, from 0. Where something is at fault, the
    /// answer is the first fault: a link from a node to itself, else a link from an outlet, else a node that is no
    /// outlet and that no river leaves, else a cycle of links. It takes memory: `OutOfMemory` comes only where it runs
    /// out, and then says nothing of nodes and links.
    pub fn build(alloc: Global, nodes: &[Node], links: &[Link]) -> Result<Net, NetRefused>
        requires some { 1 ≤ length nodes.now }
        requires bounded_nodes { length nodes.now ≤ 2000 }
        requires bounded_links { length links.now ≤ 4000 }
        requires ends { All (λ l. HasNodes nodes.now l) links.now }
        ensures ok { IfOk result (λ net. IsNet nodes.now links.now net) }
        ensures sound { OnOk result (IsSoundNetwork nodes.now links.now) }
        ensures faultless { OnOk result (net_fault nodes.now links.now ≡ None) }
        ensures refused { IfErr result (λ e. IsNetRefusal e nodes.now links.now) }
    {
        if let Some(link) = self_link(links) {
            return Err(NetRefused::SelfLink(link as u32));
        }
        if let Some(link) = link_from_outlet(nodes, links) {
            return Err(NetRefused::LinkFromOutlet(link as u32));
        }
        let rivers = first_rivers(alloc, nodes, links)?;
        if let Some(node) = node_without_river(nodes, &rivers) {
            return Err(NetRefused::NoRiver(node as u32));
        }
        let graph = Graph::build(alloc, nodes, links)?;
        let Sorting { order, waits } = sort(alloc, &graph)?;
        if let Some(node) = node_on_cycle(alloc, &graph, &waits)? {
            return Err(NetRefused::DirectedCycle(node));
        }
        let heads = heads(alloc, links)?;
        Ok(Net {
            order,
            rivers,
            heads,
        })
    }

    /// Every node once, in an order in which each link runs forward.
    pub fn order(&self) -> &[u32]
        ensures { result.now ≡ self.now.order }
    {
        &self.order
    }

    /// Writes the run of the river for the supplies of the nodes: the flow of each link and the outflow of each node,
    /// all in 1,000 cubic metres. Each node that is no outlet sends all its water down its first river, no water runs
    /// down any other link, and each outlet lets its water out of the basin.
    pub fn natural(&self, supply: &[u64], flow: &mut [u64], out: &mut [u64])
        requires net { IsNetOfSome self.now }
        requires supply { length supply.now ≡ length self.now.order }
        requires flow { length flow.old ≡ length self.now.heads }
        requires out { length out.old ≡ length self.now.order }
        requires small { total_of supply.now < 10 ^ 15 }
        ensures run { (nodes : List Node) (links : List Link) →
            IsNet nodes links self.now → IsSoundNetwork nodes links →
            RunsNaturally nodes links supply.now flow.new out.new }
        ensures small { All (λ amount. amount ≤ total_of supply.now) flow.new }
        ensures all { total_of out.new ≡ total_of supply.now }
    {
        flow.fill(0);
        out.copy_from_slice(supply);
        let heads: &[u32] = &self.heads;
        for node in self.order.iter() {
            let river = self.rivers[*node as usize];
            send(river, heads, *node as usize, flow, out);
        }
    }
}
