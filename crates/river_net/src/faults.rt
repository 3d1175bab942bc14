//! Faults of single links and nodes.
ghost use Rattle.std.specs.Prelude.{◌≡◌, ◌<◌, All, IfSome, length};
ghost use Rattle.std.specs.List.{find, range_with_len};
ghost use Rattle.water_model.specs.Network.{HasNodes, is_outlet_in};
ghost use Rattle.river_net.specs.NetFaults.{first_self_link, first_from_outlet, keeps_water};

use water_model::types::{Link, Node};

/// The first link that leads from a node to itself.
pub fn self_link(links: &[Link]) -> Option<usize>
    ensures first { result ≡ first_self_link links.now }
    ensures in_range { IfSome result (λ link. link < length links.now) }
{
    links.iter().position(|link| link.from == link.to)
}

fn is_outlet(nodes: &[Node], node: u32) -> bool
    requires { node < length nodes.now }
    ensures { result ≡ is_outlet_in nodes.now node }
{
    nodes[node as usize].outlet
}

/// The first link that leaves an outlet.
pub fn link_from_outlet(nodes: &[Node], links: &[Link]) -> Option<usize>
    requires { All (λ l. HasNodes nodes.now l) links.now }
    ensures first { result ≡ first_from_outlet nodes.now links.now }
    ensures in_range { IfSome result (λ link. link < length links.now) }
{
    links.iter().position(|link| is_outlet(nodes, link.from))
}

/// Whether a node is no outlet and has no first river.
fn keeps_water(nodes: &[Node], rivers: &[Option<u32>], node: usize) -> bool
    requires node { node < length nodes.now }
    requires river { node < length rivers.now }
    ensures { result ≡ keeps_water nodes.now rivers.now node }
{
    !nodes[node].outlet && rivers[node].is_none()
}

/// The first node that is no outlet and has no first river.
pub fn node_without_river(nodes: &[Node], rivers: &[Option<u32>]) -> Option<usize>
    requires { length rivers.now ≡ length nodes.now }
    ensures first { result ≡ find (keeps_water nodes.now rivers.now)
        (range_with_len 0 (length nodes.now)) }
    ensures in_range { IfSome result (λ node. node < length nodes.now) }
{
    (0..nodes.len()).find(|node| keeps_water(nodes, rivers, *node))
}
