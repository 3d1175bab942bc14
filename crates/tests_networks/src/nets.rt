ghost use Rattle.std.specs.Prelude.{◌≡◌, ◌↔◌, length, All, IsTrue};
ghost use Rattle.water_model.specs.Network.{HasNodes};
ghost use Rattle.river_net.specs.Net.{IsNetOfSome};

use river_net::{Net, NetRefused};
use std::alloc::{AllocError, Global};
use std::process::Abort;
use water_model::types::{Carry, Inflow, Link, Node};
use water_text::name::Name;

/// Nodes that are outlets or not.
fn nodes(alloc: Global, outlets: &[bool]) -> Result<Vec<Node>, AllocError> {
    let mut nodes = Vec::new(alloc);
    for outlet in outlets {
        nodes.push(Node {
            name: Name::dash(),
            outlet: *outlet,
            inflow: Inflow::Gauged,
        })?;
    }
    Ok(nodes)
}

/// A river or a canal by its ends.
fn link(from: u32, to: u32, river: bool) -> Link {
    let carry = if river {
        Carry::River
    } else {
        Carry::Canal {
            per_day: 1,
            shut: [false; 12],
        }
    };
    Link {
        name: Name::dash(),
        from,
        to,
        carry,
    }
}

/// Links by their ends, rivers or canals.
fn links(alloc: Global, ends: &[(u32, u32, bool)]) -> Result<Vec<Link>, AllocError> {
    let mut links = Vec::new(alloc);
    for (from, to, river) in ends {
        links.push(link(*from, *to, *river))?;
    }
    Ok(links)
}

/// Whether the ends of each link are nodes.
fn lead_between(nodes: &[Node], links: &[Link]) -> bool
    ensures { IsTrue result ↔ All (λ l. HasNodes nodes.now l) links.now }
{
    links.iter().all(|link| (link.from as usize) < nodes.len() && (link.to as usize) < nodes.len())
}

const RIVER: bool = true;

const CANAL: bool = false;

/// Nodes, links, and the first fault.
static FAULTS: [(&[bool], &[(u32, u32, bool)], NetRefused); 4] = [
    (
        &[false, true],
        &[(0, 1, RIVER), (0, 0, CANAL)],
        NetRefused::SelfLink(1),
    ),
    (
        &[false, true],
        &[(0, 1, RIVER), (1, 0, CANAL)],
        NetRefused::LinkFromOutlet(1),
    ),
    (
        &[false, false, true],
        &[(0, 2, RIVER), (1, 2, CANAL)],
        NetRefused::NoRiver(1),
    ),
    // Water of the nodes 1 and 2 comes back to them. It also comes to node 0, which is on no cycle.
    (
        &[false, false, false, true],
        &[(0, 3, RIVER), (1, 2, RIVER), (2, 1, RIVER), (1, 0, CANAL)],
        NetRefused::DirectedCycle(1),
    ),
];

/// What a network of these nodes and links is refused for.
fn refusal(rt: &impl Abort, alloc: Global, nodes: &[Node], links: &[Link]) -> Option<NetRefused> {
    assert!(rt; 1 <= nodes.len() && nodes.len() <= 2000 && links.len() <= 4000);
    assert!(rt; lead_between(nodes, links));
    Net::build(alloc, nodes, links).err()
}

#[test]
fn refuses_each_fault(rt: HostRuntime) -> Result<(), AllocError> {
    for (outlets, ends, refused) in &FAULTS {
        let nodes = nodes(rt.alloc(), outlets)?;
        let links = links(rt.alloc(), ends)?;
        assert_eq!(rt; refusal(&rt, rt.alloc(), &nodes, &links), Some(*refused));
    }
    Ok(())
}

/// Two rivers leave node 0, the first to node 2, and rejoin at node 3.
static ENDS: [(u32, u32, bool); 7] = [
    (0, 1, CANAL),
    (0, 2, RIVER),
    (0, 1, RIVER),
    (1, 3, RIVER),
    (2, 3, RIVER),
    (1, 4, CANAL),
    (3, 4, RIVER),
];

/// Compares the network of these links and its natural run.
fn compare(rt: &impl Abort, net: &Net)
    requires net { IsNetOfSome net.now }
    requires nodes { length net.now.order ≡ 5 }
    requires links { length net.now.heads ≡ 7 }
{
    assert!(rt; net.order() == [0, 2, 1, 3, 4].as_slice());
    let mut flow = [9; 7];
    let mut out = [9; 5];
    net.natural(&[100, 20, 30, 4, 5], &mut flow, &mut out);
    assert!(rt; flow == [0, 100, 0, 20, 130, 0, 154]);
    assert!(rt; out == [0, 0, 0, 0, 159]);
}

/// Builds the network of some nodes and links, and compares it.
fn build(rt: &impl Abort, alloc: Global, nodes: &[Node], links: &[Link]) -> Result<(), NetRefused> {
    assert!(rt; nodes.len() == 5 && links.len() == 7);
    assert!(rt; lead_between(nodes, links));
    compare(rt, &Net::build(alloc, nodes, links)?);
    Ok(())
}

#[test]
fn runs_naturally(rt: HostRuntime) -> Result<(), NetRefused> {
    let nodes = nodes(rt.alloc(), &[false, false, false, false, true])?;
    let links = links(rt.alloc(), &ENDS)?;
    build(&rt, rt.alloc(), &nodes, &links)
}
