//! First rivers.
ghost use Rattle.std.specs.Prelude.{◌≡◌, ◌<◌, ◌≤◌, All, IfOk, IfSome, length};
ghost use Rattle.water_model.specs.Network.{HasNodes, is_river_kind};
ghost use Rattle.river_net.specs.Firsts.{AreFirstRivers, left_by_river};

use chains::{Chains, chains_by};
use std::alloc::{AllocError, Global};
use water_model::types::{Carry, Link, Node};

fn is_river(link: &Link) -> bool
    ensures { result ≡ is_river_kind link.now.carry }
{
    matches!(link.carry, Carry::River)
}

/// The node that a link leaves as a river.
fn left_by_river(nodes: &[Node], links: &[Link], link: usize) -> Option<u32>
    requires ends { All (λ l. HasNodes nodes.now l) links.now }
    requires link { link < length links.now }
    ensures value { result ≡ left_by_river links.now link }
    ensures within { IfSome result (λ node. node < length nodes.now) }
{
    let link = &links[link];
    if is_river(link) {
        Some(link.from)
    } else {
        None
    }
}

/// For each node the first river that leaves it.
pub fn first_rivers(
    alloc: Global,
    nodes: &[Node],
    links: &[Link],
) -> Result<Vec<Option<u32>>, AllocError>
    requires bounded_links { length links.now ≤ 4000 }
    requires ends { All (λ l. HasNodes nodes.now l) links.now }
    ensures { IfOk result (λ rivers. AreFirstRivers (length nodes.now) links.now rivers.items) }
{
    let rivers = chains_by(
        alloc,
        nodes.len(),
        links.len(),
        |link| left_by_river(nodes, links, link),
    )?;
    let Chains { first, next: _ } = rivers;
    Ok(first)
}
