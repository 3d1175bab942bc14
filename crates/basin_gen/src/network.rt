//! Nodes and links.
ghost use Rattle.std.specs.Prelude.{◌≡◌, ◌+◌, ◌-◌, ◌*◌, ◌<◌, ◌≤◌, ◌++◌, IfOk, OnOk};
ghost use Rattle.basin_gen.specs.Draws.{next, later};
ghost use Rattle.basin_gen.specs.Entries.{inflow_at, node_at, node_after, river_at, canal_at};
ghost use Rattle.basin_gen.specs.Generator.{nodes_of, rivers_of, canals_of, draws_of_node, draws_of_nodes};
ghost use Rattle.basin_gen.specs.Generator.{count_of_canals};

use crate::draws::Draws;
use crate::names::numbered;
use std::alloc::{AllocError, Global};
use water_model::types::{Carry, Inflow, Link, Node};

/// The inflows of node `i`: drawn month by month where `i` is even, and else 0.
#[tactic(auto, using(crate::proofs::DrawLaws::later_none), unfolding(crate::specs::Entries::inflow_at))]
fn inflow(i: u32, draws: &mut Draws) -> [u64; 12]
    requires bounded { i ≤ 2000 }
    ensures value { result ≡ inflow_at i draws.old.state }
    ensures after { draws.new.state ≡ later draws.old.state (draws_of_node i) }
{
    if i % 2 == 0 {
        draws.draw_twelve(100)
    } else {
        [0; 12]
    }
}

fn node(size: u32, i: u32, draws: &mut Draws) -> Node
    requires bounded { i < size }
    requires size { size ≤ 2000 }
    ensures value { result ≡ node_at size i draws.old.state }
    ensures after { draws.new.state ≡ later draws.old.state (draws_of_node i) }
{
    Node {
        name: numbered(b'n', i),
        outlet: i + 1 == size,
        inflow: Inflow::Monthly(inflow(i, draws)),
    }
}

/// All nodes, from the first to the outlet.
#[tactic(auto, using(crate::proofs::DrawLaws::draws), unfolding(crate::specs::Generator::nodes_of))]
pub(crate) fn nodes(alloc: Global, size: u32, draws: &mut Draws) -> Result<Vec<Node>, AllocError>
    requires size { size ≤ 2000 }
    ensures value { IfOk result (λ made. made.items ≡ nodes_of size draws.old.state) }
    ensures after { OnOk result (draws.new.state ≡ later draws.old.state (draws_of_nodes size)) }
{
    let mut nodes = Vec::new(alloc);
    for i in 0..size {
        nodes.push(node(size, i, draws))?;
    }
    Ok(nodes)
}

/// A node after node `i`, at most `reach` further.
#[tactic(auto, unfolding(crate::specs::Entries::node_after))]
fn node_after(size: u32, reach: u32, i: u32, draws: &mut Draws) -> u32
    requires within { i + 1 < size }
    requires size { size ≤ 2000 }
    requires reach { 0 < reach }
    ensures value { result ≡ node_after size reach i draws.old.state }
    ensures after { draws.new.state ≡ next draws.old.state }
{
    let further = reach.min(size - 1 - i);
    i + 1 + draws.draw(u64::from(further)) as u32
}

fn river(size: u32, i: u32, draws: &mut Draws) -> Link
    requires within { i + 1 < size }
    requires size { size ≤ 2000 }
    ensures value { result ≡ river_at size i draws.old.state }
    ensures after { draws.new.state ≡ next draws.old.state }
{
    Link {
        name: numbered(b'r', i),
        from: i,
        to: node_after(size, 3, i, draws),
        carry: Carry::River,
    }
}

/// A river from each node but the last.
#[tactic(auto, using(crate::proofs::DrawLaws::draws), unfolding(crate::specs::Generator::rivers_of))]
pub(crate) fn rivers(alloc: Global, size: u32, draws: &mut Draws) -> Result<Vec<Link>, AllocError>
    requires some { 1 ≤ size }
    requires size { size ≤ 2000 }
    ensures value { IfOk result (λ made. made.items ≡ rivers_of size draws.old.state) }
    ensures after { OnOk result (draws.new.state ≡ later draws.old.state (size - 1)) }
{
    let mut rivers = Vec::new(alloc);
    for i in 0..size - 1 {
        rivers.push(river(size, i, draws))?;
    }
    Ok(rivers)
}

fn canal(size: u32, i: u32, draws: &mut Draws) -> Link
    requires within { i + 1 < size }
    requires size { size ≤ 2000 }
    ensures value { result ≡ canal_at size i draws.old.state }
    ensures after { draws.new.state ≡ next (next draws.old.state) }
{
    let to = node_after(size, 5, i, draws);
    Link {
        name: numbered(b'c', i),
        from: i,
        to,
        carry: Carry::Canal {
            per_day: draws.draw(20),
            shut: [false; 12],
        },
    }
}

/// Appends the canals to the rivers.
#[tactic(auto, using(crate::proofs::DrawLaws::draws), unfolding(crate::specs::Generator::canals_of))]
pub(crate) fn add_canals(
    links: &mut Vec<Link>,
    size: u32,
    draws: &mut Draws,
) -> Result<(), AllocError>
    requires some { 1 ≤ size }
    requires size { size ≤ 2000 }
    ensures value { OnOk result (links.new.items ≡ links.old.items ++ canals_of size draws.old.state) }
    ensures after { OnOk result (draws.new.state ≡ later draws.old.state (2 * count_of_canals size)) }
{
    for j in 0..(size + 1) / 4 {
        links.push(canal(size, 4 * j + 1, draws))?;
    }
    Ok(())
}
