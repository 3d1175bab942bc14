//! The arcs of a basin's month: the links, the takes, and a spill at each node, from there to the outside.
ghost use Rattle.std.specs.Prelude.{◌≡◌, ℕ, ◌+◌, ◌<◌, length, slice_index, IfOk, OnOk};
ghost use Rattle.water_model.specs.Basin.{taking_node};
ghost use Rattle.water_model.specs.Valid.{IsValidBasin};
ghost use Rattle.senior_hold.specs.MonthNetwork.{taker_count, right_arc, right_exit, spill_arc};
ghost use Rattle.senior_hold.specs.Arcs.{AreArcs, ArePositions, AreEnds, AreEndsOf, position_of};
ghost use Rattle.senior_hold.specs.Spilled.{spilled};

use circulation::Ends;
use std::alloc::{AllocError, Global};
use water_model::calls::taking_node;
use water_model::types::{Basin, RightKind};

/// The arcs of rights and of spills.
#[derive(Drop)]
pub struct Arcs {
    /// The arc of each right: an instream right's link, or the arc of what the right takes.
    pub rights: Vec<u32>,
    /// The arc of the first node's spill. Those of the other nodes follow, in the order of the nodes.
    pub spill: u32,
}

/// The arc of each right.
fn right_arcs(alloc: Global, basin: &Basin) -> Result<Vec<u32>, AllocError>
    requires { IsValidBasin basin.now }
    ensures count { IfOk result (λ arcs. length arcs.items ≡ length basin.now.rights) }
    ensures each { IfOk result (λ arcs. (r : ℕ) → r < length basin.now.rights →
        slice_index arcs.items r ≡ right_arc basin.now r) }
{
    let mut arcs = Vec::new(alloc);
    let mut next = basin.links.len() as u32;
    for right in 0..basin.rights.len() {
        if let RightKind::Instream { link } = basin.rights[right].kind {
            arcs.push(link)?;
        } else {
            arcs.push(next)?;
            next += 1;
        }
    }
    Ok(arcs)
}

/// How many rights take water.
fn count_takers(basin: &Basin) -> u32
    requires { IsValidBasin basin.now }
    ensures { result ≡ taker_count basin.now }
{
    let mut count = 0;
    for right in 0..basin.rights.len() {
        if taking_node(basin, right as u32).is_some() {
            count += 1;
        }
    }
    count
}

/// The arc of the first node's spill.
fn first_spill(basin: &Basin) -> u32
    requires { IsValidBasin basin.now }
    ensures { result ≡ spill_arc basin.now 0 }
{
    basin.links.len() as u32 + count_takers(basin)
}

/// The arcs of a basin's rights and spills.
pub fn arcs_of(alloc: Global, basin: &Basin) -> Result<Arcs, AllocError>
    requires { IsValidBasin basin.now }
    ensures { IfOk result (λ arcs. AreArcs basin.now arcs) }
{
    let rights = right_arcs(alloc, basin)?;
    let spill = first_spill(basin);
    Ok(Arcs { rights, spill })
}

/// A right in the order of seniority, its arc, and an arc from the head of that to the outside, unless the head is the
/// outside.
#[derive(Clone, Copy)]
pub struct Position {
    pub right: u32,
    pub arc: u32,
    pub exit: u32,
}

/// The spill of the node that a right's arc enters, or the first spill where it enters the outside.
fn exit_of(basin: &Basin, first: u32, right: u32) -> u32
    requires valid { IsValidBasin basin.now }
    requires right { right < length basin.now.rights }
    requires first { first ≡ spill_arc basin.now 0 }
    ensures { result ≡ right_exit basin.now right }
{
    if let RightKind::Instream { link } = basin.rights[right as usize].kind {
        first + basin.links[link as usize].to
    } else {
        first
    }
}

/// The right, its arc and its exit.
fn position_of(basin: &Basin, arcs: &Arcs, right: u32) -> Position
    requires valid { IsValidBasin basin.now }
    requires arcs { AreArcs basin.now arcs.now }
    requires right { right < length basin.now.rights }
    ensures { result ≡ position_of basin.now right }
{
    let arc = arcs.rights[right as usize];
    let exit = exit_of(basin, arcs.spill, right);
    Position { right, arc, exit }
}

/// The rights in an order, each with its arc and its exit.
pub fn positions_of(
    alloc: Global,
    basin: &Basin,
    arcs: &Arcs,
    order: &[u32],
) -> Result<Vec<Position>, AllocError>
    requires valid { IsValidBasin basin.now }
    requires arcs { AreArcs basin.now arcs.now }
    requires order { (k : ℕ) → k < length order.now → slice_index order.now k < length basin.now.rights }
    ensures { IfOk result (λ positions. ArePositions basin.now order.now positions.items) }
{
    let mut positions = Vec::with_capacity(alloc, order.len())?;
    for place in 0..order.len() {
        positions.push(position_of(basin, arcs, order[place]))?;
    }
    Ok(positions)
}

/// The ends of the links.
fn link_ends(alloc: Global, basin: &Basin) -> Result<Vec<Ends>, AllocError>
    requires { IsValidBasin basin.now }
    ensures { IfOk result (λ ends. AreEndsOf basin.now ends.items (length basin.now.links) 0 0) }
{
    let mut ends = Vec::new(alloc);
    for place in 0..basin.links.len() {
        let link = &basin.links[place];
        let (from, to) = (link.from, link.to);
        ends.push(Ends { from, to })?;
    }
    Ok(ends)
}

/// Adds the ends of what rights take.
fn add_takes(basin: &Basin, ends: &mut Vec<Ends>) -> Result<(), AllocError>
    requires valid { IsValidBasin basin.now }
    requires links { AreEndsOf basin.now ends.old.items (length basin.now.links) 0 0 }
    ensures { OnOk result (AreEndsOf basin.now ends.new.items (length basin.now.links) (length basin.now.rights) 0) }
{
    let outside = basin.nodes.len() as u32;
    for right in 0..basin.rights.len() {
        if let Some(from) = taking_node(basin, right as u32) {
            ends.push(Ends { from, to: outside })?;
        }
    }
    Ok(())
}

/// Adds the ends of the spills.
fn add_spills(basin: &Basin, ends: &mut Vec<Ends>) -> Result<(), AllocError>
    requires valid { IsValidBasin basin.now }
    requires takes { AreEndsOf basin.now ends.old.items (length basin.now.links) (length basin.now.rights) 0 }
    ensures { OnOk result (AreEnds (spilled basin.now) ends.new.items) }
{
    let outside = basin.nodes.len() as u32;
    for from in 0..outside {
        ends.push(Ends { from, to: outside })?;
    }
    Ok(())
}

/// The ends of a month's arcs.
pub fn ends_of_arcs(alloc: Global, basin: &Basin) -> Result<Vec<Ends>, AllocError>
    requires { IsValidBasin basin.now }
    ensures { IfOk result (λ ends. AreEnds (spilled basin.now) ends.items) }
{
    let mut ends = link_ends(alloc, basin)?;
    add_takes(basin, &mut ends)?;
    add_spills(basin, &mut ends)?;
    Ok(ends)
}
