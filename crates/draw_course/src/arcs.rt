//! The arcs of a month's network: the links, what is taken at each node, what leaves the basin at each node, and the
//! draws.
ghost use Rattle.std.specs.Prelude.{◌≡◌, ℕ, ◌+◌, ◌<◌, length, slice_get, Some, IfOk};
ghost use Rattle.water_model.specs.Valid.{IsValidBasin};
ghost use Rattle.draw_course.specs.Draws.{AreDraws};
ghost use Rattle.draw_course.specs.Arcs.{arc_count, draw_arc, part_of, part_tail, part_head, IsPartOf, AreEnds};

use crate::draws::DrawNodes;
use circulation::Ends;
use std::alloc::{AllocError, Global};
use water_model::rows::Rows;
use water_model::types::Basin;

/// What an arc stands for: a link, what is taken at a node, what leaves the basin at a node, or a draw.
#[derive(Clone, Copy, Debug, PartialEq, Eq)]
pub enum Part {
    Link(u32),
    Take(u32),
    Out(u32),
    Draw(u32),
}

/// How many arcs there are.
pub fn arc_count(basin: &Basin, draws: &Rows<DrawNodes>) -> u32
    requires basin { IsValidBasin basin.now }
    requires draws { AreDraws basin.now draws.now }
    ensures { result ≡ arc_count basin.now (length draws.now) }
{
    let nodes = basin.nodes.len() as u32;
    basin.links.len() as u32 + nodes + nodes + draws.len() as u32
}

/// The arc of a draw.
pub fn draw_arc(basin: &Basin, draw: u32) -> u32
    requires basin { IsValidBasin basin.now }
    requires draw { draw < 4000 }
    ensures { result ≡ draw_arc basin.now draw }
{
    let nodes = basin.nodes.len() as u32;
    basin.links.len() as u32 + nodes + nodes + draw
}

/// What an arc stands for.
pub fn part_of(basin: &Basin, draws: &Rows<DrawNodes>, arc: u32) -> Part
    requires basin { IsValidBasin basin.now }
    requires arc { arc < arc_count basin.now (length draws.now) }
    ensures part { result ≡ part_of (length basin.now.links) (length basin.now.nodes) arc }
    ensures within { IsPartOf basin.now (length draws.now) result }
{
    let links = basin.links.len() as u32;
    let nodes = basin.nodes.len() as u32;
    if arc < links {
        return Part::Link(arc);
    }
    let past_links = arc - links;
    if past_links < nodes {
        return Part::Take(past_links);
    }
    let past_takes = past_links - nodes;
    if past_takes < nodes {
        return Part::Out(past_takes);
    }
    Part::Draw(past_takes - nodes)
}

/// The ends of an arc. A draw at its own reservoir would lead back to where it begins: its arc, which stays shut, leads
/// to the outside.
fn ends_of(basin: &Basin, draws: &Rows<DrawNodes>, arc: u32) -> Ends
    requires basin { IsValidBasin basin.now }
    requires arc { arc < arc_count basin.now (length draws.now) }
    ensures from { result.from ≡
        part_tail basin.now draws.now (part_of (length basin.now.links) (length basin.now.nodes) arc) }
    ensures to { result.to ≡
        part_head basin.now draws.now (part_of (length basin.now.links) (length basin.now.nodes) arc) }
{
    let outside = basin.nodes.len() as u32;
    match part_of(basin, draws, arc) {
        Part::Link(link) => {
            let link = &basin.links[link as usize];
            let (from, to) = (link.from, link.to);
            Ends { from, to }
        }
        Part::Take(from) => Ends { from, to: outside },
        Part::Out(from) => Ends { from, to: outside },
        Part::Draw(draw) => {
            let nodes = &draws[draw as usize];
            let (from, reservoir) = (nodes.diversion, nodes.reservoir);
            let to = if from == reservoir {
                outside
            } else {
                reservoir
            };
            Ends { from, to }
        }
    }
}

/// The ends of all arcs.
pub fn ends_of_arcs(
    alloc: Global,
    basin: &Basin,
    draws: &Rows<DrawNodes>,
) -> Result<Vec<Ends>, AllocError>
    requires basin { IsValidBasin basin.now }
    requires draws { AreDraws basin.now draws.now }
    ensures { IfOk result (λ ends. AreEnds basin.now draws.now ends.items) }
{
    let mut ends = Vec::new(alloc);
    for arc in 0..arc_count(basin, draws) {
        ends.push(ends_of(basin, draws, arc))?;
    }
    Ok(ends)
}
