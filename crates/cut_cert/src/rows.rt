//! For each node what a set that holds it is bounded by: links and rights, in chains.
ghost use Rattle.std.specs.Prelude.{◌≡◌, ◌<◌, length, IfOk, IfSome, map};
ghost use Rattle.water_model.specs.Basin.{is_senior, tail_of};
ghost use Rattle.water_model.specs.Rights.{priority};
ghost use Rattle.water_model.specs.Valid.{IsValidBasin};
ghost use Rattle.rights_roll.specs.Priorities.{numbers_of};
ghost use Rattle.cut_cert.specs.Rows.{AreNodeRows, ArePriorities, AreTails, held_at};

use chains::{Chains, chains_by};
use rights_roll::priority::Priority;
use rights_roll::roll::Roll;
use std::alloc::{AllocError, Global};
use water_model::calls::taking_node;
use water_model::types::Basin;

/// The rows of a basin by node.
#[derive(Drop)]
pub struct NodeRows {
    /// The links that end at each node.
    pub enter: Chains,
    /// The links that begin at each node and have an instream right.
    pub held: Chains,
    /// The diversions and zones that take at each node.
    pub takers: Chains,
    /// The node at which each link begins, and the priority of each right: so no record is read, which is many times as
    /// long.
    pub tails: Vec<u32>,
    pub priorities: Vec<Priority>,
}

/// The node at which a link begins, if an instream right is on the link.
fn held_at(basin: &Basin, roll: &Roll, link: usize) -> Option<u32>
    requires basin { IsValidBasin basin.now }
    requires link { link < length basin.now.links }
    ensures value { result ≡ held_at basin.now roll.now link }
    ensures within { IfSome result (λ node. node < length basin.now.nodes) }
{
    if roll.first_on(link as u32).is_some() {
        Some(basin.links[link].from)
    } else {
        None
    }
}

/// The node at which each link begins. AllocError comes where memory is lacking.
fn tails_of(alloc: Global, basin: &Basin) -> Result<Vec<u32>, AllocError>
    ensures { IfOk result (λ tails. tails.items ≡ map (λ l. l.from) basin.now.links) }
{
    let mut tails = Vec::with_capacity(alloc, basin.links.len())?;
    for link in basin.links.as_slice() {
        tails.push(link.from)?;
    }
    Ok(tails)
}

/// The priority of each right. AllocError comes where memory is lacking.
fn priorities_of(alloc: Global, basin: &Basin) -> Result<Vec<Priority>, AllocError>
    ensures { IfOk result (λ priorities. map numbers_of priorities.items ≡ map priority basin.now.rights) }
{
    let mut priorities = Vec::with_capacity(alloc, basin.rights.len())?;
    for right in basin.rights.as_slice() {
        priorities.push(Priority::of(right))?;
    }
    Ok(priorities)
}

impl NodeRows {
    /// The node at which a link begins.
    pub fn tail(&self, basin: &Basin, link: u32) -> u32
        requires tails { AreTails basin.now self.now }
        requires link { link < length basin.now.links }
        ensures { result ≡ tail_of basin.now link }
    {
        self.tails[link as usize]
    }

    /// Whether the one right is senior to the other.
    pub fn is_senior(&self, basin: &Basin, one: u32, other: u32) -> bool
        requires priorities { ArePriorities basin.now self.now }
        requires one { one < length basin.now.rights }
        requires other { other < length basin.now.rights }
        ensures { result ≡ is_senior basin.now one other }
    {
        self.priorities[one as usize].is_senior_to(&self.priorities[other as usize])
    }

    /// The rows of a basin. AllocError comes where memory is lacking.
    pub fn of(alloc: Global, basin: &Basin, roll: &Roll) -> Result<NodeRows, AllocError>
        requires { IsValidBasin basin.now }
        ensures { IfOk result (AreNodeRows basin.now roll.now) }
    {
        let nodes = basin.nodes.len();
        let links = basin.links.len();
        let rights = basin.rights.len();
        let enter = chains_by(alloc, nodes, links, |link| Some(basin.links[link].to))?;
        let held = chains_by(alloc, nodes, links, |link| held_at(basin, roll, link))?;
        let takers = chains_by(
            alloc,
            nodes,
            rights,
            |right| taking_node(basin, right as u32),
        )?;
        let tails = tails_of(alloc, basin)?;
        let priorities = priorities_of(alloc, basin)?;
        Ok(NodeRows {
            enter,
            held,
            takers,
            tails,
            priorities,
        })
    }
}
