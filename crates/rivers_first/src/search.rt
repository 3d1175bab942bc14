//! The search for rounds, breadth first.
//!
//! Nothing is proved of the way that a search finds: `is_round` tests it before it is kept.
ghost use Rattle.std.specs.Prelude.{◌≡◌, ◌*◌, ◌<◌, All, length, OnOk, IfOk, IfSome, IsSome, [], None, slice_index_or};
ghost use Rattle.chains.specs.Chains.{AreChains};
ghost use Rattle.water_model.specs.Valid.{IsValidBasin};
ghost use Rattle.circulation.specs.Residual.{arc_of};
ghost use Rattle.rivers_first.specs.Rounds.{IsRound, starts_at};

use crate::checked::{end_of, is_river, is_round, start_of};
use chains::{Chains, chains_by};
use std::alloc::{AllocError, Global};
use water_model::rows::Rows;
use water_model::types::Basin;

/// As many steps as a round may have over rivers: what is sent round in a month takes so long.
const LONGEST: u32 = 64;

/// The steps over a basin's links, and a search along them.
#[derive(Drop)]
pub struct Search {
    /// For each node the steps that leave it.
    steps: Chains,
    /// For each node the step by which water goes on from it to the node that is looked for.
    onward: Vec<Option<u32>>,
    /// The nodes from which it does, in the order in which they were found.
    queue: Vec<u32>,
}

impl Search {
    /// A search over the links of a basin.
    pub fn open(alloc: Global, basin: &Basin) -> Result<Search, AllocError>
        requires { IsValidBasin basin.now }
        ensures { let b = basin.now in IfOk result (λ search.
            AreChains (starts_at b) (2 * length b.links) (length b.nodes) search.steps) }
    {
        let nodes = basin.nodes.len();
        let steps = chains_by(alloc, nodes, 2 * basin.links.len(), |step| {
            Some(start_of(basin, step as u32))
        })?;
        let onward = vec![in alloc; None; nodes]?;
        let queue = Vec::with_capacity(alloc, nodes)?;
        Ok(Search {
            steps,
            onward,
            queue,
        })
    }

    /// The step by which water goes on from a node, if it does.
    fn onward_from(&self, node: u32) -> Option<u32>
        ensures { result ≡ slice_index_or self.now.onward.items node None }
    {
        self.onward.get(node as usize).copied().flatten()
    }

    /// Forgets what was noted of the nodes that were found.
    fn forget(&mut self)
        ensures { self.new.queue.items ≡ [] }
    {
        for node in &self.queue {
            let at = *node as usize;
            if at < self.onward.len() {
                self.onward[at] = None;
            }
        }
        self.queue.clear();
    }

    /// Notes by which step water goes on from a node, unless there is one already.
    fn note(&mut self, node: u32, step: u32) -> Result<(), AllocError>
        ensures { OnOk result (node < length self.old.onward.items →
            IsSome (slice_index_or self.new.onward.items node None)) }
    {
        let at = node as usize;
        if at < self.onward.len() && self.onward[at].is_none() {
            self.onward[at] = Some(step);
            self.queue.push(node)?;
        }
        Ok(())
    }

    /// Notes the node to which a step leads, from where water comes back by the opposite step, if that goes down a
    /// river; or up a river, where either way will do.
    fn follow(&mut self, basin: &Basin, step: u32, either: bool) -> Result<(), AllocError> {
        let link = step / 2;
        if (link as usize) < basin.links.len() && is_river(basin, link) {
            if step % 2 == 1 {
                self.note(end_of(basin, step), step - 1)?;
            } else if either {
                self.note(end_of(basin, step), step + 1)?;
            }
        }
        Ok(())
    }

    /// Follows each step that leaves a node.
    fn spread(&mut self, basin: &Basin, node: u32, either: bool) -> Result<(), AllocError> {
        let mut next = self.steps.first_of(node);
        for _ in 0..self.steps.next.len() {
            let Some(step) = next else {
                break;
            };
            self.follow(basin, step, either)?;
            next = self.steps.next_of(step);
        }
        Ok(())
    }

    /// Goes one step further from the nodes that were found, but for the first ones, and says how many they are.
    fn spread_on(&mut self, basin: &Basin, from: usize, either: bool) -> Result<usize, AllocError> {
        let found = self.queue.len();
        for turn in from..found {
            if let Some(node) = self.queue.get(turn).copied() {
                self.spread(basin, node, either)?;
            }
        }
        Ok(found)
    }

    /// Searches backward from where a canal ends to where it begins. The canal is given by its backward step.
    fn look(&mut self, basin: &Basin, back: u32, either: bool) -> Result<(), AllocError>
        requires { arc_of back < length basin.now.links }
    {
        self.forget();
        self.note(start_of(basin, back), back)?;
        let mut done = 0;
        for _ in 0..LONGEST {
            if self.onward_from(end_of(basin, back)).is_some() {
                break;
            }
            done = self.spread_on(basin, done, either)?;
        }
        Ok(())
    }

    /// The steps that were found: back over the canal, and on from where it begins.
    fn trace(&self, alloc: Global, basin: &Basin, back: u32) -> Result<Vec<u32>, AllocError>
        requires { arc_of back < length basin.now.links }
    {
        let mut round = vec![in alloc; back]?;
        let mut node = end_of(basin, back);
        for _ in 0..LONGEST {
            let Some(step) = self.onward_from(node) else {
                break;
            };
            if step == back || (step / 2) as usize >= basin.links.len() {
                break;
            }
            round.push(step)?;
            node = end_of(basin, step);
        }
        Ok(round)
    }

    /// A round of a canal, if one was found.
    fn try_round(
        &mut self,
        alloc: Global,
        basin: &Basin,
        back: u32,
        either: bool,
    ) -> Result<Option<Rows<u32>>, AllocError>
        requires { arc_of back < length basin.now.links }
        ensures { IfOk result (λ round. IfSome round (IsRound basin.now)) }
    {
        self.look(basin, back, either)?;
        let round = self.trace(alloc, basin, back)?;
        if is_round(basin, round.as_slice()) {
            Ok(Some(Rows::from_vec(round)))
        } else {
            Ok(None)
        }
    }

    /// A round of a canal, down rivers alone if there is one.
    fn round_of(
        &mut self,
        alloc: Global,
        basin: &Basin,
        back: u32,
    ) -> Result<Option<Rows<u32>>, AllocError>
        requires { arc_of back < length basin.now.links }
        ensures { IfOk result (λ round. IfSome round (IsRound basin.now)) }
    {
        let down = self.try_round(alloc, basin, back, false)?;
        if down.is_some() {
            return Ok(down);
        }
        self.try_round(alloc, basin, back, true)
    }

    /// Adds a round of the canal that a step goes over forward, if it does and there is one.
    fn add_round(
        &mut self,
        alloc: Global,
        basin: &Basin,
        step: u32,
        rounds: &mut Vec<Rows<u32>>,
    ) -> Result<(), AllocError>
        requires { All (IsRound basin.now) rounds.old.items }
        ensures { OnOk result (All (IsRound basin.now) rounds.new.items) }
    {
        let link = step / 2;
        if step % 2 == 0 && (link as usize) < basin.links.len() && !is_river(basin, link) {
            if let Some(round) = self.round_of(alloc, basin, step + 1)? {
                rounds.push(round)?;
            }
        }
        Ok(())
    }

    /// Adds rounds of the canals that leave a node.
    pub fn add_rounds(
        &mut self,
        alloc: Global,
        basin: &Basin,
        node: u32,
        rounds: &mut Vec<Rows<u32>>,
    ) -> Result<(), AllocError>
        requires { All (IsRound basin.now) rounds.old.items }
        ensures { OnOk result (All (IsRound basin.now) rounds.new.items) }
    {
        let mut next = self.steps.first_of(node);
        for _ in 0..self.steps.next.len() {
            let Some(step) = next else {
                break;
            };
            self.add_round(alloc, basin, step, rounds)?;
            next = self.steps.next_of(step);
        }
        Ok(())
    }
}
