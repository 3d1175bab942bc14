//! The residual network of a month's own plan, as seen from a right, and one search through it in two directions: from
//! the nodes at which the right could have water without a step, whether its set is its reach; and backward from its
//! own node, its core, and of each node the first core that holds it. It looks for no plan: it asks which way water
//! could go as the plan is.
#![tactic(auto)]

ghost use Rattle.std.specs.Prelude.{◌≡◌, ◌<◌, ◌↔◌, IfOk, IsTrue, length};
ghost use Rattle.cut_cert.specs.Sets.{cut_at, HasCut};
ghost use Rattle.water_model.specs.Cuts.{IsTight};
ghost use Rattle.water_model.specs.History.{IsShort};
ghost use Rattle.water_model.specs.Valid.{IsValidBasin};
ghost use Rattle.rights_roll.specs.Rolls.{IsRollOf};
ghost use Rattle.plan_residual.specs.Residual.{HasPlan};
ghost use Rattle.plan_residual.specs.Reaches.{HaveTightSets, HasReach, IsFirstOther};
ghost use Rattle.plan_residual.specs.Rows.{IsSearchOf};
ghost use Rattle.plan_residual.specs.Core.{IsCore};
ghost use Rattle.plan_residual.specs.FirstCores.{AreFirstCores};

mod claims;
mod deciding;
mod finding;
pub mod laws;
pub mod order;
pub mod scene;
mod sources;
mod spread;
pub mod steps;
mod sweep;
pub mod visits;

use crate::claims::find_first_cores;
use crate::deciding::search;
use crate::finding::{find_upstream, node_of};
use crate::scene::Scene;
use crate::steps::start_of;
use crate::sweep::sweep;
use crate::visits::Queue;
use chains::{Chains, chains_by};
use rights_roll::roll::Roll;
use std::alloc::{AllocError, Global};
use std::marker::Model;
use water_model::types::{Basin, MonthRecord};

/// What a search through the network of a basin needs, with the core that was found last. All memory is taken when it
/// is opened.
#[derive(Drop)]
pub struct ResidualSearch {
    rows: Chains,
    queue: Queue,
    core: Queue,
}

impl Model for ResidualSearch {
    ghost use Rattle.std.specs.Prelude.{◌≡◌, length};
    ghost use Rattle.plan_residual.specs.Rows.{SearchSeen};
    ghost use Rattle.plan_residual.specs.Search.{HasRoom};

    ghost Value = { SearchSeen };

    ghost view = { λ s. record { rows = s.rows; core = s.core.seen } };

    ghost invariant = { λ s. HasRoom s.rows.first.items s.queue s.core };
}

impl ResidualSearch {
    /// Takes the memory for a basin. Refused only where memory runs out; no other call takes memory.
    pub fn open(alloc: Global, basin: &Basin) -> Result<ResidualSearch, AllocError>
        requires { IsValidBasin basin.now }
        ensures { IfOk result (IsSearchOf basin.now) }
    {
        let rows = chains_by(alloc, basin.nodes.len(), 2 * basin.links.len(), |step| {
            Some(start_of(basin, step as u32))
        })?;
        let queue = Queue::open(alloc, basin.nodes.len())?;
        let core = Queue::open(alloc, basin.nodes.len())?;
        Ok(ResidualSearch { rows, queue, core })
    }

    /// Whether the set of a short right, a tight cut of it, is its reach: the tight cut that contains every tight cut.
    /// The cost is linear in nodes, links and rights.
    pub fn is_reach(&mut self, basin: &Basin, roll: &Roll, month: &MonthRecord, right: u32) -> bool
        requires search { IsSearchOf basin.now self.old }
        requires plan { HasPlan basin.now month.now }
        requires roll { IsRollOf basin.now.rights roll.now }
        requires cut { HasCut basin.now month.now.cuts right }
        requires short { IsShort month.now right }
        requires tight { let m = month.now in
            IsTight basin.now m.month m.supply m.delivered right (cut_at m.cuts right) }
        ensures reach { IsTrue result ↔ HasReach basin.now month.now right }
        ensures stays { self.new ≡ self.old }
    {
        let scene = Scene {
            basin,
            roll,
            month,
            rows: &self.rows,
        };
        search(&scene, right, &mut self.queue)
    }

    /// The most senior short right of a month whose set isn't its reach, or none. Each short right has a tight cut.
    ///
    /// The rights are gone through from the most junior on, and the short ones share one search, which goes on from
    /// right to right. From the end of an instream right's own link it goes on for that right alone.
    pub fn first_other(&mut self, basin: &Basin, roll: &Roll, month: &MonthRecord) -> Option<u32>
        requires search { IsSearchOf basin.now self.old }
        requires plan { HasPlan basin.now month.now }
        requires roll { IsRollOf basin.now.rights roll.now }
        requires sets { HaveTightSets basin.now month.now }
        ensures first { IsFirstOther basin.now month.now result }
        ensures stays { self.new ≡ self.old }
    {
        let scene = Scene {
            basin,
            roll,
            month,
            rows: &self.rows,
        };
        sweep(&scene, &mut self.queue)
    }

    /// Finds the core of a right: the nodes from which its node, where it takes or where its link begins, is reached.
    pub fn find_core(&mut self, basin: &Basin, roll: &Roll, month: &MonthRecord, right: u32)
        requires search { IsSearchOf basin.now self.old }
        requires plan { HasPlan basin.now month.now }
        requires roll { IsRollOf basin.now.rights roll.now }
        requires right { right < length basin.now.rights }
        ensures core { IsCore basin.now month.now right self.new.core }
        ensures search { IsSearchOf basin.now self.new }
    {
        let scene = Scene {
            basin,
            roll,
            month,
            rows: &self.rows,
        };
        find_upstream(&scene, right, node_of(basin, right), &mut self.core);
    }

    /// Finds for each node the most senior short right whose core holds it, or none. No node is visited twice: the cost
    /// is linear in nodes, links and rights.
    pub fn find_first_cores(
        &mut self,
        basin: &Basin,
        roll: &Roll,
        month: &MonthRecord,
        firsts: &mut [Option<u32>],
    )
        requires search { IsSearchOf basin.now self.old }
        requires plan { HasPlan basin.now month.now }
        requires roll { IsRollOf basin.now.rights roll.now }
        requires size { length firsts.old ≡ length basin.now.nodes }
        ensures firsts { AreFirstCores basin.now month.now firsts.new }
        ensures search { IsSearchOf basin.now self.new }
        ensures stays { self.new ≡ self.old }
    {
        let scene = Scene {
            basin,
            roll,
            month,
            rows: &self.rows,
        };
        find_first_cores(&scene, &mut self.queue, firsts);
    }

    /// The nodes of the core that was found last, a mark for each node of the basin.
    pub fn core(&self) -> &[bool]
        ensures { result.now ≡ self.now.core }
    {
        self.core.seen()
    }
}
