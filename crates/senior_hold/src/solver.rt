//! The solver of a basin's months.
//!
//! There are two ways. By the residual tree a month costs what changes in it, but a push can be small, and there can be
//! many. So that way has a budget of 30 pushes for each right, for the month as a whole. By searches a month has a
//! bound on its pushes, whatever its amounts. Where the budget gives out, searches go on from the plan that the tree
//! came to: the rights that were served have in it what they get. Both ways go over one network.
ghost use Rattle.std.specs.Prelude.{◌≡◌, ◌+◌, ◌*◌, ◌<◌, ◌≤◌, length, IfOk};
ghost use Rattle.rights_roll.specs.Rolls.{IsRollOf};
ghost use Rattle.water_text.specs.Months.{IsMonth};
ghost use Rattle.water_model.specs.Plans.{IsPlan};
ghost use Rattle.water_model.specs.Valid.{IsValidBasin};
ghost use Rattle.senior_hold.specs.MonthNetwork.{arc_count, month_pushes};
ghost use Rattle.senior_hold.specs.Solved.{FitsPlan, FitsCuts, IsGiven, IsSolved};
ghost use Rattle.senior_hold.specs.Layouts.{IsLayout, FitsRoom};
ghost use Rattle.senior_hold.specs.Spilled.{spilled};

use crate::arcs::{Arcs, Position, arcs_of, ends_of_arcs, positions_of};
use crate::carries::dailies_of;
use crate::places::{Places, open_places, sweep, words_of};
use crate::sweep::{Givens, Method, Sweep};
use rights_roll::roll::Roll;
use river_net::Net;
use rivers_first::Rounds;
use std::alloc::{AllocError, Global};
use std::marker::Model;
use std::sync::ledger::Ledger;
use steps::Steps;
use water_model::blank::blank_plan;
use water_model::cut_list::CutList;
use water_model::rows::Rows;
use water_model::types::{Basin, Plan};
use water_text::month::Month;
use word_region::Region;

/// What stays from month to month.
#[derive(Drop)]
pub struct Layout {
    pub net: Net,
    pub roll: Roll,
    pub arcs: Arcs,
    /// The rights with their arcs, seniors first.
    pub positions: Vec<Position>,
    /// What links carry in a day, by link, in a row for each calendar month.
    pub dailies: Vec<Rows<u64>>,
}

/// Room for a month's bounds, and for the flow that it starts from.
#[derive(Drop)]
pub struct Room {
    pub most: Plan,
    pub upper: Vec<u64>,
    pub start: Vec<u64>,
}

/// Finds for each month of a basin the plan that serves seniors first. Contracts see a solver as its basin.
#[derive(Drop)]
pub struct Solver<'b> {
    basin: &'b Basin,
    layout: Layout,
    room: Room,
    region: Region,
    places: Places,
    rounds: Rounds<'b>,
    /// Whether somebody reads the flows on links.
    reads_flows: bool,
}

impl<'b> Model for Solver<'b> {
    ghost use Rattle.water_model.specs.declared.types.Basin.{Basin};

    ghost Value = { Basin };

    ghost use Rattle.senior_hold.specs.Solver.{basin_of, IsValidSolver};

    ghost view = { basin_of };

    ghost invariant = { IsValidSolver };
}

/// What stays from month to month in a basin.
fn layout_of(alloc: Global, basin: &Basin) -> Result<Layout, AllocError>
    requires { IsValidBasin basin.now }
    ensures { IfOk result (λ layout. IsLayout basin.now layout) }
{
    let nodes = basin.nodes.as_slice();
    let rights = basin.rights.as_slice();
    let arcs = arcs_of(alloc, basin)?;
    let dailies = dailies_of(alloc, basin)?;
    // A valid basin has a network and a roll, so that only memory can be lacking.
    let Ok(net) = Net::build(alloc, nodes, basin.links.as_slice()) else {
        return Err(AllocError);
    };
    let Ok(roll) = Roll::build(alloc, rights, basin.returns.as_slice()) else {
        return Err(AllocError);
    };
    let positions = positions_of(alloc, basin, &arcs, roll.by_seniority())?;
    Ok(Layout {
        net,
        roll,
        arcs,
        positions,
        dailies,
    })
}

/// Room for amounts by link, right and node of a basin, and by arc, of which there are `arcs`.
fn room_of(alloc: Global, basin: &Basin, arcs: usize) -> Result<Room, AllocError>
    requires { arcs ≡ arc_count (spilled basin.now) }
    ensures { IfOk result (λ room. FitsRoom basin.now room) }
{
    let upper = vec![in alloc; 0; arcs]?;
    let start = vec![in alloc; 0; arcs]?;
    let most = blank_plan(alloc, basin)?;
    Ok(Room { most, upper, start })
}

impl<'b> Solver<'b> {
    /// A solver of a basin. AllocError comes where memory is lacking. No other call takes memory.
    pub fn open(alloc: Global, basin: &'b Basin) -> Result<Solver<'b>, AllocError>
        requires { IsValidBasin basin.now }
        ensures { IfOk result (λ solver. solver ≡ basin.now) }
    {
        let layout = layout_of(alloc, basin)?;
        let ends = ends_of_arcs(alloc, basin)?;
        let room = room_of(alloc, basin, ends.len())?;
        let mut region = Region::open(alloc, words_of(basin, ends.len()))?;
        let places = open_places(basin, &ends, &mut region);
        let rounds = Rounds::open(alloc, basin, layout.net.order())?;
        Ok(Solver {
            basin,
            layout,
            room,
            region,
            places,
            rounds,
            reads_flows: true,
        })
    }

    /// Leaves it open from now on by which links water goes: any plan with the greatest deliveries will do where nobody
    /// reads a flow. Deliveries, outflows and sets stay what they are.
    pub fn leave_flows(&mut self)
        ensures { self.new ≡ self.old }
    {
        self.reads_flows = false;
    }

    /// The roll of the basin's rights, by which months are solved.
    pub fn roll(&self) -> &Roll
        ensures { IsRollOf self.now.rights result.now }
    {
        &self.layout.roll
    }

    /// Solves a month as `solve_month` does, by one method. By the tree it makes at most 30 pushes for each right on
    /// average, and GaveUp comes only after more than 29 for each: then the plan is one of the month, and the sets say
    /// nothing of it. By searches it begins with the plan, and always ends.
    pub fn sweep<'m, L: Ledger>(
        &mut self,
        method: Method,
        month: Month,
        supply: &'m [u64],
        want: &'m [u64],
        plan: &mut Plan,
        cuts: &mut CutList,
        pushes: &mut Steps<L>,
    ) -> Sweep
        requires month { IsMonth month }
        requires given { IsGiven self.old month supply.now want.now plan.old cuts.old }
        requires plan { method ≡ Method.Searches → IsPlan self.old month supply.now want.now plan.old }
        requires some { method ≡ Method.Searches → 0 < length self.old.rights }
        ensures same { self.new ≡ self.old }
        ensures fits { FitsPlan self.old plan.new }
        ensures cuts { FitsCuts self.old cuts.new }
        ensures plan { IsPlan self.old month supply.now want.now plan.new }
        ensures solved { result ≡ Sweep.Solved → IsSolved self.old month supply.now want.now plan.new cuts.new }
        ensures pushes { method ≡ Method.Tree → pushes.new ≤ pushes.old + 30 * length self.old.rights }
        ensures gave_up { result ≡ Sweep.GaveUp → pushes.old + 29 * length self.old.rights < pushes.new }
        ensures searched { method ≡ Method.Searches → result ≡ Sweep.Solved }
        ensures search_pushes { method ≡ Method.Searches →
            pushes.new ≤ pushes.old + length self.old.rights * (30 * (2 * arc_count self.old + 1)) }
    {
        let givens = Givens {
            method,
            basin: self.basin,
            layout: &self.layout,
            month,
            supply,
            want,
        };
        let swept = sweep(
            &givens,
            &mut self.room,
            &mut self.region,
            &self.places,
            plan,
            cuts,
            pushes,
        );
        if swept == Sweep::GaveUp || self.basin.rights.len() == 0 || !self.reads_flows {
            return swept;
        }
        self.rounds.prefer_rivers(want, plan);
        swept
    }

    /// Writes the plan of a month that serves seniors first, and gives each right that is short its reach as its set.
    /// The supply is indexed by node, the want by right, both in units of 1,000 cubic metres. Without rights the plan
    /// is the run of the river; else its water goes by rivers where it need not go through a canal, unless flows are
    /// left open. Each search that finds a walk, and each push along the tree, ticks `pushes` once. It refuses nothing and takes no memory.
    pub fn solve_month<L: Ledger>(
        &mut self,
        month: Month,
        supply: &[u64],
        want: &[u64],
        plan: &mut Plan,
        cuts: &mut CutList,
        pushes: &mut Steps<L>,
    )
        requires month { IsMonth month }
        requires given { IsGiven self.old month supply.now want.now plan.old cuts.old }
        ensures same { self.new ≡ self.old }
        ensures plan { FitsPlan self.old plan.new }
        ensures cuts { FitsCuts self.old cuts.new }
        ensures solved { IsSolved self.old month supply.now want.now plan.new cuts.new }
        ensures pushes { pushes.new ≤ pushes.old + month_pushes self.old }
    {
        let swept = self.sweep(Method::Tree, month, supply, want, plan, cuts, pushes);
        if swept == Sweep::GaveUp {
            cuts.clear();
            self.sweep(Method::Searches, month, supply, want, plan, cuts, pushes);
        }
    }
}
