//! The network of a basin's draws, over which each month's draws are found.
ghost use Rattle.std.specs.Prelude.{◌≡◌, length, replicate, slice_index, IfOk, IsTrue};
ghost use Rattle.water_text.specs.Months.{IsMonth};
ghost use Rattle.water_model.specs.Valid.{IsValidBasin};
ghost use Rattle.circulation.specs.Places.{word_count};
ghost use Rattle.draw_course.specs.Draws.{AreDraws, FitsMonth};
ghost use Rattle.draw_course.specs.Courses.{IsCourse};
ghost use Rattle.draw_course.specs.Arcs.{arc_count, AreEnds};
ghost use Rattle.draw_course.specs.Engine.{HasNetwork, room_words, first_draws};

use crate::amounts::{hold_from, write_amounts, write_bounds};
use crate::arcs::{arc_count, ends_of_arcs};
use crate::checking::{are_balanced, are_carried, are_little, are_sized};
use crate::course::Course;
use crate::draws::DrawNodes;
use circulation::{Circulation, Ends, words};
use std::alloc::{AllocError, Global};
use std::marker::Model;
use water_model::rows::Rows;
use water_model::types::Basin;
use water_text::month::Month;
use word_region::{Full, Region};

/// Finds for each month of a basin what owners can draw. Contracts see the basin and its draws.
#[derive(Drop)]
pub struct DrawCourse<'b> {
    basin: &'b Basin,
    draws: Rows<DrawNodes>,
    region: Region,
    network: Circulation,
}

impl<'b> Model for DrawCourse<'b> {
    ghost use Rattle.draw_course.specs.Draws.{BasinDraws};

    ghost Value = { BasinDraws };

    ghost use Rattle.draw_course.specs.EngineState.{basin_draws, IsValidEngine};

    ghost view = { basin_draws };

    ghost invariant = { IsValidEngine };
}

/// Lays the network into a region that is free and has exactly the words for it.
fn open_network(
    basin: &Basin,
    draws: &Rows<DrawNodes>,
    ends: &[Ends],
    region: &mut Region,
) -> Circulation
    requires basin { IsValidBasin basin.now }
    requires draws { AreDraws basin.now draws.now }
    requires ends { AreEnds basin.now draws.now ends.now }
    requires free { let arcs = arc_count basin.now (length draws.now) in
        region.old ≡ record { words = replicate (word_count (length basin.now.nodes) arcs) 0; used = 0 } }
    ensures { HasNetwork basin.now draws.now region.new result }
{
    match Circulation::open(basin.nodes.len() as u32, ends, region) {
        Ok(network) => network,
        Err(Full) => unreachable!(),
    }
}

impl<'b> DrawCourse<'b> {
    /// The network of a basin and its draws, in the order of their turns. AllocError comes where memory is lacking. No
    /// other call takes memory.
    pub fn open(
        alloc: Global,
        basin: &'b Basin,
        draws: Rows<DrawNodes>,
    ) -> Result<DrawCourse<'b>, AllocError>
        requires basin { IsValidBasin basin.now }
        requires draws { AreDraws basin.now draws }
        ensures { IfOk result (λ course. course ≡ record { basin = basin.now; draws = draws }) }
    {
        let ends = ends_of_arcs(alloc, basin, &draws)?;
        let size = words(basin.nodes.len() as u32, ends.len() as u32);
        let mut region = Region::open(alloc, size)?;
        let network = open_network(basin, &draws, &ends, &mut region);
        Ok(DrawCourse {
            basin,
            draws,
            region,
            network,
        })
    }

    /// How many words a month takes.
    pub fn words(&self) -> usize
        ensures { result ≡ room_words self.now }
    {
        let arcs = arc_count(self.basin, &self.draws) as usize;
        5 * arcs + 7 * self.basin.nodes.len() + 14 + self.draws.len()
    }

    /// Whether a month's draws may begin so: the condition of `begin` as a test.
    pub fn can_begin(
        &self,
        month: Month,
        supply: &[u64],
        taken: &[u64],
        held: &[u64],
        flow: &[u64],
        out: &[u64],
    ) -> bool
        requires month { IsMonth month }
        ensures fits { IsTrue result → FitsMonth (first_draws self.now month supply.now taken.now held.now) }
        ensures flow { IsTrue result → length flow.now ≡ length self.now.basin.links }
        ensures out { IsTrue result → length out.now ≡ length self.now.basin.nodes }
        ensures course { IsTrue result → IsCourse (first_draws self.now month supply.now taken.now held.now)
            (slice_index flow.now) (slice_index out.now) }
    {
        if !are_sized(self.basin, supply, taken, held, flow, out) {
            return false;
        }
        if !are_little(supply) {
            return false;
        }
        if !are_carried(self.basin, month, held, flow) {
            return false;
        }
        are_balanced(self.basin, supply, taken, flow, out)
    }

    /// Begins a month's draws with a course before any draw: a flow on each link, and what leaves the basin at each
    /// node. Supplies and what is taken are indexed by node, what is held for instream rights by link, all in units of
    /// 1,000 cubic metres. The month lies in `words()` words, which may hold anything.
    pub fn begin<'r>(
        &'r self,
        month: Month,
        supply: &'r [u64],
        taken: &'r [u64],
        held: &'r [u64],
        flow: &[u64],
        out: &[u64],
        room: &'r mut [u64],
    ) -> Course<'b, 'r>
        requires month { IsMonth month }
        requires fits { FitsMonth (first_draws self.now month supply.now taken.now held.now) }
        requires flow { length flow.now ≡ length self.now.basin.links }
        requires out { length out.now ≡ length self.now.basin.nodes }
        requires course { IsCourse (first_draws self.now month supply.now taken.now held.now)
            (slice_index flow.now) (slice_index out.now) }
        requires room { length room.old ≡ room_words self.now }
        ensures { result ≡ first_draws self.now month supply.now taken.now held.now }
    {
        let basin = self.basin;
        let draws = &self.draws;
        let network = &self.network;
        let arcs = arc_count(basin, draws) as usize;
        let (upper, room) = room.split_at_mut(arcs);
        let (start, room) = room.split_at_mut(arcs);
        let (drawn, moving) = room.split_at_mut(draws.len());
        write_bounds(basin, draws, month, taken, upper);
        write_amounts(basin, draws, flow, taken, out, start);
        drawn.fill(0);
        let (fixed, _moving) = self.region.words(network.place).split_at(network.fixed());
        let mut circ = network.lend_month(fixed, moving, supply, upper, start);
        hold_from(&mut circ, 0, held);
        hold_from(&mut circ, basin.links.len() as u32, taken);
        Course {
            basin,
            draws,
            month,
            supply,
            taken,
            held,
            drawn,
            circ,
        }
    }
}
