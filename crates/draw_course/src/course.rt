//! A month's draws, one after another.
ghost use Rattle.std.specs.Prelude.{◌≡◌, ◌+◌, ◌*◌, ◌^◌, ◌<◌, ◌≤◌, ◌==◌, length, slice_index};
ghost use Rattle.draw_course.specs.Draws.{diversion_of, reservoir_of, with_draw};
ghost use Rattle.draw_course.specs.Courses.{IsCourse, IsGreatestDraw};
ghost use Rattle.draw_course.specs.Stops.{CanHaveStop, IsFullOrStopped};
ghost use Rattle.draw_course.specs.Arcs.{arc_count};

use crate::amounts::read_from;
use crate::arcs::draw_arc;
use crate::draws::DrawNodes;
use crate::raising::raise_draw;
use circulation::CirculationMut;
use std::marker::Model;
use std::sync::ledger::Ledger;
use steps::Steps;
use water_model::cut_list::CutList;
use water_model::rows::Rows;
use water_model::types::Basin;
use water_text::month::Month;

/// A month's water beside what was drawn so far. It lies in words that are borrowed, and no call takes memory.
///
/// Contracts see what the month keeps, and what was drawn, by draw.
#[derive(Drop)]
pub struct Course<'b, 'r> {
    pub(crate) basin: &'b Basin,
    pub(crate) draws: &'r Rows<DrawNodes>,
    pub(crate) month: Month,
    pub(crate) supply: &'r [u64],
    pub(crate) taken: &'r [u64],
    pub(crate) held: &'r [u64],
    pub(crate) drawn: &'r mut [u64],
    pub(crate) circ: CirculationMut<'r>,
}

impl<'b, 'r> Model for Course<'b, 'r> {
    ghost use Rattle.draw_course.specs.Draws.{MonthDraws};

    ghost Value = { MonthDraws };

    ghost use Rattle.draw_course.specs.CourseState.{month_draws, IsValidCourse};

    ghost view = { month_draws };

    ghost invariant = { IsValidCourse };
}

/// Whether the diversion of a draw stands at its reservoir.
fn is_at_reservoir(draws: &Rows<DrawNodes>, draw: u32) -> bool
    requires { draw < length draws.now }
    ensures { result ≡ (diversion_of draws.now draw == reservoir_of draws.now draw) }
{
    let nodes = &draws[draw as usize];
    nodes.diversion == nodes.reservoir
}

impl Course<'_, '_> {
    /// Draws as much as can be, up to the cap, beside what was drawn before, and answers how much that is. A draw below
    /// its cap is given a stop as its set. A draw has one turn. Each search that finds a walk ticks
    /// `pushes` once. All amounts are in units of 1,000 cubic metres.
    pub fn draw<L: Ledger>(
        &mut self,
        draw: u32,
        cap: u64,
        stops: &mut CutList,
        pushes: &mut Steps<L>,
    ) -> u64
        requires draw { draw < length self.old.draws }
        requires turn { slice_index self.old.drawn draw ≡ 0 }
        requires cap { cap ≤ 10 ^ 9 }
        requires set { CanHaveStop (length self.old.basin.nodes) stops.old draw }
        ensures drawn { self.new ≡ with_draw self.old draw result }
        ensures greatest { IsGreatestDraw self.old draw cap result }
        ensures outcome { IsFullOrStopped self.new draw cap result stops.old stops.new }
        ensures cost { pushes.new ≤
            pushes.old + 30 * (2 * arc_count self.old.basin (length self.old.draws) + 1) }
    {
        if is_at_reservoir(self.draws, draw) {
            self.drawn[draw as usize] = cap;
            return cap;
        }
        let arc = draw_arc(self.basin, draw);
        let amount = raise_draw(&mut self.circ, arc, draw, cap, stops, pushes);
        self.drawn[draw as usize] = amount;
        amount
    }

    /// Writes a course beside all that was drawn: the flow of each link, and what leaves the basin at each node, in
    /// units of 1,000 cubic metres.
    pub fn write(&self, flow: &mut [u64], out: &mut [u64])
        requires flow { length flow.old ≡ length self.now.basin.links }
        requires out { length out.old ≡ length self.now.basin.nodes }
        ensures { IsCourse self.now (slice_index flow.new) (slice_index out.new) }
    {
        let links = self.basin.links.len() as u32;
        let nodes = self.basin.nodes.len() as u32;
        read_from(&self.circ, 0, flow);
        read_from(&self.circ, links + nodes, out);
    }
}
