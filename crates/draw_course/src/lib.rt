//! The second step of a month: owners draw on what they hold in reservoirs, one draw after another.
//!
//! The network is that of the basin's links. What is taken at a node in the first step leaves it by an arc that carries
//! exactly that; one more arc leads from each node out of the basin, and is open at outlets alone. Each draw has an arc from the node of its diversion to the
//! node of its reservoir: where it carries an amount, the diversion takes so much more and the reservoir keeps so much
//! less. That arc is shut until the turn of the draw. Then it is opened as far as may be drawn, raised as far as the
//! network allows, and fixed at what it has: later draws neither use nor undo it. On each link at least what is held
//! for instream rights must flow. All amounts are in units of 1,000 cubic metres.
#![tactic(auto)]

mod amounts;
mod arcs;
mod checking;
mod course;
mod draws;
mod engine;
pub mod laws;
mod raising;

pub use crate::course::Course;
pub use crate::draws::DrawNodes;
pub use crate::engine::DrawCourse;
