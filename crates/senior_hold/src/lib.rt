//! The plan of a month that serves seniors first, with the reach of each right that is short.
//!
//! A month of a basin is a network of arcs: the links, then an arc from the node of each diversion and zone to the
//! outside, then a spill from each node to the outside. The arc of one right after another, seniors first, is raised as
//! far as the bounds allow, and what it has is held while juniors are served. There are two ways of raising: along a
//! tree that is kept from push to push, and by searches. All amounts are in units of 1,000 cubic metres.
#![tactic(auto)]

mod amounts;
mod arcs;
mod carries;
pub mod laws;
mod places;
mod serving;
mod solver;
mod sweep;
mod tree_raises;

pub use solver::Solver;
pub use sweep::{Method, Sweep};
