//! Large valid basins, each made from a number and a size.
#![tactic(auto)]

mod draws;
pub mod laws;
mod names;
mod network;
mod reservoirs;
mod rights;
mod turns;
mod whole;

pub use whole::make;
