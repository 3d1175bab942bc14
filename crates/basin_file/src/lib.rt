//! Reads a basin file: the basin that the bytes spell, or the first fault in them.
#![tactic(auto)]

mod build;
mod findings;
pub mod laws;
mod parts;
mod read;
mod refused;
mod upgrade;

pub use basin_tree::fault::BasinFault;
pub use basin_tree::tables::BasinTable;
pub use read::read_basin;
pub use refused::BasinRefused;
pub use upgrade::{spelled, upgraded};
