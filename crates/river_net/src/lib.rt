//! The network of nodes and links: its faults, the order in which water runs, and the run of the river.
#![tactic(auto)]

mod cycle;
mod faults;
mod graph;
pub mod laws;
mod net;
mod refused;
mod rivers;
mod sorting;

pub use net::Net;
pub use refused::NetRefused;
