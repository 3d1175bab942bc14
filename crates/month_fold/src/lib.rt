//! The months of a run, one after the other: each opens with what the months before it left.
#![tactic(auto)]

pub mod engine;
pub mod laws;
mod next;
mod resume;
pub mod run;
pub mod work;
