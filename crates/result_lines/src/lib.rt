//! The lines of a result text, and the quantities that they give.
#![tactic(auto)]

pub mod item;
pub mod quantity;
