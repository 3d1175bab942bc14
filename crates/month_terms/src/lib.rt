//! The terms of a month: what it opens with, what it supplies and wants, what its plan delivers and what it closes
//! with.
//!
//! Water is counted in units of 1,000 cubic metres. Lists are indexed by node, reservoir or right.
#![tactic(auto)]

pub mod add;
pub mod calendar;
pub mod closing;
pub mod evaporation;
pub mod month;
pub mod opening;
pub mod supply;
pub mod used;
pub mod want;
