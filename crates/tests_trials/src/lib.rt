//! The tests of basins that are made, and of their reports, a file for each.
#![tactic(auto)]

#[cfg(test)]
mod reported;
#[cfg(test)]
mod trials;
