//! The tests of the layers that know a network, a right or a reservoir alone, a file for each.
#![tactic(auto)]

#[cfg(test)]
mod areas;
#[cfg(test)]
mod lags;
#[cfg(test)]
mod nets;
#[cfg(test)]
mod networks;
#[cfg(test)]
mod raises;
#[cfg(test)]
mod regions;
#[cfg(test)]
mod rolls;
#[cfg(test)]
mod tree_raises;
