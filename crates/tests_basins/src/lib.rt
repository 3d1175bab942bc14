//! The tests of what is read and run of basins that are written out, a file for each subject.
#![tactic(auto)]

#[cfg(test)]
mod basins;
#[cfg(test)]
mod edits;
#[cfg(test)]
mod pieced;
#[cfg(test)]
mod results;
#[cfg(test)]
mod resumed;
#[cfg(test)]
mod series;
#[cfg(test)]
mod turned;
#[cfg(test)]
mod volumes;
