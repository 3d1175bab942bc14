//! The tests over the program's top call that are no cases of `tests_cases`: those that compare two runs, whose inputs
//! are made, or that look at bytes without a command.
#![tactic(auto)]

#[cfg(test)]
mod basins;
#[cfg(test)]
mod calling;
#[cfg(test)]
mod comparing;
#[cfg(test)]
mod editing;
#[cfg(test)]
mod finding;
#[cfg(test)]
mod methods;
#[cfg(test)]
mod sizes;
#[cfg(test)]
mod upgrading;
