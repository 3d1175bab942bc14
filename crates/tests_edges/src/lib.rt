//! The tests of the edges of the program and of texts: of files and sinks that are met, of the parts that are read and
//! written, and of what lines say.
#![tactic(auto)]

#[cfg(test)]
mod files;
#[cfg(test)]
mod parts;
#[cfg(test)]
mod texts;
