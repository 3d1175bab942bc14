//! The TOML document of a basin file: its keys and values, and the faults that it has by itself.
#![tactic(auto)]

pub mod counts;
pub mod document;
pub mod fault;
pub mod keys;
pub mod kinds;
pub mod name_faults;
pub mod passes;
pub mod ranges;
pub mod tables;
pub mod walk;
