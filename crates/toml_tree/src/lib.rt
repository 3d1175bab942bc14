//! The values of a TOML document by their keys, and the first indices of the texts of a list.
#![tactic(auto)]

pub mod indices;
pub mod text;
pub mod values;
