//! Scripts of changes and of months to show, read line by line.
#![tactic(auto)]

pub mod edit;
pub mod laws;
mod lines;
mod refused;
mod script;

pub use refused::{ScriptFault, ScriptRefused};
pub use script::read_script;
