//! The top call of the program: it reads BASIN and SERIES, solves the months of the basin and writes their result, or
//! says why not.
#![tactic(auto)]

mod actions;
mod checking;
mod command;
mod compare;
mod comparing;
mod draft;
mod editing;
mod ending;
mod explaining;
mod files;
mod flushing;
mod found;
mod pairs;
mod status;
mod top;
mod upgrading;
mod writing;

pub use found::{Found, check_result, runs_are_accepted, runs_are_audited};
pub use status::Status;
pub use top::{basin_main, without_words};
