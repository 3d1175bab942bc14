//! The result text of a run, read line by line.
//!
//! A `ResultReader` accepts the lines of a text in order, each where it may come next, and answers what the line says.
//! The form of a text is a list of the lines that are due for a basin: each has to come in its order, but for `call`
//! and `called` lines, which may be left out, and a `call` is followed by the nodes of some set. Only
//! `ResultReader::open` takes memory.
#![tactic(auto)]

mod bad_line;
mod dues;
mod fields;
pub mod laws;
mod likely;
mod names;
mod node_lines;
mod position;
mod progress;
mod reader;
mod reading;
mod shape;
mod words;

pub use bad_line::BadLine;
pub use reader::{MemberLine, ResultReader};
pub use result_lines::item::Item;
