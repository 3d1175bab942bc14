//! Where bytes come from and where they go: a shelf of named files, and a sink.
//!
//! Everything above reads by `Shelf` and writes by `Sink`, so that its contracts can say which bytes were read and
//! written. In memory (`memory_edge`) both are known exactly; over the system's files and streams no contract can say which bytes.
#![tactic(auto)]

mod file;
mod shelf;
mod sink;
mod stream;

pub use file::FileShelf;
pub use shelf::{Shelf, ShelfRefused};
pub use sink::{Sink, SinkFailed};
pub use stream::StdSink;
