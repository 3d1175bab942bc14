//! Stand-ins for tests: files and a sink in memory, of which listed calls fail, and a shelf that counts what it is asked
//! for.
#![tactic(auto)]

mod memory;
mod watched;

pub use memory::{MemoryShelf, MemorySink};
pub use watched::WatchedShelf;
