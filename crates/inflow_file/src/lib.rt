//! Reads the table of gauged inflows and of wants by month: the series of a basin that the bytes spell, or the first
//! fault in them.
#![tactic(auto)]

mod cells;
mod columns;
mod entry;
mod read;
mod records;
mod refused;

pub use read::{HEADER, series_of_text};
pub use refused::{SeriesFault, SeriesRefused};
