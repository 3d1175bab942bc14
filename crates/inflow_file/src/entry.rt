//! What one record of a series says.
use water_text::month::Month;

/// What comes in at a node in a month, or what a right wants in it, in units of 1,000 cubic metres. Nodes are numbered
/// from 0, and rights go on after them.
#[derive(Clone, Copy, Debug, PartialEq, Eq)]
pub(crate) struct SeriesRecord {
    pub month: Month,
    pub column: u32,
    pub amount: u64,
}
