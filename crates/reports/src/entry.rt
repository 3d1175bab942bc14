//! The lines of reports, as what they say.
use crate::figures::RightFigures;
use crate::waters::Waters;

/// What one line of a report or of a summary says; what it says of the basin's months and size, the basin has. The row
/// of the balance is in two pieces, since it may be longer than a line. Amounts are in units of 1,000 cubic metres.
#[derive(Clone, Copy)]
pub enum ReportLine {
    /// The first line of a report: the basin's first month and number of months.
    Report,
    /// A right of the basin, by its figures.
    Right { right: u32, figures: RightFigures },
    /// The first line of a summary: what the basin was made from.
    Trial { number: u32, size: u32 },
    /// How many nodes, links, rights and months the basin has.
    Size,
    /// What all rights wanted.
    Wanted { amount: u64 },
    /// What all rights were delivered.
    Delivered { amount: u64 },
    /// In how many right-months a right was short.
    Short { count: u64 },
    /// In how many right-months a right had a calling right.
    Called { count: u64 },
    /// The balance up to what is stored after the last month, without a line feed.
    Balance { waters: Waters },
    /// The rest of the balance, after a space.
    Rest { waters: Waters },
    /// The end: all months of the basin are in the figures.
    Done,
}
