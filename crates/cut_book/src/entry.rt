//! The lines of an account book, as what they say.
use water_text::month::Month;

/// What one line of an account book says, by the basin's numbers. Amounts are in units of 1,000 cubic metres.
#[derive(Clone, Copy, Debug, PartialEq, Eq)]
pub enum BookLine {
    /// What the right was delivered in the month, and what it wanted.
    Why {
        month: Month,
        right: u32,
        amount: u64,
        want: u64,
    },
    /// What is supplied at a node of the set.
    Supply {
        node: u32,
        amount: u64,
    },
    /// The most that a link which enters the set can bring in.
    Enter {
        link: u32,
        amount: u64,
    },
    /// What is kept for instream rights on a link that leaves the set. The holder is the most senior of those on the
    /// link that are delivered this amount.
    Keep {
        link: u32,
        amount: u64,
        holder: u32,
    },
    /// What a senior diversion or zone takes in the set.
    Take {
        right: u32,
        amount: u64,
    },
    /// What the supplies and the links that enter bring, less what the other lines keep.
    Sum {
        amount: u64,
    },
}
