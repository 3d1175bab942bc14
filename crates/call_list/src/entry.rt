//! The lines of a list of calls, and of what would help a right, as what they say.
use water_text::month::Month;

/// What one line says, by the basin's numbers. Amounts are in units of 1,000 cubic metres.
#[derive(Clone, Copy, Debug, PartialEq, Eq)]
pub enum Entry {
    /// The first month of the list, and how many there are.
    Calls {
        first: Month,
        months: u32,
    },
    /// The lines up to the next end are of this month.
    Month {
        month: Month,
    },
    /// What a short right was delivered, and what it wanted.
    Short {
        right: u32,
        amount: u64,
        want: u64,
    },
    /// The right to which one more unit of water at a node would go.
    Next {
        node: u32,
        right: u32,
    },
    /// The most senior right that one more unit of carry on a canal would help.
    Link {
        link: u32,
        right: u32,
    },
    /// The senior for whom a diversion or zone is curtailed: whatever arrives at its headgate has to go by.
    Curtailed {
        right: u32,
        caller: u32,
    },
    /// The lines of the month end here.
    End,
    /// The list of this many months ends here.
    Done {
        months: u32,
    },
    /// What a short right was delivered in the month, and what it wanted. The lines after it say what would help the
    /// right.
    Where {
        month: Month,
        right: u32,
        amount: u64,
        want: u64,
    },
    /// One more unit of water at a node would help that right.
    At {
        node: u32,
    },
    /// One more unit of carry on a link would help that right.
    Carry {
        link: u32,
    },
}
