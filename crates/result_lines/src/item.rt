//! The lines of a result text, as what they say, and their order within a month.
ghost use Rattle.std.specs.Prelude.{◌≡◌};
ghost use Rattle.result_lines.specs.Text.{section_space};

use crate::quantity::Quantity;
use water_model::space::Space;
use water_text::month::Month;

/// What one line of a result text says, with entries as their indices in the basin. Amounts are in units of 1,000 cubic
/// metres.
#[derive(Clone, Copy, Debug, PartialEq, Eq)]
pub enum Item {
    Title,
    Run {
        first: Month,
        months: u32,
    },
    Month {
        month: Month,
    },
    /// An amount of an entry, which is one of the quantity's space.
    Amount {
        quantity: Quantity,
        entry: u32,
        amount: u64,
    },
    Deliver {
        right: u32,
        amount: u64,
        want: u64,
    },
    Call {
        right: u32,
    },
    Member {
        node: u32,
    },
    Called {
        right: u32,
        by: u32,
    },
    End,
    Done {
        months: u32,
    },
}

/// A section: the lines of one kind in a month, entry by entry.
#[derive(Clone, Copy)]
pub enum Section {
    /// The amounts of one quantity.
    Amounts(Quantity),
    Deliveries,
    /// For each right that has a set its `call` line, and the nodes of the set after it.
    Calls,
    Called,
}

/// The sections of a month, in the order of their lines. Before them stands the month's first line, after them its
/// last.
pub const SECTIONS: [Section; 10] = [
    Section::Amounts(Quantity::Opening),
    Section::Amounts(Quantity::Evaporated),
    Section::Amounts(Quantity::Returned),
    Section::Amounts(Quantity::Used),
    Section::Amounts(Quantity::Flow),
    Section::Deliveries,
    Section::Amounts(Quantity::Outflow),
    Section::Calls,
    Section::Called,
    Section::Amounts(Quantity::Closing),
];

impl Section {
    /// The entries that a section goes over.
    pub fn space(self) -> Space
        ensures { result ≡ section_space self }
    {
        match self {
            Section::Amounts(quantity) => quantity.space(),
            Section::Deliveries | Section::Calls | Section::Called => Space::Rights,
        }
    }
}
