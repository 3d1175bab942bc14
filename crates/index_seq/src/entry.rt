//! The lines of an ensemble, as what they say.
use water_text::month::Month;

/// What one line of an ensemble says. Amounts are in units of 1,000 cubic metres.
#[derive(Clone, Copy, Debug, PartialEq, Eq)]
pub enum EnsembleLine {
    /// The first month of each trace, and how many there are.
    Ensemble { first: Month, traces: u32 },
    /// The lines up to the next right are of this one.
    Right { right: u32 },
    /// What the right was delivered in a year, and in how many years of all traces.
    Yearly { amount: u64, count: u64 },
    /// The end: all traces are listed.
    Done { traces: u32 },
}
