//! Why a series is refused.
ghost use Rattle.std.specs.Prelude.{◌≡◌, ◌≤◌, length};
ghost use Rattle.inflow_file.specs.FaultNames.{fault_name};
ghost use Rattle.inflow_file.specs.declared.refused.SeriesRefused.TheVariants.{OutOfMemory};

use std::alloc::{AllocError, AllocFailed};
use water_text::month::Month;

/// What is at fault in a record of a series. At one record the faults are looked for in this order, but for the header,
/// which is looked for at the first record alone.
#[derive(Clone, Copy, Debug, PartialEq, Eq)]
pub enum SeriesFault {
    /// A record after the header hasn't as many fields as the header.
    Csv,
    /// The first record is absent, or other than `month,node,amount` and, for a basin of format 2, than
    /// `month,kind,name,amount`.
    Header,
    /// The field `month` is no month from 1800-01 to 2999-12.
    BadMonth,
    /// The field `kind` is neither `inflow` nor `want`.
    BadKind,
    /// The record is an inflow, and its name is no node's.
    NoSuchNode,
    /// That node isn't gauged.
    NotGauged,
    /// The record is a want, and its name is no right's.
    NoSuchRight,
    /// The wants of that right don't stand in the series.
    NotSeries,
    /// The field `amount` isn't 1 to 19 digits of a number up to 10^9.
    BadAmount,
    /// The month is in the run, and an earlier record has this month, kind and name.
    Repeated,
}

impl SeriesFault {
    /// The word for the fault, as lines of refusal write it.
    #[tactic(auto, unfolding(crate::specs::FaultNames::fault_name))]
    pub fn name(&self) -> &'static str
        ensures value { result.now ≡ fault_name self.now }
        ensures short { length result.now ≤ 16 }
    {
        match self {
            SeriesFault::Csv => "Csv",
            SeriesFault::Header => "Header",
            SeriesFault::BadMonth => "BadMonth",
            SeriesFault::BadKind => "BadKind",
            SeriesFault::NoSuchNode => "NoSuchNode",
            SeriesFault::NotGauged => "NotGauged",
            SeriesFault::NoSuchRight => "NoSuchRight",
            SeriesFault::NotSeries => "NotSeries",
            SeriesFault::BadAmount => "BadAmount",
            SeriesFault::Repeated => "Repeated",
        }
    }
}

/// Why bytes are no series of a basin, by the first fault in them.
#[derive(Clone, Copy, Debug, PartialEq, Eq)]
pub enum SeriesRefused {
    /// A record is at fault. Records count from 1, and the header is one of them.
    Record { fault: SeriesFault, number: u64 },
    /// No record is at fault, and none gives this gauged node an inflow in this month: the first month of the run in
    /// which something is missing, and in it the first such node. Nodes are numbered from 0.
    Missing { month: Month, node: u32 },
    /// The same of a want of this right, where no inflow of the month is missing. Rights are numbered from 0.
    MissingWant { month: Month, right: u32 },
    OutOfMemory,
}

impl From<AllocError> for SeriesRefused {
    ghost from_gives = { λ _ e. e ≡ OutOfMemory };

    fn from(_error: AllocError) -> SeriesRefused {
        SeriesRefused::OutOfMemory
    }
}

impl<T: Drop> From<AllocFailed<T>> for SeriesRefused {
    ghost from_gives = { λ _ e. e ≡ OutOfMemory };

    fn from(_error: AllocFailed<T>) -> SeriesRefused {
        SeriesRefused::OutOfMemory
    }
}
