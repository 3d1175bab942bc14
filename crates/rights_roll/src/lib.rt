//! The roll of rights: their order by seniority, their wants, the instream rights on each link, and what is at fault.
#![tactic(auto)]

ghost use Rattle.std.specs.Prelude.{◌≡◌};
ghost use Rattle.rights_roll.specs.declared.RollRefused.TheVariants.{OutOfMemory};

use std::alloc::{AllocError, AllocFailed};
use thiserror::Error;

mod faults;
pub mod laws;
mod links;
mod order;
pub mod priority;
pub mod roll;
mod zones;

/// Why rights and return rows are no roll. Rights are numbered from 0.
#[derive(Clone, Copy, Debug, PartialEq, Eq, Error)]
pub enum RollRefused {
    /// The first right whose date is no day of the calendar.
    #[error("right {0} has a date that is no day of the calendar")]
    BadDate(u32),
    /// The first right that has the date and order of an earlier one. That earlier one is named before it.
    #[error("rights {0} and {1} have the same date and order")]
    SameSeniority(u32, u32),
    /// The first zone whose level an earlier zone of its reservoir has, or that stands above level 1 and has no senior
    /// zone of its reservoir one level lower.
    #[error("zone {0} repeats a level of its reservoir, or has no senior zone one level lower")]
    ZoneOrder(u32),
    /// The first diversion that returns more than it takes.
    #[error("the return rows of right {0} have more than 10,000 parts of 10,000")]
    ReturnParts(u32),
    /// Memory ran out.
    #[error("out of memory")]
    OutOfMemory,
}

impl From<AllocError> for RollRefused {
    ghost from_gives = { λ _ e. e ≡ OutOfMemory };

    fn from(_error: AllocError) -> RollRefused {
        RollRefused::OutOfMemory
    }
}

impl<T: Drop> From<AllocFailed<T>> for RollRefused {
    ghost from_gives = { λ _ e. e ≡ OutOfMemory };

    fn from(_error: AllocFailed<T>) -> RollRefused {
        RollRefused::OutOfMemory
    }
}
