//! Why a report stops.
ghost use Rattle.std.specs.Prelude.{◌≡◌};
ghost use Rattle.reports.specs.declared.stop.ReportStop.TheVariants.{OutOfMemory};

use std::alloc::AllocError;

/// Why a report isn't whole.
#[derive(Clone, Copy, Debug, PartialEq, Eq)]
pub enum ReportStop {
    /// The sink failed, and its count of faults rose. A prefix of the text stands in it.
    SinkFailed,
    /// Memory is lacking. The sink is as it was.
    OutOfMemory,
}

impl From<AllocError> for ReportStop {
    ghost from_gives = { λ _ e. e ≡ OutOfMemory };

    fn from(_error: AllocError) -> ReportStop {
        ReportStop::OutOfMemory
    }
}
