//! Why a script is refused.
ghost use Rattle.std.specs.Prelude.{◌≡◌};
ghost use Rattle.edit_script.specs.declared.refused.ScriptRefused.TheVariants.{OutOfMemory};

use std::alloc::{AllocError, AllocFailed};

/// The fault of a line. Of several that a line has the first of this order is answered.
#[derive(Clone, Copy, Debug, PartialEq, Eq)]
pub enum ScriptFault {
    /// Bytes follow the line `done`.
    AfterEnd,
    /// The line is none that may stand there.
    BadLine,
    /// The run hasn't the month.
    OutsideRun,
    /// No node, or no right, has the name.
    NoSuchName,
    /// The node isn't gauged, or the right's wants don't stand in the series.
    NotSeries,
    /// The text ends before a line `done`, or goes on without a line feed.
    EarlyEnd,
}

/// Why a script isn't read: its first line at fault, or want of memory.
#[derive(Clone, Copy, Debug, PartialEq, Eq)]
pub enum ScriptRefused {
    Refused { fault: ScriptFault, line: u64 },
    OutOfMemory,
}

impl From<AllocError> for ScriptRefused {
    ghost from_gives = { λ _ e. e ≡ OutOfMemory };

    fn from(_error: AllocError) -> ScriptRefused {
        ScriptRefused::OutOfMemory
    }
}

impl<T: Drop> From<AllocFailed<T>> for ScriptRefused {
    ghost from_gives = { λ _ e. e ≡ OutOfMemory };

    fn from(_error: AllocFailed<T>) -> ScriptRefused {
        ScriptRefused::OutOfMemory
    }
}
