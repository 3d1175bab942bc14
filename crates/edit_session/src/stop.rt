//! Why an answer to a script stops.
ghost use Rattle.std.specs.Prelude.{◌≡◌};
ghost use Rattle.edit_session.specs.declared.stop.EditStop.TheVariants as stop;

use std::alloc::AllocError;
use water_edge::SinkFailed;

/// Why the answer to a script isn't whole.
#[derive(Clone, Copy, Debug, PartialEq, Eq)]
pub enum EditStop {
    /// The sink failed, and its count of faults rose. A prefix of the text stands in it, with all months before the last
    /// of these, which are flushed.
    SinkFailed,
    /// Memory is lacking. The lines of the months that were shown so far stand in the sink, and are flushed.
    OutOfMemory,
}

impl From<AllocError> for EditStop {
    ghost from_gives = { λ _ e. e ≡ stop.OutOfMemory };

    fn from(_error: AllocError) -> EditStop {
        EditStop::OutOfMemory
    }
}

impl From<SinkFailed> for EditStop {
    ghost from_gives = { λ _ e. e ≡ stop.SinkFailed };

    fn from(_error: SinkFailed) -> EditStop {
        EditStop::SinkFailed
    }
}
