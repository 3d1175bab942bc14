//! Why an ensemble stops.
ghost use Rattle.std.specs.Prelude.{◌≡◌};
ghost use Rattle.index_seq.specs.declared.stop.EnsembleStop.TheVariants.{OutOfMemory};

use std::alloc::AllocError;

/// Why an ensemble isn't whole.
#[derive(Clone, Copy, Debug, PartialEq, Eq)]
pub enum EnsembleStop {
    /// The sink failed, and its count of faults rose. A prefix of the text stands in it.
    SinkFailed,
    /// Memory is lacking. The sink is as it was.
    OutOfMemory,
}

impl From<AllocError> for EnsembleStop {
    ghost from_gives = { λ _ e. e ≡ OutOfMemory };

    fn from(_error: AllocError) -> EnsembleStop {
        EnsembleStop::OutOfMemory
    }
}
