//! A text that grows in memory before any of it is written.
ghost use Rattle.std.specs.Prelude.{◌≡◌, Some, IsErr, OnOk};
ghost use Rattle.water_edge.specs.Edge.{HasCause, IsKnownPrefix, Puts, Stays};
ghost use Rattle.basin_cli.specs.Drafts.{draft_output};

use water_edge::{Sink, SinkFailed};

/// A sink in memory, which fails where memory is lacking and grows otherwise.
#[derive(Drop)]
pub struct Draft {
    pub bytes: Vec<u8>,
    /// How often memory for more was lacking.
    pub faults: u64,
}

impl Sink for Draft {
    ghost output = { draft_output };

    ghost faults = { λ d. d.faults };

    fn put(&mut self, bytes: &[u8]) -> Result<(), SinkFailed>
        ensures bytes { Puts (draft_output self.old) (draft_output self.new) result bytes.now }
        ensures first { IsKnownPrefix (Some self.new.bytes.items) (Some self.new.bytes.items) }
        ensures cause { HasCause self.old.faults self.new.faults (IsErr result) }
    {
        match self.bytes.extend_from_slice(bytes) {
            Ok(()) => Ok(()),
            Err(_) => {
                self.faults = self.faults.saturating_add(1);
                Err(SinkFailed)
            }
        }
    }

    /// Nothing is kept back.
    fn flush(&mut self) -> Result<(), SinkFailed>
        ensures bytes { Stays (draft_output self.old) (draft_output self.new) }
        ensures first { IsKnownPrefix (Some self.new.bytes.items) (Some self.new.bytes.items) }
        ensures all { OnOk result (Some self.new.bytes.items ≡ Some self.new.bytes.items) }
        ensures cause { HasCause self.old.faults self.new.faults (IsErr result) }
    {
        Ok(())
    }
}
