//! A sink takes bytes.
ghost use Rattle.std.specs.Prelude.{◌≡◌, ℕ, IsErr, OnOk};
ghost use Rattle.water_edge.specs.Edge.{HasCause, IsKnownPrefix, Output, Puts, Stays};

/// A piece could not be written whole. The sink has counted a fault.
#[derive(Clone, Copy, Debug, PartialEq, Eq)]
pub struct SinkFailed;

/// What takes bytes, piece after piece.
///
/// Where a sink's contract states what it took, that is known. Of other sinks, as one over a stream of the system, no
/// bytes are known, and their answers say nothing of bytes. A sink may keep back what it took until it is flushed, and
/// loses none of it by a later failure of its own.
pub trait Sink {
    /// The bytes that it took, and those that it flushed, so that others can read them: a prefix of those taken. The
    /// sink keeps the rest back until it is full or flushed. Each is None where it isn't known.
    ghost output: { Self → Output };

    /// How many calls have failed. The count never falls, and stands still at 2^64 - 1.
    ghost faults: { Self → ℕ };

    /// Appends a piece to what was taken. It may be kept back.
    ///
    /// `Ok`: the whole piece was appended. `SinkFailed` comes only where this call counted a fault: a prefix of the
    /// piece was then appended, and maybe nothing. What was taken before stays in both cases, and so does what was
    /// flushed.
    fn put(&mut self, bytes: &[u8]) -> Result<(), SinkFailed>
        ensures bytes { Puts (output self.old) (output self.new) result bytes.now }
        ensures first { IsKnownPrefix (output self.new).flushed (output self.new).taken }
        ensures cause { HasCause (faults self.old) (faults self.new) (IsErr result) };

    /// Hands on what is kept back, so that all that was taken is flushed.
    ///
    /// `SinkFailed` comes only where this call counted a fault: a prefix was flushed then, and the rest is kept. The
    /// bytes taken stay in both cases.
    fn flush(&mut self) -> Result<(), SinkFailed>
        ensures bytes { Stays (output self.old) (output self.new) }
        ensures first { IsKnownPrefix (output self.new).flushed (output self.new).taken }
        ensures all { OnOk result ((output self.new).flushed ≡ (output self.new).taken) }
        ensures cause { HasCause (faults self.old) (faults self.new) (IsErr result) };
}
