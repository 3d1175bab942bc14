//! Texts that are put and flushed.
ghost use Rattle.std.specs.Prelude.{◌≡◌, IsErr, OnOk};
ghost use Rattle.water_edge.specs.Edge.{HasCause, Puts};

use water_edge::{Sink, SinkFailed};

/// Puts a text by one `put` and flushes it.
pub fn put_whole<K: Sink>(out: &mut K, text: &[u8]) -> Result<(), SinkFailed>
    ensures text { Puts (K.output out.old) (K.output out.new) result text.now }
    ensures flushed { OnOk result ((K.output out.new).flushed ≡ (K.output out.new).taken) }
    ensures cause { HasCause (K.faults out.old) (K.faults out.new) (IsErr result) }
{
    out.put(text)?;
    out.flush()
}
