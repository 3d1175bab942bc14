//! The edge to the system's streams: a sink over a writer of std.
ghost use Rattle.std.specs.Prelude.{◌≡◌, ◌+◌, ◌<◌, ◌≤◌, [], ◌++◌, length, take, drop, IsErr, IsOk, IsTrue, OnOk};
ghost use Rattle.std.specs.Io.KnownBytes.{Appends};
ghost use Rattle.arrayvec.specs.ArrayVec.{array_vec_len};
ghost use Rattle.water_edge.specs.Edge.{HasCause, IsKnownPrefix, Puts, Stays};
ghost use Rattle.water_edge.specs.Stream.{taken_bytes, writer_output, Flushes};

use crate::{Sink, SinkFailed};
use arrayvec::ArrayVec;
use std::io::Write;
use std::marker::Model;

/// How many bytes a sink over a writer keeps back at most.
const ROOM: usize = 65_536;

/// Writes a piece, or a prefix of it where a write fails or takes nothing. Answers how many bytes were written.
fn write_prefix<W: Write>(writer: &mut W, piece: &[u8]) -> usize
    ensures within { result ≤ length piece.now }
    ensures prefix { Appends (W.contents writer.old) (W.contents writer.new) (take result piece.now) }
{
    let mut written = 0;
    while written < piece.len() {
        match writer.write(&piece[written..]) {
            Ok(0) => return written,
            Ok(count) => written += count,
            Err(_) => return written,
        }
    }
    written
}

/// Removes the first `count` bytes.
fn drop_prefix(bytes: &mut ArrayVec<u8, ROOM>, count: usize)
    requires { count ≤ array_vec_len bytes.old }
    ensures { bytes.new.items ≡ drop count bytes.old.items }
{
    let len = bytes.len();
    bytes.as_mut_slice().copy_within(count..len, 0);
    bytes.truncate(len - count);
}

/// A writer of std, as a file or a standard stream, with a buffer of 65,536 bytes, so that a short piece costs no call
/// of the system. Its bytes are known where the writer's are. Contracts see it as the bytes that the writer holds,
/// those that are kept back in the buffer, and how many calls failed.
///
/// The buffer lies in the sink itself, and no call takes memory unless the writer does. What is kept when the sink is
/// dropped is lost, so flush it first.
#[derive(Drop)]
pub struct StdSink<W: Write + Drop> {
    writer: W,
    kept: ArrayVec<u8, ROOM>,
    faults: u64,
}

impl<W: Write + Drop> Model for StdSink<W> {
    ghost use Rattle.water_edge.specs.Stream.{WriterState};

    ghost Value = { WriterState };

    ghost view = { λ s. record { bytes = W.contents s.writer; kept = s.kept.items; faults = s.faults } };
}

impl<W: Write + Drop> StdSink<W> {
    /// A sink over this writer. It keeps nothing, and no call failed yet.
    pub fn new(writer: W) -> StdSink<W>
        ensures { result ≡ record { bytes = W.contents writer; kept = []; faults = 0 } }
    {
        StdSink {
            writer,
            kept: ArrayVec::new(),
            faults: 0,
        }
    }

    /// Writes what is kept, or a prefix of it where a write fails: the rest stays kept. Answers whether all was
    /// written.
    fn write_kept(&mut self) -> bool
        ensures written { Flushes self.old self.new }
        ensures all { IsTrue result → self.new.kept ≡ [] }
        ensures faults { self.new.faults ≡ self.old.faults }
    {
        let written = write_prefix(&mut self.writer, self.kept.as_slice());
        drop_prefix(&mut self.kept, written);
        self.kept.is_empty()
    }

    /// Puts a piece that has no room after what is kept. What is kept is written first; then a piece of the buffer's
    /// size or more is written too, and a shorter one is kept. Counts no fault.
    #[cold]
    #[inline(never)]
    fn put_beyond(&mut self, piece: &[u8]) -> Result<(), SinkFailed>
        ensures bytes { Puts (writer_output self.old) (writer_output self.new) result piece.now }
        ensures faults { self.new.faults ≡ self.old.faults }
    {
        if !self.write_kept() {
            return Err(SinkFailed);
        }
        if piece.len() < ROOM {
            self.kept.try_extend_from_slice(piece).unwrap();
            return Ok(());
        }
        if write_prefix(&mut self.writer, piece) < piece.len() {
            return Err(SinkFailed);
        }
        Ok(())
    }

    /// Writes what is kept and flushes the writer. Counts no fault.
    fn flush_buffer(&mut self) -> Result<(), SinkFailed>
        ensures hands { Flushes self.old self.new }
        ensures all { OnOk result (self.new.kept ≡ []) }
        ensures faults { self.new.faults ≡ self.old.faults }
    {
        if self.write_kept() {
            self.writer.flush().map_err(|_| SinkFailed)
        } else {
            Err(SinkFailed)
        }
    }
}

impl<W: Write + Drop> Sink for StdSink<W> {
    ghost output = { writer_output };

    ghost faults = { λ s. s.faults };

    /// Keeps a piece that fits after what is kept and is shorter than the buffer. Otherwise what is kept is written
    /// first, and a piece of the buffer's size or more is written at once.
    ///
    /// Fails where std's `write` fails, or takes nothing of what is left. What was written is no longer kept.
    fn put(&mut self, bytes: &[u8]) -> Result<(), SinkFailed>
        ensures bytes { Puts (writer_output self.old) (writer_output self.new) result bytes.now }
        ensures first { IsKnownPrefix self.new.bytes (taken_bytes self.new) }
        ensures cause { HasCause self.old.faults self.new.faults (IsErr result) }

        // Beyond what each sink promises.
        ensures fits { length bytes.now < ROOM → length self.old.kept + length bytes.now ≤ ROOM → IsOk result }
        ensures kept { length bytes.now < ROOM → length self.old.kept + length bytes.now ≤ ROOM →
            self.new ≡ record self.old { kept = self.old.kept ++ bytes.now } }
    {
        if bytes.len() < ROOM && self.kept.try_extend_from_slice(bytes).is_ok() {
            return Ok(());
        }
        let answer = self.put_beyond(bytes);
        if answer.is_err() {
            self.faults = self.faults.saturating_add(1);
        }
        answer
    }

    /// Writes what is kept and calls std's `flush`. Fails where one of them fails, or a write takes nothing of what is
    /// left.
    fn flush(&mut self) -> Result<(), SinkFailed>
        ensures bytes { Stays (writer_output self.old) (writer_output self.new) }
        ensures first { IsKnownPrefix self.new.bytes (taken_bytes self.new) }
        ensures all { OnOk result (self.new.bytes ≡ taken_bytes self.new) }
        ensures cause { HasCause self.old.faults self.new.faults (IsErr result) }

        // Beyond what each sink promises.
        ensures hands { Flushes self.old self.new }
        ensures none_kept { OnOk result (self.new.kept ≡ []) }
    {
        let answer = self.flush_buffer();
        if answer.is_err() {
            self.faults = self.faults.saturating_add(1);
        }
        answer
    }
}
