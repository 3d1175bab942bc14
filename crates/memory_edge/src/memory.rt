//! A shelf and a sink in memory, of which listed calls fail.
ghost use Rattle.std.specs.Prelude.{◌≡◌, ◌-◌, ◌^◌, ◌<◌, ◌≤◌, ◌↔◌, min, [], None, Some, ⊤, Contains, IfOk, IfSome};
ghost use Rattle.std.specs.Prelude.{IsErr, IsErrOf, IsOk, IsTrue, OnOk, option_map, map, length, vec_len};
ghost use Rattle.water_edge.specs.declared.shelf.ShelfRefused.TheVariants.{Failed, OutOfMemory};
ghost use Rattle.water_edge.specs.Edge.{next_count, AsksFor, HasCause, IsKnownPrefix, IsPart, SameShelf, ReadsPart};
ghost use Rattle.water_edge.specs.Edge.{ReadsWhole, Puts, Stays};
ghost use Rattle.memory_edge.specs.Memory.{plain_file, file_of, part_length, after_read, after_put, FailsToRead};
ghost use Rattle.memory_edge.specs.Memory.{FailsToPut, memory_output};

use std::alloc::{AllocError, Global};
use std::marker::Model;
use water_edge::{Shelf, ShelfRefused, Sink, SinkFailed};

/// The calls of a shelf or a sink: which are to fail, how many there were, and how many failed.
#[derive(Drop)]
struct Calls {
    failing: Vec<u64>,
    made: u64,
    faults: u64,
}

impl Calls {
    /// No call yet.
    fn new(failing: Vec<u64>) -> Calls
        ensures { result ≡ record { failing = failing; made = 0; faults = 0 } }
    {
        Calls {
            failing,
            made: 0,
            faults: 0,
        }
    }

    /// Counts a call, and answers whether its number is listed.
    fn begin(&mut self) -> bool
        ensures listed { IsTrue result ↔ Contains self.old.failing.items self.old.made }
        ensures counted { self.new ≡ record self.old { made = next_count self.old.made } }
    {
        let number = self.made;
        self.made = self.made.saturating_add(1);
        self.failing.contains(&number)
    }

    /// Counts a fault.
    fn fail(&mut self)
        ensures counted { self.new ≡ record self.old { faults = next_count self.old.faults } }
        ensures later { self.old.faults ≤ self.new.faults }
    {
        self.faults = self.faults.saturating_add(1);
    }
}

/// The bytes of the first file of a name.
fn find<'a>(files: &'a [(String, Vec<u8>)], name: &str) -> Option<&'a [u8]>
    ensures { option_map (λ bytes. bytes.now) result ≡ file_of (map plain_file files.now) name.now }
{
    for file in files {
        if file.0.as_str() == name {
            return Some(file.1.as_slice());
        }
    }
    None
}

/// Copies at most `most` bytes of a file, from index `from` onwards, to the start of a buffer, and answers how many.
fn copy_part(whole: &[u8], from: u64, most: usize, into: &mut [u8]) -> usize
    requires { 0 < most }
    ensures part { IsPart whole.now from into.old into.new result }
    ensures count { result ≡ min (min (length into.old) most) (length whole.now - from) }
{
    let start = whole.len().min(from as usize);
    let rest = &whole[start..];
    let count = into.len().min(most).min(rest.len());
    into[..count].copy_from_slice(&rest[..count]);
    count
}

/// Files in memory. It serves every name, and the bytes of each file are known; of two files of one name the first
/// counts.
///
/// Its calls are numbered from 0. Contracts see it as its files, how many bytes a part may have, the numbers of the
/// calls that are to fail, how many calls there were, which is the number of the next, and how many failed. Both counts
/// begin at 0 and stand still at 2^64 - 1.
#[derive(Drop)]
pub struct MemoryShelf {
    files: Vec<(String, Vec<u8>)>,
    most: usize,
    calls: Calls,
}

impl Model for MemoryShelf {
    ghost use Rattle.std.specs.Prelude.{◌<◌, map};
    ghost use Rattle.memory_edge.specs.Memory.{ShelfState, plain_file};

    ghost Value = { ShelfState };

    ghost view = { λ s. record {
      files = map plain_file s.files.items;
      most = s.most;
      failing = s.calls.failing.items;
      calls = s.calls.made;
      faults = s.calls.faults;
    } };

    ghost invariant = { λ s. 0 < s.most };
}

impl MemoryShelf {
    /// A shelf of these names and files, whose calls of the numbers in `failing` fail. It had no call yet, and a part
    /// has all the bytes that fit.
    pub fn new(files: Vec<(String, Vec<u8>)>, failing: Vec<u64>) -> MemoryShelf
        ensures { result ≡ record {
          files = map plain_file files.items;
          most = 2 ^ 64 - 1;
          failing = failing.items;
          calls = 0;
          faults = 0;
        } }
    {
        MemoryShelf {
            files,
            most: usize::MAX,
            calls: Calls::new(failing),
        }
    }

    /// The same shelf, of which a part has at most `most` bytes, as parts of a pipe may be short.
    pub fn in_pieces(self, most: usize) -> MemoryShelf
        requires { 0 < most }
        ensures { result ≡ record self { most = most } }
    {
        MemoryShelf {
            files: self.files,
            most,
            calls: self.calls,
        }
    }
}

impl Shelf for MemoryShelf {
    ghost known = { λ shelf name. file_of shelf.files name };

    ghost serves = { λ _ _. ⊤ };

    ghost asked = { λ _ _. None };

    ghost faults = { λ shelf. shelf.faults };

    /// Fails exactly where the number of the call is listed or there is no file of the name. `TooLong` comes exactly
    /// where it doesn't fail and the file is longer than `limit`, and then no memory is asked for.
    fn read_whole(&mut self, alloc: Global, name: &str, limit: u64) -> Result<Vec<u8>, ShelfRefused>
        ensures within { IfOk result (λ bytes. vec_len bytes ≤ limit) }
        ensures bytes { ReadsWhole (file_of self.old.files name.now) limit result }
        ensures same { SameShelf (file_of self.old.files) (file_of self.new.files)
            (λ _. ⊤) (λ _. ⊤) }
        ensures asked { AsksFor (λ _. None) (λ _. None) name.now }
        ensures cause { HasCause self.old.faults self.new.faults (IsErrOf result Failed) }

        // Beyond what each shelf promises.
        ensures fails { IsErrOf result Failed ↔ FailsToRead self.old name.now }
        ensures fits { IsErrOf result OutOfMemory →
            IfSome (file_of self.old.files name.now) (λ whole. length whole ≤ limit) }
        ensures after { self.new ≡ after_read self.old result }
    {
        if self.calls.begin() {
            self.calls.fail();
            return Err(ShelfRefused::Failed);
        }
        let bytes = match find(&self.files, name) {
            Some(bytes) => bytes,
            None => {
                self.calls.fail();
                return Err(ShelfRefused::Failed);
            }
        };
        if bytes.len() as u64 > limit {
            return Err(ShelfRefused::TooLong);
        }
        Vec::from_slice(alloc, bytes).map_err(|_| ShelfRefused::OutOfMemory)
    }

    /// Fails exactly where the number of the call is listed or there is no file of the name. A part has the bytes from
    /// index `from` onwards, as many as there are, as fit, and as a part may have.
    fn read_part(&mut self, name: &str, from: u64, into: &mut [u8]) -> Result<usize, ShelfRefused>
        ensures part { ReadsPart (file_of self.old.files name.now) from into.old into.new result }
        ensures length { length into.new ≡ length into.old }
        ensures same { SameShelf (file_of self.old.files) (file_of self.new.files)
            (λ _. ⊤) (λ _. ⊤) }
        ensures asked { AsksFor (λ _. None) (λ _. None) name.now }
        ensures only { IsErr result → IsErrOf result Failed }
        ensures cause { HasCause self.old.faults self.new.faults (IsErrOf result Failed) }

        // Beyond what each shelf promises.
        ensures fails { IsErrOf result Failed ↔ FailsToRead self.old name.now }
        ensures count { IfOk result (λ count. IfSome (file_of self.old.files name.now)
            (λ whole. count ≡ part_length self.old whole from (length into.old))) }
        ensures after { self.new ≡ after_read self.old result }
    {
        if self.calls.begin() {
            self.calls.fail();
            return Err(ShelfRefused::Failed);
        }
        match find(&self.files, name) {
            Some(whole) => Ok(copy_part(whole, from, self.most, into)),
            None => {
                self.calls.fail();
                Err(ShelfRefused::Failed)
            }
        }
    }
}

/// Bytes in memory, up to a room that is set aside at the start, so that no later call takes memory.
///
/// Its calls are numbered from 0. Contracts see it as the bytes that it took, its room, the numbers of the calls that
/// are to fail, how many calls there were, which is the number of the next, and how many failed. Both counts begin at 0
/// and stand still at 2^64 - 1.
#[derive(Drop)]
pub struct MemorySink {
    bytes: Vec<u8>,
    room: usize,
    calls: Calls,
}

impl Model for MemorySink {
    ghost use Rattle.std.specs.Prelude.{◌≤◌, vec_len, vec_capacity};
    ghost use Rattle.memory_edge.specs.Memory.{SinkState};

    ghost Value = { SinkState };

    ghost view = { λ s. record {
      bytes = s.bytes.items;
      room = s.room;
      failing = s.calls.failing.items;
      calls = s.calls.made;
      faults = s.calls.faults;
    } };

    ghost invariant = { λ s. (vec_len s.bytes ≤ s.room) × (s.room ≤ vec_capacity s.bytes) };
}

impl MemorySink {
    /// An empty sink for `room` bytes, whose calls of the numbers in `failing` fail. It had no call yet.
    /// AllocError comes where memory for the room is lacking.
    pub fn new(alloc: Global, room: usize, failing: Vec<u64>) -> Result<MemorySink, AllocError>
        ensures { IfOk result (λ sink. sink ≡ record {
          bytes = [];
          room = room;
          failing = failing.items;
          calls = 0;
          faults = 0;
        }) }
    {
        let bytes = Vec::with_capacity(alloc, room)?;
        Ok(MemorySink {
            bytes,
            room,
            calls: Calls::new(failing),
        })
    }

    /// The bytes that it took.
    pub fn bytes(&self) -> &[u8]
        ensures taken { result.now ≡ self.now.bytes }
        ensures within { length self.now.bytes ≤ self.now.room }
    {
        self.bytes.as_slice()
    }
}

impl Sink for MemorySink {
    ghost output = { memory_output };

    ghost faults = { λ sink. sink.faults };

    /// Fails exactly where the number of the call is listed or the piece is longer than the free room, and then
    /// appends nothing.
    fn put(&mut self, bytes: &[u8]) -> Result<(), SinkFailed>
        ensures bytes { Puts (memory_output self.old) (memory_output self.new) result bytes.now }
        ensures first { IsKnownPrefix (Some self.new.bytes) (Some self.new.bytes) }
        ensures cause { HasCause self.old.faults self.new.faults (IsErr result) }

        // Beyond what each sink promises.
        ensures fails { IsErr result ↔ FailsToPut self.old bytes.now }
        ensures after { self.new ≡ after_put self.old bytes.now result }
    {
        if self.calls.begin() {
            self.calls.fail();
            return Err(SinkFailed);
        }
        if bytes.len() > self.room - self.bytes.len() {
            self.calls.fail();
            return Err(SinkFailed);
        }
        self.bytes.extend_from_slice(bytes).unwrap();
        Ok(())
    }

    /// Never fails, and isn't counted as a call, since nothing is kept back.
    fn flush(&mut self) -> Result<(), SinkFailed>
        ensures bytes { Stays (memory_output self.old) (memory_output self.new) }
        ensures first { IsKnownPrefix (Some self.new.bytes) (Some self.new.bytes) }
        ensures all { OnOk result (Some self.new.bytes ≡ Some self.new.bytes) }
        ensures cause { HasCause self.old.faults self.new.faults (IsErr result) }

        // Beyond what each sink promises.
        ensures fine { IsOk result }
        ensures same { self.new ≡ self.old }
    {
        Ok(())
    }
}
