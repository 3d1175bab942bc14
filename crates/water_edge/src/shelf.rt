//! A shelf serves files by name.
ghost use Rattle.std.specs.Prelude.{◌≡◌, ◌≤◌, List, ℕ, Option, IfOk, IsErr, IsErrOf, length, vec_len};
ghost use Rattle.water_edge.specs.declared.shelf.ShelfRefused.TheVariants.{Failed};
ghost use Rattle.water_edge.specs.Edge.{AsksFor, HasCause, SameShelf, ReadsPart, ReadsWhole};

use std::alloc::Global;

/// Why a file could not be read.
#[derive(Clone, Copy, Debug, PartialEq, Eq)]
pub enum ShelfRefused {
    /// There is no file of the name, or opening or reading it failed. The shelf has counted a fault.
    Failed,
    /// The file is longer than the limit of the call.
    TooLong,
    /// There was no memory for the file's bytes.
    OutOfMemory,
}

/// Files by name. A name is UTF-8 text, and a file is its bytes.
///
/// Where a shelf's contract states the bytes of its files, they are known, and each answer agrees with the known bytes.
/// Of other shelves, as one over the system's files, no bytes are known, and their answers say nothing of bytes.
pub trait Shelf {
    /// The bytes of the file under a name. None where they aren't known, and where there is no such file.
    ghost known: { Self → List ℕ → Option (List ℕ) };

    /// The names that may be asked for, which need not have a file.
    ghost serves: { Self → List ℕ → Type 0 };

    /// How many calls asked for the file of a name, where that is known. The count never falls, and stands still at
    /// 2^64 - 1.
    ghost asked: { Self → List ℕ → Option ℕ };

    /// How many calls have failed. The count never falls, and stands still at 2^64 - 1.
    ghost faults: { Self → ℕ };

    /// All bytes of the file under a served name, if there are at most `limit` of them.
    ///
    /// - `Ok` has the whole file. Where the bytes are known, they are the known ones.
    /// - `TooLong`: the file has more than `limit` bytes.
    /// - `Failed` comes only where this call counted a fault. A name without a file is a fault.
    /// - `OutOfMemory` may come at any point.
    ///
    /// After each answer the known bytes are as before, and each name that was served still is.
    fn read_whole(&mut self, alloc: Global, name: &str, limit: u64) -> Result<Vec<u8>, ShelfRefused>
        requires { serves self.old name.now }
        ensures within { IfOk result (λ bytes. vec_len bytes ≤ limit) }
        ensures bytes { ReadsWhole (known self.old name.now) limit result }
        ensures same { SameShelf (known self.old) (known self.new) (serves self.old) (serves self.new) }
        ensures asked { AsksFor (asked self.old) (asked self.new) name.now }
        ensures cause { HasCause (faults self.old) (faults self.new) (IsErrOf result Failed) };

    /// A part of the file under a served name: bytes from index `from` onwards are written to the start of `into`, and
    /// the answer is how many. It takes no memory.
    ///
    /// - `Ok(0)` comes only where `into` is empty or the file has no byte at or after `from`. Where the bytes are
    ///   known, the part has the known ones, and what stands after it in `into` stays.
    /// - `Failed` comes only where this call counted a fault. A name without a file is a fault. What `into` holds then
    ///   is not said.
    /// - `TooLong` and `OutOfMemory` never come.
    ///
    /// After each answer the known bytes are as before, and each name that was served still is.
    fn read_part(&mut self, name: &str, from: u64, into: &mut [u8]) -> Result<usize, ShelfRefused>
        requires { serves self.old name.now }
        ensures part { ReadsPart (known self.old name.now) from into.old into.new result }
        ensures length { length into.new ≡ length into.old }
        ensures same { SameShelf (known self.old) (known self.new) (serves self.old) (serves self.new) }
        ensures asked { AsksFor (asked self.old) (asked self.new) name.now }
        ensures only { IsErr result → IsErrOf result Failed }
        ensures cause { HasCause (faults self.old) (faults self.new) (IsErrOf result Failed) };
}
