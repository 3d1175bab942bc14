//! The edge to the system's files: a shelf over them.
ghost use Rattle.std.specs.Prelude.{◌≡◌, ◌≤◌, None, ⊤, IfOk, IfSome, length, vec_len};
ghost use Rattle.water_edge.specs.Edge.{ReadsWhole};

use crate::{Shelf, ShelfRefused};
use arrayvec::ArrayString;
use std::alloc::Global;
use std::fs::File;
use std::io::{Read, Seek, SeekFrom};
use std::marker::Model;
use std::rt::Files;

/// How many bytes one read of a whole file asks for.
const PIECE: usize = 65_536;

/// How many bytes the name of a file that is read in parts may have, which is the system's limit for a path.
const LONGEST_NAME: usize = 4096;

/// All that a reader has left, if that is at most `limit` bytes.
fn read_within<F: Read>(reader: &mut F, alloc: Global, limit: u64) -> Result<Vec<u8>, ShelfRefused>
    ensures within { IfOk result (λ bytes. vec_len bytes ≤ limit) }
    ensures bytes { ReadsWhole (F.remaining reader.old) limit result }
{
    let mut bytes = Vec::new(alloc);
    let mut piece = [0u8; PIECE];
    loop {
        match reader.read(&mut piece) {
            Ok(0) => return Ok(bytes),
            Ok(count) => {
                if limit - (bytes.len() as u64) < count as u64 {
                    return Err(ShelfRefused::TooLong);
                }
                if bytes.extend_from_slice(&piece[..count]).is_err() {
                    return Err(ShelfRefused::OutOfMemory);
                }
            }
            Err(_) => return Err(ShelfRefused::Failed),
        }
    }
}

/// A file that is open to be read in parts, its name, and, as `place`, the index of the byte that it reads next.
#[derive(Drop)]
struct Opened<F> {
    name: ArrayString<LONGEST_NAME>,
    file: F,
    place: u64,
}

impl<F> Opened<F> {
    /// Whether a read of the named file from index `from` onwards can use this one. A read from 0 onwards opens the
    /// file anew, unless nothing was read yet.
    fn serves(&self, name: &str, from: u64) -> bool {
        self.name.as_str() == name && (from > 0 || self.place == 0)
    }
}

impl<F: Read + Seek> Opened<F> {
    /// One read from index `from` onwards, after a seek if the file stands elsewhere. None where one of them fails.
    fn read_from(&mut self, from: u64, into: &mut [u8]) -> Option<usize>
        ensures { IfSome result (λ count. count ≤ length into.old) }
    {
        if self.place != from {
            self.file.seek(SeekFrom::Start(from)).ok()?;
        }
        let count = self.file.read(into).ok()?;
        self.place = from.saturating_add(count as u64);
        Some(count)
    }
}

/// Opens a file, which stands at its beginning. None where its name is too long or std's `open` fails.
fn open<R: Files>(rt: &R, name: &str) -> Option<Opened<R::File>> {
    let kept = ArrayString::from(name).ok()?;
    let file = File::open(rt, name).ok()?;
    Some(Opened {
        name: kept,
        file,
        place: 0,
    })
}

/// One read of a part, by the open file if that serves. None where it fails: then no file stays open, since nobody
/// knows where it stands.
fn read_on<R: Files>(
    rt: &R,
    opened: &mut Option<Opened<R::File>>,
    name: &str,
    from: u64,
    into: &mut [u8],
) -> Option<usize>
    ensures { IfSome result (λ count. count ≤ length into.old) }
{
    let is_open = match opened {
        Some(file) => file.serves(name, from),
        None => false,
    };
    if !is_open {
        *opened = open(rt, name);
    }
    let count = match opened {
        Some(file) => file.read_from(from, into),
        None => None,
    };
    if count.is_none() {
        *opened = None;
    }
    count
}

/// The files of a runtime. It serves every name, as a path, and no bytes are known. Contracts see it as how many calls
/// failed.
#[derive(Drop)]
pub struct FileShelf<'a, R: Files> {
    rt: &'a R,
    opened: Option<Opened<R::File>>,
    faults: u64,
}

impl<'a, R: Files> Model for FileShelf<'a, R> {
    ghost use Rattle.std.specs.Prelude.{ℕ};

    ghost Value = { ℕ };

    ghost view = { λ s. s.faults };
}

impl<'a, R: Files> FileShelf<'a, R> {
    /// A shelf over these files. No call failed yet.
    pub fn new(rt: &'a R) -> FileShelf<'a, R>
        ensures { result ≡ 0 }
    {
        FileShelf {
            rt,
            opened: None,
            faults: 0,
        }
    }
}

impl<'a, R: Files> Shelf for FileShelf<'a, R> {
    ghost known = { λ _ _. None };

    ghost serves = { λ _ _. ⊤ };

    ghost asked = { λ _ _. None };

    ghost faults = { λ faults. faults };

    /// Fails where std's `open` or `read` fails. `TooLong` comes as soon as more than `limit` bytes were read.
    fn read_whole(
        &mut self,
        alloc: Global,
        name: &str,
        limit: u64,
    ) -> Result<Vec<u8>, ShelfRefused> {
        let answer = match File::open(self.rt, name) {
            Ok(mut file) => read_within(&mut file, alloc, limit),
            Err(_) => Err(ShelfRefused::Failed),
        };
        if let Err(ShelfRefused::Failed) = answer {
            self.faults = self.faults.saturating_add(1);
        }
        answer
    }

    /// One read of std, so a part may be shorter than the buffer although more follows. Fails where std's `open`,
    /// `seek` or `read` fails, and where the name has more than 4,096 bytes.
    ///
    /// The file stays open, and a call that asks for what follows the last part doesn't seek: so a pipe can be read.
    /// A call from 0 onwards opens the file anew, unless nothing of it was read yet. A call from any other index
    /// seeks, which fails for a pipe.
    fn read_part(&mut self, name: &str, from: u64, into: &mut [u8]) -> Result<usize, ShelfRefused> {
        match read_on(self.rt, &mut self.opened, name, from, into) {
            Some(count) => Ok(count),
            None => {
                self.faults = self.faults.saturating_add(1);
                Err(ShelfRefused::Failed)
            }
        }
    }
}
