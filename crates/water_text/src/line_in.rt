//! One line of input that comes in pieces.
ghost use Rattle.std.specs.Prelude.{◌≡◌, ◌+◌, ◌-◌, ◌<◌, ◌≤◌, ◌++◌, false, length, min, take};
ghost use Rattle.std.specs.List.{position};
ghost use Rattle.water_text.specs.LinesIn.{Takes, is_feed, nothing_held};

use std::marker::Model;

/// The longest line has 128 bytes. One byte more shows that a line is longer.
const ROOM: usize = 129;

/// What a [`LineIn`] took of a piece.
#[derive(Clone, Copy, Debug, PartialEq, Eq)]
pub struct Fed {
    /// How many bytes were taken, from the first of the piece onwards.
    pub taken: usize,
    /// Whether the line is whole: a line feed ended it, or it has 129 bytes.
    pub whole: bool,
}

/// One line of input, gathered in the value itself: at most 129 bytes, and no line feed. Contracts see its bytes, and
/// whether it is whole.
#[derive(Drop)]
pub struct LineIn {
    bytes: [u8; ROOM],
    len: usize,
    whole: bool,
}

impl Model for LineIn {
    ghost use Rattle.std.specs.Prelude.{◌≡◌, ◌≤◌, false, take};
    ghost use Rattle.water_text.specs.LinesIn.{LineHeld, HasRoom};

    ghost Value = { LineHeld };

    ghost view = { λ l. record { bytes = take l.len l.bytes; whole = l.whole } };

    ghost invariant = { λ l. HasRoom l.len l.whole };
}

/// The index of the first line feed.
pub fn first_feed(piece: &[u8]) -> Option<usize>
    ensures { result ≡ position is_feed piece.now }
{
    piece.iter().position(|byte| *byte == b'\n')
}

/// Writes bytes into a list from index `from` onwards, where they fit.
fn copy_to(bytes: &mut [u8], from: usize, prefix: &[u8])
    requires { from + length prefix.now ≤ length bytes.old }
    ensures { take (from + length prefix.now) bytes.new ≡ take from bytes.old ++ prefix.now }
{
    bytes[from..from + prefix.len()].copy_from_slice(prefix);
}

impl LineIn {
    /// A line without a byte, which is not whole.
    pub fn new() -> LineIn
        ensures { result ≡ nothing_held }
    {
        LineIn {
            bytes: [0; ROOM],
            len: 0,
            whole: false,
        }
    }

    /// Takes bytes of a piece: up to its first line feed, which is taken and not kept, or until 129 bytes are held, or
    /// all of it. In the first two cases the line is whole, and has to be cleared before the next call.
    ///
    /// No memory is taken. The cost is that of the bytes taken.
    pub fn feed(&mut self, piece: &[u8]) -> Fed
        requires { self.old.whole ≡ false }
        ensures within { result.taken ≤ length piece.now }
        ensures some { 0 < length piece.now → 0 < result.taken }
        ensures whole { self.new.whole ≡ result.whole }
        ensures takes { Takes result.whole self.old.bytes self.new.bytes piece.now result.taken }
    {
        let prefix = &piece[..piece.len().min(ROOM - self.len)];
        match first_feed(prefix) {
            Some(at) => {
                copy_to(&mut self.bytes, self.len, &prefix[..at]);
                self.len += at;
                self.whole = true;
                Fed {
                    taken: at + 1,
                    whole: true,
                }
            }
            None => {
                copy_to(&mut self.bytes, self.len, prefix);
                self.len += prefix.len();
                self.whole = self.len == ROOM;
                Fed {
                    taken: prefix.len(),
                    whole: self.whole,
                }
            }
        }
    }

    /// The bytes of the line, without a line feed: at most 128, and 129 of a longer line.
    pub fn bytes(&self) -> &[u8]
        ensures { result.now ≡ self.now.bytes }
    {
        &self.bytes[..self.len]
    }

    /// Drops what is held.
    pub fn clear(&mut self)
        ensures { self.new ≡ nothing_held }
    {
        self.len = 0;
        self.whole = false;
    }
}
