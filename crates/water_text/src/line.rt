//! One line of text that is built piece by piece.
ghost use Rattle.std.specs.Prelude.{◌≡◌, ◌+◌, ◌≤◌, ◌<◌, ◌==◌, [], ◌++◌, ◌∷◌, length};
ghost use Rattle.std.specs.Fmt.{decimal};
ghost use Rattle.water_text.specs.Months.{IsMonth, month_digits};

use crate::month::Month;
use crate::name::Name;
use std::marker::Model;

const ROOM: usize = 128;

/// At most 128 bytes, held in the value itself. Contracts see them as a list.
#[derive(Drop)]
pub struct Line {
    bytes: [u8; ROOM],
    len: usize,
}

impl Model for Line {
    ghost use Rattle.std.specs.Prelude.{List, ℕ, take, ◌≤◌};

    ghost Value = { List ℕ };

    ghost view = { λ l. take l.len l.bytes };

    ghost invariant = { λ l. l.len ≤ 128 };
}

impl Line {
    /// The empty line.
    pub fn new() -> Line
        ensures { result ≡ [] }
    {
        Line {
            bytes: [0; ROOM],
            len: 0,
        }
    }

    /// Drops what stands in the line.
    pub fn clear(&mut self)
        ensures { self.new ≡ [] }
    {
        self.len = 0;
    }

    /// How many bytes the line has, at most 128.
    pub fn len(&self) -> usize
        ensures { result ≡ length self.now }
    {
        self.len
    }

    /// Whether the line has no byte.
    pub fn is_empty(&self) -> bool
        ensures { result ≡ (length self.now == 0) }
    {
        self.len == 0
    }

    /// The bytes of the line.
    pub fn bytes(&self) -> &[u8]
        ensures { result.now ≡ self.now }
    {
        &self.bytes[..self.len]
    }

    fn push(&mut self, byte: u8)
        requires { length self.old < 128 }
        ensures { self.new ≡ self.old ++ byte ∷ [] }
    {
        self.bytes[self.len] = byte;
        self.len += 1;
    }

    /// Appends bytes, which have to fit.
    pub fn word(&mut self, bytes: &[u8])
        requires { length self.old + length bytes.now ≤ 128 }
        ensures text { self.new ≡ self.old ++ bytes.now }
        ensures length { length self.new ≡ length self.old + length bytes.now }
    {
        for byte in bytes {
            self.push(*byte);
        }
    }

    /// Appends a number in decimal digits, at most 20, which have to fit.
    pub fn amount(&mut self, value: u64)
        requires { length self.old + length (decimal value) ≤ 128 }
        ensures text { self.new ≡ self.old ++ decimal value }
        ensures length { length self.new ≡ length self.old + length (decimal value) }
        ensures digits { length (decimal value) ≤ 20 }
    {
        let mut digits = [0u8; 20];
        let mut at = 20;
        let mut rest = value;
        while rest >= 10 {
            at -= 1;
            digits[at] = b'0' + (rest % 10) as u8;
            rest /= 10;
        }
        at -= 1;
        digits[at] = b'0' + rest as u8;
        self.word(&digits[at..]);
    }

    /// Appends bytes after a space.
    pub fn add_word(&mut self, bytes: &[u8])
        requires { length self.old + 1 + length bytes.now ≤ 128 }
        ensures text { self.new ≡ self.old ++ 32 ∷ bytes.now }
        ensures length { length self.new ≡ length self.old + 1 + length bytes.now }
    {
        self.word(b" ");
        self.word(bytes);
    }

    /// Appends a number after a space.
    pub fn add_number(&mut self, value: u64)
        requires { length self.old + 21 ≤ 128 }
        ensures text { self.new ≡ self.old ++ 32 ∷ decimal value }
        ensures length { length self.new ≤ length self.old + 21 }
    {
        self.word(b" ");
        self.amount(value);
    }

    /// Appends a name after a space.
    pub fn add_name(&mut self, name: &Name)
        requires { length self.old + 33 ≤ 128 }
        ensures text { self.new ≡ self.old ++ 32 ∷ name.now }
        ensures length { length self.new ≤ length self.old + 33 }
    {
        self.add_word(name.bytes());
    }

    /// Appends a month after a space.
    pub fn add_month(&mut self, month: Month)
        requires room { length self.old + 8 ≤ 128 }
        requires month { IsMonth month }
        ensures text { self.new ≡ self.old ++ 32 ∷ month_digits month }
        ensures length { length self.new ≡ length self.old + 8 }
    {
        self.word(b" ");
        month.put_into(self);
    }
}
