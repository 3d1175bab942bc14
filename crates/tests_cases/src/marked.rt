//! Texts from lines that begin with a mark, and changes of them.
//!
//! A line `|TEXT` is a line of the text with its line feed. A line `~TEXT` has no line feed of its own, and each `\x`
//! in it stands before the two digits of a byte.

use crate::fault::{Fault, Wrong};
use std::alloc::Global;

/// Where marked lines go: into the text itself, into what is looked for in it, or into what replaces its bytes from one
/// index to another.
#[derive(Clone, Copy, Debug, Drop, PartialEq, Eq)]
enum Open {
    Text,
    Old,
    New(usize, usize),
}

/// A text of which the lines come.
#[derive(Drop)]
pub struct Draft {
    text: Vec<u8>,
    old: Vec<u8>,
    new: Vec<u8>,
    open: Open,
}

/// Whether a line begins with a mark.
pub fn is_marked(line: &str) -> bool {
    line.starts_with("|") || line.starts_with("~")
}

/// Adds a piece that begins with the two digits of a byte.
fn add_escaped(alloc: Global, into: &mut Vec<u8>, piece: &str) -> Result<(), Fault> {
    let mut digits = String::new(alloc);
    let mut rest = String::new(alloc);
    for letter in piece.chars() {
        if digits.len() < 2 {
            digits.push(letter)?;
        } else {
            rest.push(letter)?;
        }
    }
    match u8::from_str_radix(digits.as_str(), 16) {
        Ok(byte) => into.push(byte)?,
        Err(_) => return Err(Wrong::Value.into()),
    }
    into.extend_from_slice(rest.as_bytes())?;
    Ok(())
}

/// Adds what stands behind a mark.
fn add_marked(alloc: Global, into: &mut Vec<u8>, line: &str) -> Result<(), Fault> {
    if let Some(text) = line.strip_prefix("|") {
        into.extend_from_slice(text.as_bytes())?;
        into.push(10)?;
        return Ok(());
    }
    let text = line.strip_prefix("~").unwrap_or("");
    let mut is_first = true;
    for piece in text.split("\\x") {
        if is_first {
            into.extend_from_slice(piece.as_bytes())?;
            is_first = false;
        } else {
            add_escaped(alloc, into, piece)?;
        }
    }
    Ok(())
}

/// Where a piece first begins in a text.
pub fn find(text: &[u8], piece: &[u8]) -> Option<usize> {
    for start in 0..text.len() {
        if text[start..].starts_with(piece) {
            return Some(start);
        }
    }
    None
}

/// Where the line of this number begins and ends. Lines count from 1, and each has its line feed.
fn line_at(text: &[u8], number: u64) -> Option<(usize, usize)> {
    let mut line = 1u64;
    let mut start = 0usize;
    for (place, byte) in text.iter().enumerate() {
        if *byte != 10 {
            continue;
        }
        let end = place.saturating_add(1);
        if line == number {
            return Some((start, end));
        }
        line = line.saturating_add(1);
        start = end;
    }
    None
}

impl Draft {
    /// A draft that begins with these bytes.
    pub fn new(alloc: Global, text: Vec<u8>) -> Draft {
        Draft {
            text,
            old: Vec::new(alloc),
            new: Vec::new(alloc),
            open: Open::Text,
        }
    }

    /// Takes a marked line.
    pub fn add(&mut self, alloc: Global, line: &str) -> Result<(), Fault> {
        match self.open {
            Open::Text => add_marked(alloc, &mut self.text, line),
            Open::Old => add_marked(alloc, &mut self.old, line),
            Open::New(_, _) => add_marked(alloc, &mut self.new, line),
        }
    }

    /// Makes the change whose lines came.
    fn change(&mut self, alloc: Global) -> Result<(), Fault> {
        if let Open::New(start, end) = self.open {
            let (Some(before), Some(after)) = (self.text.get(..start), self.text.get(end..)) else {
                return Err(Wrong::Change.into());
            };
            let mut changed = Vec::from_slice(alloc, before)?;
            changed.extend_from_slice(self.new.as_slice())?;
            changed.extend_from_slice(after)?;
            self.text = changed;
            self.new = Vec::new(alloc);
        }
        if self.open == Open::Old {
            return Err(Wrong::Change.into());
        }
        self.open = Open::Text;
        Ok(())
    }

    /// The lines that follow are looked for.
    pub fn open_old(&mut self, alloc: Global) -> Result<(), Fault> {
        self.change(alloc)?;
        self.old = Vec::new(alloc);
        self.open = Open::Old;
        Ok(())
    }

    /// The lines that follow stand in the place of those that were looked for.
    pub fn open_new(&mut self) -> Result<(), Fault> {
        if self.open != Open::Old || self.old.is_empty() {
            return Err(Wrong::Change.into());
        }
        let Some(start) = find(self.text.as_slice(), self.old.as_slice()) else {
            return Err(Wrong::Change.into());
        };
        self.open = Open::New(start, start.saturating_add(self.old.len()));
        Ok(())
    }

    /// The lines that follow stand in the place of this line of the text as it is by now.
    pub fn open_line(&mut self, alloc: Global, number: u64) -> Result<(), Fault> {
        self.change(alloc)?;
        let Some((start, end)) = line_at(self.text.as_slice(), number) else {
            return Err(Wrong::Change.into());
        };
        self.open = Open::New(start, end);
        Ok(())
    }

    /// The whole text.
    pub fn finish(mut self, alloc: Global) -> Result<Vec<u8>, Fault> {
        self.change(alloc)?;
        Ok(self.text)
    }
}
