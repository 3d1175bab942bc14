//! Why a file of cases can't be tried.

use std::alloc::{AllocError, AllocFailed};
use std::fmt;

/// What is wrong with a line.
#[derive(Clone, Copy, Debug, Drop, PartialEq, Eq)]
pub enum Wrong {
    /// Its first word is no key, or stands where that key can't.
    Key,
    /// What follows its key isn't of the form.
    Value,
    /// It has the name of a text that isn't known.
    Name,
    /// There is a text of this name already.
    SameName,
    /// It, or the line before it, changes what the text doesn't have.
    Change,
}

/// Why a file of cases can't be tried.
#[derive(Debug, Drop)]
pub enum Fault {
    /// The file can't be read.
    Unread,
    /// Its bytes are no text.
    NoText,
    /// The line of this number is wrong.
    Line(u64, Wrong),
    OutOfMemory,
}

impl Fault {
    /// The fault with the number of its line, where it is one of a line.
    pub fn at(self, number: u64) -> Fault {
        match self {
            Fault::Line(_, wrong) => Fault::Line(number, wrong),
            other => other,
        }
    }
}

impl From<Wrong> for Fault {
    fn from(wrong: Wrong) -> Fault {
        Fault::Line(0, wrong)
    }
}

impl From<AllocError> for Fault {
    fn from(_error: AllocError) -> Fault {
        Fault::OutOfMemory
    }
}

impl<T: Drop> From<AllocFailed<T>> for Fault {
    fn from(_error: AllocFailed<T>) -> Fault {
        Fault::OutOfMemory
    }
}

impl fmt::Display for Wrong {
    fn fmt<W: fmt::Write>(&self, f: &mut fmt::Formatter<W>) -> fmt::Result {
        match self {
            Wrong::Key => write!(f, "no key that can stand here"),
            Wrong::Value => write!(f, "a value that is not understood"),
            Wrong::Name => write!(f, "a name of no text"),
            Wrong::SameName => write!(f, "a second text of this name"),
            Wrong::Change => write!(f, "a change of what is not there"),
        }
    }
}

impl fmt::Display for Fault {
    fn fmt<W: fmt::Write>(&self, f: &mut fmt::Formatter<W>) -> fmt::Result {
        match self {
            Fault::Unread => write!(f, "can't be read"),
            Fault::NoText => write!(f, "no text"),
            Fault::Line(number, wrong) => write!(f, "line {number}: {wrong}"),
            Fault::OutOfMemory => write!(f, "out of memory"),
        }
    }
}
