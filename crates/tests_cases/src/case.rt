//! What a case says.

use basin_cli::Status;
use std::alloc::Global;
use test_support::NEVER;

/// Which bytes a text of a case is.
#[derive(Clone, Copy, Debug, Drop, PartialEq, Eq)]
pub enum Slot {
    Basin,
    Second,
    Series,
    Result,
    Script,
    Out,
    Err,
}

/// How what stands on out is compared with the text that is wanted.
#[derive(Clone, Copy, Debug, Drop, PartialEq, Eq)]
pub enum Compared {
    /// It is that text.
    Whole,
    /// Its lines that begin with the word of the case are that text.
    Picked,
    /// That text stands somewhere in it.
    Held,
}

/// A call of the program, and how it ends.
#[derive(Drop)]
pub struct Case {
    pub name: String,
    pub words: Vec<String>,
    pub basin: Vec<u8>,
    pub second: Vec<u8>,
    pub series: Vec<u8>,
    pub result: Vec<u8>,
    pub script: Vec<u8>,
    /// How many bytes a part of a file has: the case is tried with each. None: with all bytes that there are.
    pub parts: Vec<usize>,
    /// The numbers of the calls of the shelf, of out and of err that fail.
    pub shelf_fails: u64,
    pub out_fails: u64,
    pub err_fails: u64,
    /// Whether the case is tried again with the put of each line of out failing.
    pub each_put_fails: bool,
    pub status: Status,
    pub out: Vec<u8>,
    pub err: Vec<u8>,
    pub compared: Compared,
    /// The word with which the picked lines begin.
    pub picked: String,
}

impl Case {
    /// A case of this name, without words and files, that ends well and writes nothing.
    pub fn new(alloc: Global, name: String) -> Case {
        Case {
            name,
            words: Vec::new(alloc),
            basin: Vec::new(alloc),
            second: Vec::new(alloc),
            series: Vec::new(alloc),
            result: Vec::new(alloc),
            script: Vec::new(alloc),
            parts: Vec::new(alloc),
            shelf_fails: NEVER,
            out_fails: NEVER,
            err_fails: NEVER,
            each_put_fails: false,
            status: Status::Done,
            out: Vec::new(alloc),
            err: Vec::new(alloc),
            compared: Compared::Whole,
            picked: String::new(alloc),
        }
    }

    /// Puts a text where it belongs.
    pub fn put(&mut self, slot: Slot, bytes: Vec<u8>) {
        match slot {
            Slot::Basin => self.basin = bytes,
            Slot::Second => self.second = bytes,
            Slot::Series => self.series = bytes,
            Slot::Result => self.result = bytes,
            Slot::Script => self.script = bytes,
            Slot::Out => self.out = bytes,
            Slot::Err => self.err = bytes,
        }
    }
}

/// The status of a name.
pub fn status_named(name: &str) -> Option<Status> {
    match name {
        "Done" => Some(Status::Done),
        "No" => Some(Status::No),
        "Usage" => Some(Status::Usage),
        "BasinRefused" => Some(Status::BasinRefused),
        "SeriesRefused" => Some(Status::SeriesRefused),
        "ReadFault" => Some(Status::ReadFault),
        "WriteFault" => Some(Status::WriteFault),
        "OutOfMemory" => Some(Status::OutOfMemory),
        "InputTooLong" => Some(Status::InputTooLong),
        "ScriptRefused" => Some(Status::ScriptRefused),
        _ => None,
    }
}

/// The text of a case that a key names.
pub fn slot_named(key: &str) -> Option<Slot> {
    match key {
        "BASIN" => Some(Slot::Basin),
        "BASIN2" => Some(Slot::Second),
        "SERIES" => Some(Slot::Series),
        "RESULT" => Some(Slot::Result),
        "SCRIPT" => Some(Slot::Script),
        "out" | "holds" => Some(Slot::Out),
        "err" => Some(Slot::Err),
        _ => None,
    }
}
