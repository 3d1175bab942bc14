//! The top call over files in memory, for the cases and the tests of the program.
#![tactic(auto)]

ghost use Rattle.std.specs.Prelude.{◌≡◌, ◌<◌};

use basin_cli::{Status, basin_main};
use memory_edge::{MemoryShelf, MemorySink};
use month_fold::work::Work;
use std::alloc::{AllocError, Global};
use std::marker::Brand;
use std::sync::ledger::{Blank, Ledger};
use std::test::Fail;
use water_edge::Sink;

/// The bytes of the files BASIN, BASIN2, SERIES, RESULT and SCRIPT, how many bytes a part of a file has at most, where
/// 0 counts as 1, and the numbers of the calls of the shelf, of out and of err that fail.
#[derive(Clone, Copy, Drop)]
pub struct Set<'a> {
    pub basin: &'a [u8],
    pub second: &'a [u8],
    pub series: &'a [u8],
    pub result: &'a [u8],
    pub script: &'a [u8],
    pub part: usize,
    pub shelf_fails: u64,
    pub out_fails: u64,
    pub err_fails: u64,
}

/// The number of a call that is never made.
pub const NEVER: u64 = 1_000_000;

/// Files whose calls all succeed. A part has all the bytes that there are.
pub fn files<'a>(basin: &'a str, series: &'a str) -> Set<'a> {
    Set {
        basin: basin.as_bytes(),
        second: b"",
        series: series.as_bytes(),
        result: b"",
        script: b"",
        part: usize::MAX,
        shelf_fails: NEVER,
        out_fails: NEVER,
        err_fails: NEVER,
    }
}

/// A file of this name.
fn named(alloc: Global, name: &str, bytes: &[u8]) -> Result<(String, Vec<u8>), AllocError> {
    let name = String::from_str(alloc, name)?;
    Ok((name, Vec::from_slice(alloc, bytes)?))
}

/// The words, each by itself.
fn list_of(alloc: Global, words: &[&str]) -> Result<Vec<String>, AllocError> {
    let mut list = Vec::new(alloc);
    for word in words {
        list.push(String::from_str(alloc, word)?)?;
    }
    Ok(list)
}

/// The files of a set.
fn held_of(alloc: Global, set: &Set) -> Result<Vec<(String, Vec<u8>)>, AllocError> {
    let mut held = Vec::new(alloc);
    for (name, bytes) in [
        ("BASIN", set.basin),
        ("BASIN2", set.second),
        ("SERIES", set.series),
        ("RESULT", set.result),
        ("SCRIPT", set.script),
    ] {
        held.push(named(alloc, name, bytes)?)?;
    }
    Ok(held)
}

/// A shelf that holds the files.
fn shelf_of(alloc: Global, set: &Set) -> Result<MemoryShelf, AllocError> {
    let failing = vec![in alloc; set.shelf_fails; 1]?;
    let held = held_of(alloc, set)?;
    Ok(MemoryShelf::new(held, failing).in_pieces(set.part.max(1)))
}

/// A sink of which one call fails.
fn sink_of(alloc: Global, room: usize, fails: u64) -> Result<MemorySink, AllocError> {
    MemorySink::new(alloc, room, vec![in alloc; fails; 1]?)
}

/// Out and err.
fn sinks_of(alloc: Global, set: &Set) -> Result<(MemorySink, MemorySink), AllocError> {
    let out = sink_of(alloc, 131_072, set.out_fails)?;
    Ok((out, sink_of(alloc, 4096, set.err_fails)?))
}

fn call_over<K: Sink, P: Ledger, M: Ledger>(
    alloc: Global,
    pushes: Blank,
    months: Blank,
    words: &[String],
    shelf: &mut MemoryShelf,
    out: &mut K,
    err: &mut MemorySink,
) -> Status
    requires pushes_name { pushes.name ≡ P.name }
    requires pushes_parts { pushes.parts ≡ P.parts }
    requires pushes_some { 0 < P.parts }
    requires months_name { months.name ≡ M.name }
    requires months_parts { months.parts ≡ M.parts }
    requires months_some { 0 < M.parts }
{
    let mut work = Work::<P, M>::new(pushes, months);
    basin_main(alloc, words, shelf, out, err, &mut work)
}

/// Calls the program over these sinks, and gives its status.
fn status_of<K: Sink>(
    alloc: Global,
    words: &[&str],
    set: &Set,
    out: &mut K,
    err: &mut MemorySink,
) -> Result<Status, AllocError> {
    let list = list_of(alloc, words)?;
    let mut shelf = shelf_of(alloc, set)?;
    let pushes = Blank::new(1);
    let months = Blank::new(1);
    let status = call_over::<K, Brand, Brand>(alloc, pushes, months, &list, &mut shelf, out, err);
    Ok(status)
}

/// Calls the program, and gives its status, and what stands on out and err.
pub fn call(
    alloc: Global,
    words: &[&str],
    set: &Set,
) -> Result<(Status, MemorySink, MemorySink), AllocError> {
    let (mut out, mut err) = sinks_of(alloc, set)?;
    let status = status_of(alloc, words, set, &mut out, &mut err)?;
    Ok((status, out, err))
}

/// Calls the program over this out, and gives its status.
pub fn call_on<K: Sink>(
    alloc: Global,
    words: &[&str],
    set: &Set,
    out: &mut K,
) -> Result<Status, AllocError> {
    let mut err = sink_of(alloc, 4096, set.err_fails)?;
    status_of(alloc, words, set, out, &mut err)
}

/// Fails where a text is another than is wanted, and prints it.
fn same(stream: &str, text: &[u8], want: &str) -> Result<(), Fail> {
    if text == want.as_bytes() {
        return Ok(());
    }
    let text = std::str::from_utf8(text).unwrap_or("no text");
    Err(Fail::new(format_args!("on {stream} stands {text:?}, and not {want:?}")))
}

/// Fails where a status, or what stands on out and err, is another than is wanted of a call of these words.
fn compare(
    words: &[&str],
    status: Status,
    out: &[u8],
    err: &[u8],
    want: (Status, &str, &str),
) -> Result<(), Fail> {
    if status != want.0 {
        return Err(Fail::new(format_args!(
            "the status of {words:?} is {status:?}, and not {:?}",
            want.0
        )));
    }
    same("out", out, want.1)?;
    same("err", err, want.2)
}

/// Calls the program, and fails where its status, or what stands on out and err, is another than is wanted.
pub fn expect(
    alloc: Global,
    words: &[&str],
    set: &Set,
    want: (Status, &str, &str),
) -> Result<(), Fail> {
    let (status, out, err) = call(alloc, words, set)?;
    compare(words, status, out.bytes(), err.bytes(), want)
}

/// The text on out of a call that is done. Fails where it isn't, or err has anything.
fn text_in(
    alloc: Global,
    words: &[&str],
    status: Status,
    out: &[u8],
    err: &[u8],
) -> Result<String, Fail> {
    compare(words, status, b"", err, (Status::Done, "", ""))?;
    let text = std::str::from_utf8(out)?;
    Ok(String::from_str(alloc, text)?)
}

/// Calls the program, and gives the text on out. Fails where the call isn't done, or err has anything.
pub fn text_of(alloc: Global, words: &[&str], set: &Set) -> Result<String, Fail> {
    let (status, out, err) = call(alloc, words, set)?;
    text_in(alloc, words, status, out.bytes(), err.bytes())
}

/// A text with other words instead of some that stand in it.
pub fn with(alloc: Global, text: &str, old: &str, new: &str) -> Result<String, Fail> {
    let (before, after) = text.split_once(old).ok_or("nothing to change")?;
    Ok(format!(in alloc; "{before}{new}{after}")?)
}
