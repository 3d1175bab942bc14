//! Tries a case, and tells where it ends otherwise than it says.

use crate::case::{Case, Compared};
use crate::fault::Fault;
use crate::marked::find;
use basin_cli::Status;
use std::alloc::{AllocError, Global};
use test_support::{Set, call};

/// What one call is given beside its words and files, and what is wanted of it.
#[derive(Drop)]
struct Trial<'a> {
    part: usize,
    out_fails: u64,
    status: Status,
    out: &'a [u8],
    err: &'a [u8],
}

/// The files of a case, with the calls that fail.
fn set_of<'a>(case: &'a Case, trial: &Trial) -> Set<'a> {
    Set {
        basin: case.basin.as_slice(),
        second: case.second.as_slice(),
        series: case.series.as_slice(),
        result: case.result.as_slice(),
        script: case.script.as_slice(),
        part: trial.part,
        shelf_fails: case.shelf_fails,
        out_fails: trial.out_fails,
        err_fails: case.err_fails,
    }
}

/// The lines of a text that begin with a word.
fn picked(alloc: Global, text: &[u8], word: &str) -> Result<Vec<u8>, Fault> {
    let mut lines = Vec::new(alloc);
    for line in text.split_inclusive(|byte| *byte == 10) {
        if line.starts_with(word.as_bytes()) {
            lines.extend_from_slice(line)?;
        }
    }
    Ok(lines)
}

/// Tells of a line that differs from the one that is wanted, or stands after the end of what is wanted.
fn difference_in_line(
    alloc: Global,
    stream: &str,
    number: u64,
    line: &[u8],
    want: Option<&[u8]>,
) -> Result<String, AllocError> {
    let line = std::str::from_utf8(line).unwrap_or("no text");
    match want {
        Some(other) => {
            let other = std::str::from_utf8(other).unwrap_or("no text");
            format!(in alloc; "line {number} on {stream} is {line:?}, and not {other:?}")
        }
        None => format!(in alloc;
            "line {number} on {stream} is {line:?}, after the end of what is wanted"
        ),
    }
}

/// Tells the first line in which two texts differ. None where they are the same.
fn first_difference(
    alloc: Global,
    stream: &str,
    text: &[u8],
    want: &[u8],
) -> Result<Option<String>, Fault> {
    if text == want {
        return Ok(None);
    }
    let mut wanted = want.split(|byte| *byte == 10);
    let mut number = 0u64;
    for line in text.split(|byte| *byte == 10) {
        number = number.saturating_add(1);
        let other = wanted.next();
        if other == Some(line) {
            continue;
        }
        let told = difference_in_line(alloc, stream, number, line, other)?;
        return Ok(Some(told));
    }
    let told = format!(in alloc; "on {stream} the lines after line {number} are missing")?;
    Ok(Some(told))
}

/// Compares what stands on out with what is wanted.
fn difference_on_out(
    alloc: Global,
    case: &Case,
    out: &[u8],
    want: &[u8],
) -> Result<Option<String>, Fault> {
    match case.compared {
        Compared::Whole => first_difference(alloc, "out", out, want),
        Compared::Picked => {
            let lines = picked(alloc, out, case.picked.as_str())?;
            first_difference(alloc, "out", lines.as_slice(), want)
        }
        Compared::Held => {
            if want.is_empty() || find(out, want).is_some() {
                return Ok(None);
            }
            let told = "out doesn't hold the lines that are wanted";
            Ok(Some(String::from_str(alloc, told)?))
        }
    }
}

/// Tells in what a call ended otherwise.
fn difference_after(
    alloc: Global,
    case: &Case,
    trial: &Trial,
    status: Status,
    out: &[u8],
    err: &[u8],
) -> Result<Option<String>, Fault> {
    if status != trial.status {
        let told = format!(in alloc; "the status is {status:?}, and not {:?}", trial.status)?;
        return Ok(Some(told));
    }
    match difference_on_out(alloc, case, out, trial.out)? {
        Some(told) => Ok(Some(told)),
        None => first_difference(alloc, "err", err, trial.err),
    }
}

/// The words of a case.
fn words_of<'a>(alloc: Global, case: &'a Case) -> Result<Vec<&'a str>, AllocError> {
    let mut words = Vec::new(alloc);
    for word in &case.words {
        words.push(word.as_str())?;
    }
    Ok(words)
}

/// Calls the program once with these words, and tells in what it ends otherwise.
fn difference_of(
    alloc: Global,
    words: &[&str],
    case: &Case,
    trial: &Trial,
) -> Result<Option<String>, Fault> {
    let (status, out, err) = call(alloc, words, &set_of(case, trial))?;
    let difference = difference_after(alloc, case, trial, status, out.bytes(), err.bytes());
    drop(out);
    drop(err);
    difference
}

/// Calls the program once, and tells in what it ends otherwise.
fn difference_at(alloc: Global, case: &Case, trial: &Trial) -> Result<Option<String>, Fault> {
    let words = words_of(alloc, case)?;
    difference_of(alloc, words.as_slice(), case, trial)
}

/// Calls the program with the put of each line of out failing, from the first to the last.
fn difference_at_puts(alloc: Global, case: &Case, part: usize) -> Result<Option<String>, Fault> {
    let mut put = 0u64;
    let mut before = 0usize;
    for line in case.out.as_slice().split_inclusive(|byte| *byte == 10) {
        let trial = Trial {
            part,
            out_fails: put,
            status: Status::WriteFault,
            out: case.out.as_slice().get(..before).unwrap_or(b""),
            err: b"write: failed\n",
        };
        if let Some(told) = difference_at(alloc, case, &trial)? {
            let told = format!(in alloc; "with put {put} failing {told}")?;
            return Ok(Some(told));
        }
        put = put.saturating_add(1);
        before = before.saturating_add(line.len());
    }
    difference_as_told(alloc, case, part, put)
}

/// Calls the program with parts of this many bytes at most and this put of out failing, and compares with what the case
/// says.
fn difference_as_told(
    alloc: Global,
    case: &Case,
    part: usize,
    out_fails: u64,
) -> Result<Option<String>, Fault> {
    let trial = Trial {
        part,
        out_fails,
        status: case.status,
        out: case.out.as_slice(),
        err: case.err.as_slice(),
    };
    difference_at(alloc, case, &trial)
}

/// Calls the program with parts of this many bytes at most.
fn difference_in_parts(alloc: Global, case: &Case, part: usize) -> Result<Option<String>, Fault> {
    if case.each_put_fails {
        difference_at_puts(alloc, case, part)
    } else {
        difference_as_told(alloc, case, part, case.out_fails)
    }
}

/// Tells in what a case ends otherwise than it says. None where it ends so.
pub fn difference(alloc: Global, case: &Case) -> Result<Option<String>, Fault> {
    if case.parts.is_empty() {
        return difference_in_parts(alloc, case, usize::MAX);
    }
    for part in &case.parts {
        if let Some(told) = difference_in_parts(alloc, case, *part)? {
            let told = format!(in alloc; "in parts of {part} bytes {told}")?;
            return Ok(Some(told));
        }
    }
    Ok(None)
}
