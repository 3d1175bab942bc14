//! Runs the cases of the files in data/ over the program's top call, and tells which of them end otherwise than they
//! say. The files are the words that it is called with. How they are written stands in data/common.
//!
//! A line is printed for each case that differs, and for each file one with how many of its cases passed.
//! The status is 0 where all pass, 1 where a case differs, and 2 where a file can't be read or has a line that is not
//! understood.
#![tactic(auto)]

mod case;
mod fault;
mod marked;
mod reader;
mod trying;

use case::Case;
use fault::Fault;
use reader::Reader;
use std::alloc::Global;
use std::process::ExitCode;
use std::rt::{Env, Files};
use water_edge::{FileShelf, Shelf, ShelfRefused};

/// How many bytes a file of cases may have.
const LIMIT: u64 = 16_000_000;

/// The text of a file.
fn text_of<R: Files>(alloc: Global, rt: &R, name: &str) -> Result<String, Fault> {
    match FileShelf::new(rt).read_whole(alloc, name, LIMIT) {
        Ok(bytes) => String::from_utf8(bytes).map_err(|_| Fault::NoText),
        Err(ShelfRefused::OutOfMemory) => Err(Fault::OutOfMemory),
        Err(_) => Err(Fault::Unread),
    }
}

/// Tries cases, and adds to the report a line for each that differs and one for the file. Answers whether all passed.
fn report_on(
    alloc: Global,
    report: &mut String,
    name: &str,
    cases: &[Case],
) -> Result<bool, Fault> {
    let (mut tried, mut passed) = (0u64, 0u64);
    for case in cases {
        tried = tried.saturating_add(1);
        match trying::difference(alloc, case)? {
            None => passed = passed.saturating_add(1),
            Some(text) => {
                let line = format!(in alloc; "{name}: {}: {text}\n", case.name)?;
                report.push_str(line.as_str())?;
            }
        }
    }
    let line = format!(in alloc; "{name}: {passed} of {tried} cases passed\n")?;
    report.push_str(line.as_str())?;
    Ok(passed == tried)
}

/// Reads a file and tries its cases.
fn try_file<R: Files>(
    alloc: Global,
    rt: &R,
    reader: &mut Reader,
    report: &mut String,
    name: &str,
) -> Result<bool, Fault> {
    let text = text_of(alloc, rt, name)?;
    let cases = reader.read(alloc, text.as_str())?;
    report_on(alloc, report, name, &cases)
}

/// Tries the cases of the files that the words name, and adds to the report. Answers whether all passed, or the file at
/// fault with its fault.
fn try_files<R: Files + Env + AllocGlobal>(
    rt: &R,
    report: &mut String,
) -> Result<bool, (String, Fault)> {
    let alloc = rt.alloc();
    let mut reader = Reader::new(alloc);
    let mut all = true;
    let Ok(names) = std::env::args(rt) else {
        return Err((String::new(alloc), Fault::NoText));
    };
    let mut is_first = true;
    for name in names {
        if is_first {
            is_first = false;
            continue;
        }
        match try_file(alloc, rt, &mut reader, report, name.as_str()) {
            Ok(passed) => all = all && passed,
            Err(fault) => return Err((name, fault)),
        }
    }
    Ok(all)
}

fn main(rt: HostRuntime) -> ExitCode {
    let mut report = String::new(rt.alloc());
    let tried = try_files(&rt, &mut report);
    let printed = print!(rt; "{report}");
    match tried {
        Ok(all) => ExitCode::from(if printed.is_err() {
            2
        } else if all {
            0
        } else {
            1
        }),
        Err((name, fault)) => {
            let _ = eprintln!(rt; "{name}: {fault}");
            ExitCode::from(2)
        }
    }
}
