//! Scripts of changes to a series. What they show is compared with runs of the changed series.
use crate::basins::ORDINARY;
use basin_cli::Status;
use std::alloc::{AllocError, Global};
use std::io;
use std::io::Write;
use std::process::Abort;
use std::test::Fail;
use test_support::{Set, call_on, files, text_of, with};
use water_edge::StdSink;

/// What a line of a script does in the month of this index: it shows it, or makes this the amount of its gauge.
type Step = (usize, Option<u64>);

const START: [u64; 6] = [2500, 1200, 900, 700, 2100, 3000];

/// Changes before, at and after months that are kept; two of one number; a month that is shown again; and no month
/// shown.
const SCRIPTS: [&[Step]; 9] = [
    &[],
    &[(2, Some(0))],
    &[(5, None)],
    &[(3, None), (3, None), (0, None), (5, None)],
    &[(3, None), (0, Some(0)), (3, None)],
    &[(3, None), (3, Some(0)), (3, None), (2, None)],
    &[(3, None), (4, Some(0)), (3, None), (5, None)],
    &[(1, Some(5000)), (1, Some(10)), (1, None), (2, None)],
    &[
        (5, None),
        (2, Some(4000)),
        (4, Some(0)),
        (1, None),
        (5, None),
        (0, Some(9)),
        (4, None),
    ],
];

/// What stands before the digits of the month of an index, and its number.
fn month_at(index: usize) -> (&'static str, usize) {
    let month = index.saturating_add(7);
    (if month < 10 { "1960-0" } else { "1960-" }, month)
}

/// The amounts as a series.
fn add_series(amounts: &[u64], text: &mut String) -> Result<(), AllocError> {
    text.push_str("month,node,amount\n")?;
    for (index, amount) in amounts.iter().enumerate() {
        let (year, month) = month_at(index);
        write!(text, "{year}{month},upper,{amount}\n")?;
    }
    Ok(())
}

/// The script of some steps.
fn add_script(steps: &[Step], text: &mut String) -> Result<(), AllocError> {
    text.push_str("river-edit 1\n")?;
    for (index, amount) in steps {
        let (year, month) = month_at(*index);
        match amount {
            Some(amount) => write!(text, "inflow {year}{month} upper {amount}\n")?,
            None => write!(text, "show {year}{month}\n")?,
        }
    }
    text.push_str("done\n")
}

/// Adds the lines of a text from that of a month to its end, or all of them where no month is asked for, but for flows
/// and outflows.
fn add_lines(into: &mut String, text: &str, month: Option<&str>) -> Result<(), Fail> {
    let mut here = month.is_none();
    for line in text.lines() {
        if let (Some(named), Some(month)) = (line.strip_prefix("month "), month) {
            here = named == month;
        }
        let free = line.starts_with("flow ")
            || line.starts_with("out ")
            || line.starts_with("done ");
        if here && !free {
            into.push_str(line)?;
            into.push_str("\n")?;
        }
    }
    Ok(())
}

/// The text of a run of these amounts.
fn text_of_run(alloc: Global, basin: &str, amounts: &[u64]) -> Result<String, Fail> {
    let mut series = String::new(alloc);
    add_series(amounts, &mut series)?;
    text_of(
        alloc,
        &["run", "BASIN", "SERIES"],
        &files(basin, series.as_str()),
    )
}

const WORDS: [&str; 4] = ["edit", "BASIN", "SERIES", "SCRIPT"];

/// The text of what a script shows.
fn text_of_edit(alloc: Global, basin: &str, steps: &[Step]) -> Result<String, Fail> {
    let mut series = String::new(alloc);
    add_series(&START, &mut series)?;
    let mut script = String::new(alloc);
    add_script(steps, &mut script)?;
    let set = Set {
        script: script.as_bytes(),
        ..files(basin, series.as_str())
    };
    text_of(alloc, &WORDS, &set)
}

/// Adds what a fresh run of these amounts says from the month of this index on.
fn add_run(
    alloc: Global,
    basin: &str,
    amounts: &[u64],
    index: usize,
    lines: &mut String,
) -> Result<(), Fail> {
    let text = text_of_run(alloc, basin, amounts)?;
    let (year, month) = month_at(index);
    let month = format!(in alloc; "{year}{month}")?;
    add_lines(lines, text.as_str(), Some(month.as_str()))
}

/// Adds what fresh runs say that the steps show.
fn add_runs(
    alloc: Global,
    basin: &str,
    steps: &[Step],
    amounts: &mut [u64],
    lines: &mut String,
) -> Result<(), Fail> {
    for (index, amount) in steps {
        match amount {
            Some(amount) => {
                let place = amounts.get_mut(*index).ok_or("no such month")?;
                *place = *amount;
            }
            None => add_run(alloc, basin, amounts, *index, lines)?,
        }
    }
    Ok(())
}

/// Fails where the months that a text shows are others than those of fresh runs, but for flows and outflows.
fn expect_shown<R: Abort + AllocGlobal>(
    rt: &R,
    basin: &str,
    steps: &[Step],
    text: &str,
) -> Result<(), Fail> {
    let mut shown = String::new(rt.alloc());
    add_lines(&mut shown, text, None)?;
    let mut want = String::new(rt.alloc());
    let mut amounts = START;
    add_runs(rt.alloc(), basin, steps, &mut amounts, &mut want)?;
    assert_eq!(rt; shown.as_str(), want.as_str());
    Ok(())
}

/// Fails where the last line of a text has another number than that of the months that the steps show.
fn expect_done<R: Abort + AllocGlobal>(rt: &R, steps: &[Step], text: &str) -> Result<(), Fail> {
    let shows = steps.iter().filter(|step| step.1.is_none()).count();
    let done = format!(in rt.alloc(); "done {shows}\n")?;
    assert!(rt; text.ends_with(done.as_str()));
    Ok(())
}

/// The months that the steps show are those of fresh runs, but for flows and outflows.
fn expect_runs<R: Abort + AllocGlobal>(rt: &R, basin: &str, steps: &[Step]) -> Result<(), Fail> {
    let text = text_of_edit(rt.alloc(), basin, steps)?;
    expect_shown(rt, basin, steps, text.as_str())?;
    expect_done(rt, steps, text.as_str())
}

/// The ordinary basin over six months.
fn basin_of(alloc: Global) -> Result<String, Fail> {
    with(alloc, ORDINARY, "months = 2", "months = 6")
}

/// Each script shows the months of fresh runs.
fn expect_scripts<R: Abort + AllocGlobal>(rt: &R, basin: &str) -> Result<(), Fail> {
    for steps in SCRIPTS {
        expect_runs(rt, basin, steps)?;
    }
    Ok(())
}

/// The lake carries over from month to month, and a quarter of the farm's water comes back a month later.
#[test]
fn agrees_with_runs_of_the_changed_series(rt: HostRuntime) -> Result<(), Fail> {
    let basin = basin_of(rt.alloc())?;
    expect_scripts(&rt, basin.as_str())
}

/// A thousand steps, of which every seventh shows a month.
fn thousand_steps(alloc: Global) -> Result<Vec<Step>, AllocError> {
    let mut steps = Vec::new(alloc);
    for line in 0..1000u64 {
        let amount = if line % 7 == 0 {
            None
        } else {
            Some(line * 37 % 4000)
        };
        steps.push(((line % 6) as usize, amount))?;
    }
    Ok(steps)
}

/// Every seventh of a thousand lines shows a month.
#[test]
fn answers_a_thousand_lines(rt: HostRuntime) -> Result<(), Fail> {
    let basin = basin_of(rt.alloc())?;
    let steps = thousand_steps(rt.alloc())?;
    expect_runs(&rt, basin.as_str(), steps.as_slice())
}

/// A writer that takes so many pieces more, whole, and the bytes that it took.
#[derive(Drop)]
struct TakesPieces {
    bytes: Vec<u8>,
    left: usize,
}

impl Write for TakesPieces {
    fn write(&mut self, piece: &[u8]) -> io::Result<usize> {
        if self.left == 0 {
            return Ok(0);
        }
        self.left -= 1;
        self.bytes.write(piece)
    }

    fn flush(&mut self) -> io::Result<()> {
        Ok(())
    }
}

/// The text of the first `count` months that a text shows, which end with the line `end`, and all of it where it shows
/// fewer.
fn first_months(alloc: Global, text: &str, count: usize) -> Result<String, AllocError> {
    let mut first = String::new(alloc);
    for part in text.split_inclusive("end\n").take(count) {
        first.push_str(part)?;
    }
    Ok(first)
}

/// What a script's answer leaves in a writer that takes so many pieces, and the status of the call.
fn left_in(
    alloc: Global,
    basin: &str,
    steps: &[Step],
    pieces: usize,
) -> Result<(Status, Vec<u8>), Fail> {
    let mut series = String::new(alloc);
    add_series(&START, &mut series)?;
    let mut script = String::new(alloc);
    add_script(steps, &mut script)?;
    let set = Set {
        script: script.as_bytes(),
        ..files(basin, series.as_str())
    };
    let mut writer = TakesPieces {
        bytes: Vec::new(alloc),
        left: pieces,
    };
    let mut out = StdSink::new(&mut writer);
    let status = call_on(alloc, &WORDS, &set, &mut out)?;
    drop(out);
    Ok((status, writer.bytes))
}

/// Each month that is shown is handed on by itself, and the last line too. Where the writer takes no more, the months
/// before stand, and the call fails.
#[test]
fn hands_on_month_by_month(rt: HostRuntime) -> Result<(), Fail> {
    let alloc = rt.alloc();
    let basin = basin_of(alloc)?;
    let steps = &[(3, None), (0, Some(0)), (3, None), (5, None)];
    let text = text_of_edit(alloc, basin.as_str(), steps)?;
    for pieces in 0..6 {
        let (status, bytes) = left_in(alloc, basin.as_str(), steps, pieces)?;
        let want = first_months(alloc, text.as_str(), pieces)?;
        assert_eq!(&rt; std::str::from_utf8(&bytes)?, want.as_str());
        let done = pieces >= 4;
        assert_eq!(&rt; status == Status::Done, done);
        assert_eq!(&rt; status == Status::WriteFault, !done);
    }
    Ok(())
}
