//! Comparisons of two basins, beside the texts of both runs.
use crate::basins::{ORDINARY, ORDINARY_SERIES};
use basin_cli::Status;
use std::alloc::{AllocError, Global};
use std::test::Fail;
use test_support::{Set, expect, files, text_of, with};

const WORDS: [&str; 4] = ["compare", "BASIN", "BASIN2", "SERIES"];

/// Changes of the ordinary basin: what stands in it, and what replaces that.
static CHANGES: [(&str, &str); 14] = [
    // A junior diversion before the others of its kind, between them and after them.
    (
        "[[diversion]]\nname = \"canalco\"",
        "[[diversion]]\nname = \"new\"\nnode = \"weir\"\ndate = \"1999-01-01\"\nwant = 900\n\
         \n\
         [[diversion]]\nname = \"canalco\"",
    ),
    (
        "[[diversion]]\nname = \"city\"",
        "[[diversion]]\nname = \"new\"\nnode = \"upper\"\ndate = \"1999-01-01\"\nwant = 900\n\
         \n\
         [[diversion]]\nname = \"city\"",
    ),
    (
        "[[instream]]",
        "[[diversion]]\nname = \"new\"\nnode = \"farm\"\ndate = \"1999-01-01\"\nwant = 900\n\n[[instream]]",
    ),
    // A junior instream right before the trout and after them, and a junior zone.
    (
        "[[instream]]",
        "[[instream]]\nname = \"new\"\nlink = \"r2\"\ndate = \"1999-01-01\"\nwant = 9000\n\n[[instream]]",
    ),
    (
        "[[zone]]",
        "[[instream]]\nname = \"new\"\nlink = \"c1\"\ndate = \"1999-01-01\"\nwant = 9000\n\n[[zone]]",
    ),
    (
        "[[return]]",
        "[[zone]]\nname = \"new\"\nreservoir = \"lake\"\nlevel = 3\ndate = \"1999-01-01\"\nwant = 5000\n\n[[return]]",
    ),
    // A senior diversion at the head.
    (
        "[[instream]]",
        "[[diversion]]\nname = \"new\"\nnode = \"upper\"\ndate = \"1899-01-01\"\nwant = 2400\n\n[[instream]]",
    ),
    // The canal company moves upstream, and the city downstream.
    (
        "name = \"canalco\"\nnode = \"farm\"",
        "name = \"canalco\"\nnode = \"upper\"",
    ),
    (
        "name = \"city\"\nnode = \"weir\"",
        "name = \"city\"\nnode = \"gauge\"",
    ),
    // The canal is lined, so that less comes back; the returns come later; the canal is closed.
    ("part = 2500", "part = 300"),
    ("lag = 1", "lag = 2"),
    ("per_day = 100", "per_day = 0"),
    // The city's right is older than the lake's live zone.
    ("1930-01-01", "1921-01-01"),
    // The lake is deeper, and less of it evaporates.
    ("[10000, 500]", "[10000, 100]"),
];

/// The right and the amount of a line of a delivery.
fn delivery_in(line: &str) -> Option<(&str, u64)> {
    let (right, amounts) = line.strip_prefix("deliver ")?.split_once(" ")?;
    let (amount, _) = amounts.split_once(" ")?;
    let amount = amount.parse::<u64>().ok()?;
    Some((right, amount))
}

/// What a right is delivered in a month, by the text of a run.
fn delivered(text: &str, month: &str, right: &str) -> Option<u64> {
    let mut here = false;
    for line in text.lines() {
        if let Some(named) = line.strip_prefix("month ") {
            here = named == month;
        }
        if let Some((named, amount)) = delivery_in(line) {
            if here && named == right {
                return Some(amount);
            }
        }
    }
    None
}

/// What is counted of two runs.
#[derive(Drop)]
struct Counts {
    months: u64,
    pairs: u64,
    injured: u64,
}

/// Counts a delivery of the first run and what the right is delivered in the second, and adds the line of its injury.
fn compare_delivery(
    month: &str,
    right: &str,
    amounts: (u64, u64),
    counts: &mut Counts,
    lines: &mut String,
) -> Result<(), AllocError> {
    counts.pairs = counts.pairs.saturating_add(1);
    let (amount, other) = amounts;
    if amount <= other {
        return Ok(());
    }
    counts.injured = counts.injured.saturating_add(1);
    write!(lines, "injured {month} {right} {amount} {other}\n")
}

/// Compares two runs line by line from their texts: the second's amount is looked up for each delivery of the first.
fn compare_lines(
    first: &str,
    second: &str,
    counts: &mut Counts,
    lines: &mut String,
) -> Result<(), AllocError> {
    let mut month = "";
    for line in first.lines() {
        if let Some(named) = line.strip_prefix("month ") {
            month = named;
            counts.months = counts.months.saturating_add(1);
        }
        if let Some((right, amount)) = delivery_in(line) {
            if let Some(other) = delivered(second, month, right) {
                compare_delivery(month, right, (amount, other), counts, lines)?;
            }
        }
    }
    Ok(())
}

/// Adds the last line of the comparison.
fn add_total(counts: &Counts, lines: &mut String) -> Result<(), Fail> {
    let common = counts.pairs.checked_div(counts.months).ok_or("no month")?;
    Ok(write!(lines, "compared {common} {}\n", counts.injured)?)
}

/// Adds the comparison of two runs, and answers whether somebody is injured.
fn add_comparison(first: &str, second: &str, lines: &mut String) -> Result<bool, Fail> {
    let mut counts = Counts {
        months: 0,
        pairs: 0,
        injured: 0,
    };
    compare_lines(first, second, &mut counts, lines)?;
    add_total(&counts, lines)?;
    Ok(0 < counts.injured)
}

/// Compares the ordinary basin with a changed one, and fails where the list is another than that of the texts of both
/// runs.
fn expect_list(alloc: Global, first: &str, changed: &str, second: &str) -> Result<(), Fail> {
    let mut want = String::new(alloc);
    let injured = add_comparison(first, second, &mut want)?;
    let status = if injured { Status::No } else { Status::Done };
    let set = Set {
        second: changed.as_bytes(),
        ..files(ORDINARY, ORDINARY_SERIES)
    };
    expect(alloc, &WORDS, &set, (status, want.as_str(), ""))
}

/// The text of a run with the ordinary series.
fn text_of_run(alloc: Global, basin: &str) -> Result<String, Fail> {
    text_of(
        alloc,
        &["run", "BASIN", "SERIES"],
        &files(basin, ORDINARY_SERIES),
    )
}

/// Runs a changed basin, and compares with it.
fn expect_change(alloc: Global, first: &str, old: &str, new: &str) -> Result<(), Fail> {
    let changed = with(alloc, ORDINARY, old, new)?;
    let second = text_of_run(alloc, changed.as_str())?;
    expect_list(alloc, first, changed.as_str(), second.as_str())
}

/// Compares with each changed basin.
fn expect_changes(alloc: Global, first: &str) -> Result<(), Fail> {
    for (old, new) in &CHANGES {
        expect_change(alloc, first, old, new)?;
    }
    Ok(())
}

/// Each change's list of injuries is that of the texts of both runs.
#[test]
fn lists_what_both_runs_say(rt: HostRuntime) -> Result<(), Fail> {
    let first = text_of_run(rt.alloc(), ORDINARY)?;
    expect_changes(rt.alloc(), first.as_str())
}
