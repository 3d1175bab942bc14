//! Who must stand back, beside who is called.
use std::alloc::Global;
use std::test::Fail;
use test_support::{files, text_of};

/// The old right has its water from the spring, and the new one what the creek brings below it. Of a unit at the spring
/// the young right has to stand back; at the ford it is the new one's.
const FORK: &str = r#"format = 1
first_month = "1900-01"
months = 1
node = [
  { name = "spring", inflow = 10 },
  { name = "weir" },
  { name = "creek", inflow = 5 },
  { name = "ford" },
  { name = "mouth", outlet = true },
]
link = [
  { name = "a", from = "spring", to = "weir" },
  { name = "b", from = "weir", to = "ford" },
  { name = "c", from = "creek", to = "ford" },
  { name = "d", from = "ford", to = "mouth" },
]
diversion = [
  { name = "young", node = "spring", date = "1950-01-01", want = 3 },
  { name = "new", node = "ford", date = "1920-01-01", want = 20 },
  { name = "old", node = "weir", date = "1890-01-01", want = 20 },
]
"#;

/// Three instream rights, one below the other, and a mill between them.
const CHAIN: &str = r#"format = 1
first_month = "1900-01"
months = 1
node = [
  { name = "top", inflow = 20 },
  { name = "ford", inflow = 10 },
  { name = "gorge" },
  { name = "mouth", outlet = true },
]
link = [
  { name = "a", from = "top", to = "ford" },
  { name = "b", from = "ford", to = "gorge" },
  { name = "c", from = "gorge", to = "mouth" },
]
diversion = [{ name = "mill", node = "ford", date = "1950-01-01", want = 5 }]
instream = [
  { name = "trout", link = "a", date = "1880-01-01", want = 30 },
  { name = "salmon", link = "b", date = "1890-01-01", want = 40 },
  { name = "boats", link = "c", date = "1900-01-01", want = 35 },
]
"#;

/// A lake that loses 12 and then 4 to the sun. In February its dead pool is short, and what came in the town would be
/// the city's, although it answers to the pool's call.
const LAKE: &str = r#"format = 1
first_month = "1900-01"
months = 2
node = [{ name = "lake" }, { name = "town", outlet = true }]
link = [{ name = "ab", from = "lake", to = "town" }]
reservoir = [{ node = "lake", opening = 60, area = [[0, 0], [100, 50]], rate = 40 }]
diversion = [{ name = "city", node = "town", date = "1900-01-01", want = 50 }]
zone = [
  { name = "dead", reservoir = "lake", level = 1, date = "1850-01-01", want = 20 },
  { name = "high", reservoir = "lake", level = 2, date = "1930-01-01", want = 100 },
]
"#;

/// Two rights at one node without water.
const DESERT: &str = r#"format = 1
first_month = "1900-01"
months = 1
node = [{ name = "top" }, { name = "mouth", outlet = true }]
link = [{ name = "a", from = "top", to = "mouth" }]
diversion = [
  { name = "new", node = "top", date = "1920-01-01", want = 5 },
  { name = "old", node = "top", date = "1890-01-01", want = 5 },
]
"#;

/// The lines of a month of a text, from after its first line to before its `end`.
fn month_of<'a>(text: &'a str, month: &str) -> Result<&'a str, Fail> {
    let (_before, from) = text.split_once(month).ok_or("no such month")?;
    let (lines, _after) = from.split_once("\nend\n").ok_or("no end")?;
    Ok(lines)
}

/// Fails where a right has no `called` line among those of a result.
fn expect_called(alloc: Global, right: &str, written: &str) -> Result<(), Fail> {
    let called = format!(in alloc; "\ncalled {right} ")?;
    if written.contains(called.as_str()) {
        return Ok(());
    }
    Err(Fail::new(format_args!("{right} is curtailed and not called")))
}

/// Fails where a right that the list of a month's calls says is curtailed has no `called` line in the month's result.
fn expect_all_called(alloc: Global, month: &str, list: &str, text: &str) -> Result<(), Fail> {
    let written = month_of(text, month)?;
    for line in month_of(list, month)?.lines() {
        if let Some(names) = line.strip_prefix("curtailed ") {
            let (right, _senior) = names.split_once(" ").ok_or("one name")?;
            expect_called(alloc, right, written)?;
        }
    }
    Ok(())
}

/// Lists the calls of a basin without gauges and runs it, and fails where somebody is curtailed in a month and not
/// called.
fn expect_calls(alloc: Global, basin: &str, month: &str) -> Result<(), Fail> {
    let set = files(basin, "");
    let list = text_of(alloc, &["calls", "BASIN", "-"], &set)?;
    let result = text_of(alloc, &["run", "BASIN", "-"], &set)?;
    expect_all_called(alloc, month, list.as_str(), result.as_str())
}

/// Basins and months in which rights are curtailed.
const CURTAILED: [(&str, &str); 5] = [
    (FORK, "month 1900-01"),
    (CHAIN, "month 1900-01"),
    (LAKE, "month 1900-01"),
    (LAKE, "month 1900-02"),
    (DESERT, "month 1900-01"),
];

/// Whoever is curtailed has a `called` line of the same month.
#[test]
fn curtails_only_who_is_called(rt: HostRuntime) -> Result<(), Fail> {
    for (basin, month) in CURTAILED {
        expect_calls(rt.alloc(), basin, month)?;
    }
    Ok(())
}
