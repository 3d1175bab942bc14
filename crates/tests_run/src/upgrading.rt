//! Basin files in format 2, written by `upgrade`. What they spell shows in what runs of them write.
use crate::basins::{JUNIOR_SHORT, LAKE, ORDINARY, ORDINARY_SERIES, ORDINARY_TEXT};
use basin_cli::Status;
use std::alloc::Global;
use std::process::Abort;
use std::test::Fail;
use test_support::{expect, files, text_of};

/// What `upgrade` writes of a basin.
fn upgraded(alloc: Global, basin: &str) -> Result<String, Fail> {
    text_of(alloc, &["upgrade", "BASIN"], &files(basin, ""))
}

/// Fails where a run of a basin writes another text.
fn expect_text(alloc: Global, basin: &str, series: &str, text: &str) -> Result<(), Fail> {
    let want = (Status::Done, text, "");
    expect(
        alloc,
        &["run", "BASIN", "SERIES"],
        &files(basin, series),
        want,
    )
}

/// Compares what a run of an upgraded basin writes.
fn expect_upgraded(alloc: Global, basin: &str, series: &str, text: &str) -> Result<(), Fail> {
    let twice = upgraded(alloc, basin)?;
    expect_text(alloc, twice.as_str(), series, text)
}

/// Compares what runs of a basin and of an upgraded basin write, and that of the basin upgraded once more.
fn expect_runs(alloc: Global, basins: (&str, &str), series: &str, text: &str) -> Result<(), Fail> {
    let (basin, once) = basins;
    expect_text(alloc, basin, series, text)?;
    expect_text(alloc, once, series, text)?;
    expect_upgraded(alloc, once, series, text)
}

/// Compares what a run of an upgraded basin writes, and that of the basin upgraded once more.
fn expect_run(alloc: Global, basin: &str, series: &str, text: &str) -> Result<(), Fail> {
    let once = upgraded(alloc, basin)?;
    expect_runs(alloc, (basin, once.as_str()), series, text)
}

const NO_SERIES: &str = "month,node,amount\n";

#[test]
fn runs_as_before(rt: HostRuntime) -> Result<(), Fail> {
    expect_run(rt.alloc(), JUNIOR_SHORT.0, NO_SERIES, JUNIOR_SHORT.1)?;
    expect_run(rt.alloc(), LAKE.0, NO_SERIES, LAKE.1)?;
    expect_run(rt.alloc(), ORDINARY, ORDINARY_SERIES, ORDINARY_TEXT)
}

/// A basin with every key of both formats: water years from March, a volume, a canal that is shut in January and March,
/// orders in the series, rights of one date with an order, and two return rows.
const EVERY_KEY: &str = r#"format = 2
first_month = "1900-01"
months = 3
year_start = 3

[[node]]
name = "lake"
inflow = "gauged"

[[node]]
name = "weir"
outlet = false
inflow = [1, 2, 3, 4, 5, 6, 7, 8, 9, 10, 11, 12]

[[node]]
name = "field"

[[node]]
name = "sea"
outlet = true

[[link]]
name = "upper"
from = "lake"
to = "weir"

[[link]]
name = "lower"
from = "weir"
to = "sea"

[[link]]
name = "drain"
from = "field"
to = "sea"

[[link]]
name = "canal"
from = "weir"
to = "field"
per_day = 1
closed = [3, 1, 3]

[[reservoir]]
node = "lake"
opening = 50
area = [[0, 0], [100, 100]]
rate = [1, 2, 3, 0, 0, 0, 0, 0, 0, 0, 0, 4]

[[diversion]]
name = "farm"
node = "field"
date = "1890-06-15"
want = "series"
volume = 30
order = 2

[[diversion]]
name = "mill"
node = "weir"
date = "0098-01-02"
want = 4

[[instream]]
name = "trout"
link = "lower"
date = "1890-06-15"
order = 1
want = "series"

[[zone]]
name = "dead"
reservoir = "lake"
level = 1
date = "1880-01-01"
want = 10

[[zone]]
name = "live"
reservoir = "lake"
level = 2
date = "1895-01-01"
want = 100

[[return]]
diversion = "mill"
node = "field"
part = 5000
lag = 1

[[return]]
diversion = "farm"
node = "sea"
part = 1000
lag = 2
"#;

const EVERY_SERIES: &str = "\
    month,kind,name,amount\n\
    1900-01,inflow,lake,20\n\
    1900-02,inflow,lake,30\n\
    1900-03,inflow,lake,5\n\
    1900-01,want,farm,10\n\
    1900-02,want,farm,40\n\
    1900-03,want,farm,9\n\
    1900-01,want,trout,6\n\
    1900-02,want,trout,0\n\
    1900-03,want,trout,7\n";

/// What is looked for in the upgraded file.
const KEYS: [&str; 9] = [
    "format = 2\n",
    "year_start = 3\n",
    "closed = [1, 3]\n",
    "volume = 30\n",
    "want = \"series\"\n",
    "inflow = \"gauged\"\n",
    "date = \"0098-01-02\"\n",
    "rate = [1, 2, 3, 0, 0, 0, 0, 0, 0, 0, 0, 4]\n",
    "area = [[0, 0], [100, 100]]\n",
];

/// Stops where a key is missing in an upgraded file.
fn expect_keys<R: Abort>(rt: &R, file: &str) {
    for key in KEYS {
        assert!(rt; file.contains(key), "{key} in {file}");
    }
}

/// Each key and its value come through: a run of what is written writes what a run of the file does.
#[test]
fn keeps_every_key(rt: HostRuntime) -> Result<(), Fail> {
    let set = files(EVERY_KEY, EVERY_SERIES);
    let text = text_of(rt.alloc(), &["run", "BASIN", "SERIES"], &set)?;
    expect_run(rt.alloc(), EVERY_KEY, EVERY_SERIES, text.as_str())?;
    let once = upgraded(rt.alloc(), EVERY_KEY)?;
    expect_keys(&rt, once.as_str());
    Ok(())
}
