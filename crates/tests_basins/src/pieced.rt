//! Result texts that are checked in pieces, and whole.
ghost use Rattle.std.specs.Prelude.{[], ◌≡◌, ◌<◌, None};
ghost use Rattle.cert_check.specs.Standing.{CheckerStandsFor};
ghost use Rattle.water_model.specs.Valid.{IsSeriesOf, IsValidBasin};

use crate::basins::basin_of;
use cert_check::{Checker, PieceChecker, Refuted, RefutedKind, check_text};
use inflow_file::{HEADER, series_of_text};
use std::alloc::{AllocError, Global};
use std::process::Abort;
use std::test::Fail;
use water_model::types::{Basin, Series};

/// A spring above an outlet, and a river between them.
const BASIN: &str = r#"
format = 1
first_month = "1900-01"
months = 1
node = [{ name = "top", inflow = 60 }, { name = "sea", outlet = true }]
link = [{ name = "a", from = "top", to = "sea" }]
"#;

const ACCEPTED: &str =
    "river-result 1\nrun 1900-01 1\nmonth 1900-01\nflow a 60\nout sea 60\nend\ndone 1\n";

/// A text that is refuted, the line at fault, and why.
static REFUTED: [(&str, u64, RefutedKind); 8] = [
    (
        "river-result 1\nrun 1900-01 1\nmonth 1900-01\nflow a 60\nout sea 59\nend\ndone 1\n",
        5,
        RefutedKind::Balance,
    ),
    (
        "river-result 1\nrun 1900-01 1\nmonth 1900-01\nflow a 60\nout sea 60\nend\ndone 1",
        7,
        RefutedKind::EarlyEnd,
    ),
    (
        "river-result 1\nrun 1900-01 1\nmonth 1900-01\nflow a 60\nout sea 60\nend\ndone 1\n\n",
        8,
        RefutedKind::AfterEnd,
    ),
    (
        "river-result 1\nrun 1900-01 1\nmonth 1900-01\nflow a 60\nout sea 60\nend\ndone 1\nx",
        8,
        RefutedKind::AfterEnd,
    ),
    (
        "river-result 1\nrun 1900-01 1\n\
         xxxxxxxxxxxxxxxxxxxxxxxxxxxxxxxxxxxxxxxxxxxxxxxxxxxxxxxxxxxxxxxxxxxxxxxxxxxxxxxxxxxxxxxxxxxxxxxxxxxx\
         xxxxxxxxxxxxxxxxxxxxxxxxxxxxxxxxxxxxxxxxxxxxxxxxxxxxxxxxxxxxxxxxxxxxxxxxxxxxxxxxxxxxxxxxxxxxxxxxxxxx\nend\n",
        3,
        RefutedKind::BadLine,
    ),
    (
        "river-result 1\nrun 1900-01 1\n\
         xxxxxxxxxxxxxxxxxxxxxxxxxxxxxxxxxxxxxxxxxxxxxxxxxxxxxxxxxxxxxxxxxxxxxxxxxxxxxxxxxxxxxxxxxxxxxxxxxxxx\
         xxxxxxxxxxxxxxxxxxxxxxxxxxxxxxxxxxxxxxxxxxxxxxxxxxxxxxxxxxxxxxxxxxxxxxxxxxxxxxxxxxxxxxxxxxxxxxxxxxxx",
        3,
        RefutedKind::BadLine,
    ),
    ("\n", 1, RefutedKind::BadLine),
    ("", 1, RefutedKind::EarlyEnd),
];

/// Gives a new checker a text in pieces of at most `length` bytes, and answers what it is.
fn feed_pieces(checker: &mut PieceChecker, text: &str, length: usize) -> Result<u32, Refuted>
    requires new { checker.old.refused ≡ None }
    requires some { 0 < length }
{
    for piece in text.as_bytes().chunks(length) {
        checker.feed(piece)?;
    }
    checker.finish()
}

/// The answer to a text that comes in pieces of at most `length` bytes.
fn answer_in_pieces(
    alloc: Global,
    basin: &Basin,
    series: &Series,
    text: &str,
    length: usize,
) -> Result<Result<u32, Refuted>, AllocError>
    requires basin { IsValidBasin basin.now }
    requires series { IsSeriesOf basin.now series.now }
    requires some { 0 < length }
{
    let mut checker = PieceChecker::open(alloc, basin, series)?;
    let answer = feed_pieces(&mut checker, text, length);
    drop(checker);
    Ok(answer)
}

/// The answer to a text that comes whole.
fn answer_whole(
    alloc: Global,
    basin: &Basin,
    series: &Series,
    text: &str,
) -> Result<Result<u32, Refuted>, AllocError>
    requires basin { IsValidBasin basin.now }
    requires series { IsSeriesOf basin.now series.now }
{
    let mut checker = Checker::open(alloc, basin, series)?;
    let answer = check_text(&mut checker, text.as_bytes());
    drop(checker);
    Ok(answer)
}

/// Gives a text whole and in pieces, and compares the answers.
fn expect_answer<R: Abort>(
    rt: &R,
    alloc: Global,
    basin: &Basin,
    series: &Series,
    text: &str,
    want: Result<u32, Refuted>,
) -> Result<(), AllocError>
    requires basin { IsValidBasin basin.now }
    requires series { IsSeriesOf basin.now series.now }
{
    let whole = answer_whole(alloc, basin, series, text)?;
    assert_eq!(rt; whole, want, "{text}");
    for length in [1, 2, 7, 65_536] {
        let answer = answer_in_pieces(alloc, basin, series, text, length)?;
        assert_eq!(rt; answer, want, "{text} in pieces of {length}");
    }
    Ok(())
}

/// Gives each text whole and in pieces.
fn expect_answers<R: Abort>(
    rt: &R,
    alloc: Global,
    basin: &Basin,
    series: &Series,
) -> Result<(), AllocError>
    requires basin { IsValidBasin basin.now }
    requires series { IsSeriesOf basin.now series.now }
{
    expect_answer(rt, alloc, basin, series, ACCEPTED, Ok(1))?;
    for (text, line, kind) in &REFUTED {
        let want = Err(Refuted {
            line: *line,
            kind: *kind,
        });
        expect_answer(rt, alloc, basin, series, text, want)?;
    }
    Ok(())
}

#[test]
fn answers_the_same_in_pieces(rt: HostRuntime) -> Result<(), Fail> {
    let alloc = rt.alloc();
    let basin = basin_of(alloc, BASIN)?;
    let series = series_of_text(alloc, &basin, HEADER)?;
    expect_answers(&rt, alloc, &basin, &series)?;
    Ok(())
}

/// Gives a new checker a whole text, and compares how many lines are left before it and after it.
fn count_lines<R: Abort>(rt: &R, checker: &mut Checker)
    requires { CheckerStandsFor checker.old [] }
{
    assert!(rt; checker.lines_left() == 7);
    assert_eq!(rt; check_text(checker, ACCEPTED.as_bytes()), Ok(1));
    assert!(rt; checker.lines_left() == 0);
}

#[test]
fn counts_the_lines_that_are_left(rt: HostRuntime) -> Result<(), Fail> {
    let alloc = rt.alloc();
    let basin = basin_of(alloc, BASIN)?;
    let series = series_of_text(alloc, &basin, HEADER)?;
    let mut checker = Checker::open(alloc, &basin, &series)?;
    count_lines(&rt, &mut checker);
    drop(checker);
    Ok(())
}
