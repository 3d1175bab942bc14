//! Series of a small basin: faults, gaps and spellings.
ghost use Rattle.water_model.specs.Valid.{IsValidBasin};

use crate::basins::basin_of;
use inflow_file::{HEADER, SeriesFault, SeriesRefused, series_of_text};
use std::alloc::{AllocError, Global};
use std::process::Abort;
use water_model::types::{Basin, Series};
use water_text::month::Month;

/// Two months. The nodes `top` and `hill` are gauged, and `mouth` isn't.
const BASIN: &str = "\
    format = 1\nfirst_month = \"1900-01\"\nmonths = 2\n\
    [[node]]\nname = \"top\"\ninflow = \"gauged\"\n\
    [[node]]\nname = \"mouth\"\noutlet = true\n\
    [[node]]\nname = \"hill\"\ninflow = \"gauged\"\n\
    [[link]]\nname = \"a\"\nfrom = \"top\"\nto = \"mouth\"\n\
    [[link]]\nname = \"b\"\nfrom = \"hill\"\nto = \"mouth\"\n";

const JANUARY: Month = Month {
    year: 1900,
    month: 1,
};

const FEBRUARY: Month = Month {
    year: 1900,
    month: 2,
};

/// A table, and the number of the first record at fault with the fault.
static FAULTS: [(&[u8], SeriesFault, u64); 27] = [
    (b"", SeriesFault::Header, 1),
    (b"\xef\xbb\xbf", SeriesFault::Header, 1),
    (b"\n\n", SeriesFault::Header, 1),
    (b"month,node,amounts\n", SeriesFault::Header, 1),
    (b"Month,node,amount\n", SeriesFault::Header, 1),
    (b"month,node\n", SeriesFault::Header, 1),
    (b"month,kind,name,amount\n", SeriesFault::Header, 1),
    (b"month, node,amount\n", SeriesFault::Header, 1),
    (
        b"\xef\xbb\xbf\xef\xbb\xbfmonth,node,amount\n",
        SeriesFault::Header,
        1,
    ),
    (b"month,node,amount\n1900-01,top", SeriesFault::Csv, 2),
    (b"month,node,amount\n1900-01,top,1,2\n", SeriesFault::Csv, 2),
    (b"month,node,amount\n1900-01,\"top,1\n", SeriesFault::Csv, 2),
    (
        b"month,node,amount\n1900-1,top,1\n",
        SeriesFault::BadMonth,
        2,
    ),
    (
        b"month,node,amount\n1900-13,top,1\n",
        SeriesFault::BadMonth,
        2,
    ),
    (
        b"month,node,amount\n1799-12,top,1\n",
        SeriesFault::BadMonth,
        2,
    ),
    (
        b"month,node,amount\n\xff,nowhere,x\n",
        SeriesFault::BadMonth,
        2,
    ),
    (
        b"month,node,amount\n1899-12,nowhere,5\n",
        SeriesFault::NoSuchNode,
        2,
    ),
    (
        b"month,node,amount\n1900-01,Top,x\n",
        SeriesFault::NoSuchNode,
        2,
    ),
    (
        b"month,node,amount\n1900-01,\"t\"\"op\",1\n",
        SeriesFault::NoSuchNode,
        2,
    ),
    (
        b"month,node,amount\n1900-01,mouth,1\n",
        SeriesFault::NotGauged,
        2,
    ),
    (
        b"month,node,amount\n1900-01,top,1000000001\n",
        SeriesFault::BadAmount,
        2,
    ),
    (
        b"month,node,amount\n1900-01,top,\n",
        SeriesFault::BadAmount,
        2,
    ),
    (
        b"month,node,amount\n1900-01,top,-1\n",
        SeriesFault::BadAmount,
        2,
    ),
    (
        b"month,node,amount\n1900-01,top, 1\n",
        SeriesFault::BadAmount,
        2,
    ),
    (
        b"month,node,amount\n1900-01,top,00000000000000000001\n",
        SeriesFault::BadAmount,
        2,
    ),
    (
        b"month,node,amount\n1900-01,top,1\n1900-01,top,1\n1900-01,mouth,1\n",
        SeriesFault::Repeated,
        3,
    ),
    (
        b"month,node,amount\n1900-02,hill,1\n\n\n1900-01,hill,2\n1900-01,top,3\n1900-02,hill,1\n",
        SeriesFault::Repeated,
        5,
    ),
];

/// A table, and the first month with the first node for which it gives no amount.
static GAPS: [(&[u8], Month, u32); 5] = [
    (HEADER, JANUARY, 0),
    (b"month,node,amount", JANUARY, 0),
    (
        b"month,node,amount\n1900-01,top,1\n1900-02,top,1\n",
        JANUARY,
        2,
    ),
    (
        b"month,node,amount\n1900-01,hill,1\n1900-02,hill,1\n1900-01,top,1\n",
        FEBRUARY,
        0,
    ),
    (
        b"month,node,amount\n1900-02,top,1\n1900-01,hill,1\n1900-01,top,1\n1900-03,hill,1\n",
        FEBRUARY,
        2,
    ),
];

/// A table, and the amounts of `top` and `hill` in the first month, and in the second.
static SPELLED: [(&[u8], [u64; 4]); 5] = [
    (
        b"month,node,amount\n1900-01,top,1\n1900-01,hill,2\n1900-02,top,3\n1900-02,hill,4\n",
        [1, 2, 3, 4],
    ),
    (
        b"\xef\xbb\xbfmonth,node,amount\r\n1900-02,hill,4\r\n1900-01,hill,2\r\n1900-02,top,3\r\n1900-01,top,1\r\n",
        [1, 2, 3, 4],
    ),
    (
        b"month,node,amount\r\
          1900-02,hill,0\r\
          \r\
          1900-01,hill,1000000000\r\
          1900-02,top,007\r\
          1900-01,top,0000000000000000001",
        [1, 1_000_000_000, 7, 0],
    ),
    (
        b"\"month\",\"node\",\"amount\"\n\
          \"1900-01\",\"top\",\"1\"\n\
          1900-01,\"hill\",2\n\
          1900-02,top,\"3\"\n\
          \n\
          \n\
          1900-02,hill,4",
        [1, 2, 3, 4],
    ),
    (
        b"month,node,amount\n\
          1899-12,top,9\n\
          1899-12,top,9\n\
          1900-01,top,1\n\
          1900-01,hill,2\n\
          2999-12,hill,9\n\
          1900-03,top,9\n\
          1900-02,top,3\n\
          1900-02,hill,4\n\
          1900-03,top,9\n",
        [1, 2, 3, 4],
    ),
];

/// What a table is refused for.
fn refusal(alloc: Global, basin: &Basin, text: &[u8]) -> Option<SeriesRefused>
    requires { IsValidBasin basin.now }
{
    series_of_text(alloc, basin, text).err()
}

fn expect_refused<R: Abort + AllocGlobal>(
    rt: &R,
    text: &[u8],
    want: SeriesRefused,
) -> Result<(), AllocError> {
    let basin = basin_of(rt.alloc(), BASIN)?;
    assert_eq!(rt; refusal(rt.alloc(), &basin, text), Some(want));
    Ok(())
}

#[test]
fn names_the_first_fault(rt: HostRuntime) -> Result<(), AllocError> {
    for (text, fault, number) in &FAULTS {
        expect_refused(
            &rt,
            text,
            SeriesRefused::Record {
                fault: *fault,
                number: *number,
            },
        )?;
    }
    Ok(())
}

#[test]
fn names_the_first_gap(rt: HostRuntime) -> Result<(), AllocError> {
    for (text, month, node) in &GAPS {
        expect_refused(
            &rt,
            text,
            SeriesRefused::Missing {
                month: *month,
                node: *node,
            },
        )?;
    }
    Ok(())
}

/// Whether a series is of the gauges `top` and `hill` and has these amounts.
fn has_amounts(series: &Series, want: &[u64; 4]) -> bool {
    series.gauged.as_slice() == [0, 2].as_slice() && series.amount.as_slice() == want.as_slice()
}

/// Reads a table and compares its amounts.
fn expect_amounts<R: Abort>(rt: &R, alloc: Global, basin: &Basin, text: &[u8], want: &[u64; 4])
    requires { IsValidBasin basin.now }
{
    match series_of_text(alloc, basin, text) {
        Ok(series) => assert!(rt; has_amounts(&series, want), "other amounts than {want:?}"),
        Err(e) => panic!(rt; "a series is refused: {e:?}"),
    }
}

#[test]
fn reads_the_amounts(rt: HostRuntime) -> Result<(), AllocError> {
    let basin = basin_of(rt.alloc(), BASIN)?;
    for (text, want) in &SPELLED {
        expect_amounts(&rt, rt.alloc(), &basin, text, want);
    }
    Ok(())
}

/// A record, many records for months outside the run, and the first record again.
fn far_apart(alloc: Global) -> Result<Vec<u8>, AllocError> {
    let mut text = Vec::new(alloc);
    text.extend_from_slice(b"month,node,amount\n1900-02,hill,1\n")?;
    for _ in 0..3000 {
        text.extend_from_slice(b"1900-03,hill,1\n")?;
    }
    text.extend_from_slice(b"1900-02,hill,1\n1900-02,hill,1\n")?;
    Ok(text)
}

#[test]
fn finds_a_record_far_apart(rt: HostRuntime) -> Result<(), AllocError> {
    let text = far_apart(rt.alloc())?;
    expect_refused(
        &rt,
        text.as_slice(),
        SeriesRefused::Record {
            fault: SeriesFault::Repeated,
            number: 3003,
        },
    )
}
