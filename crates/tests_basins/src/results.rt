//! The lines of texts of small basins, accepted and refused.
ghost use Rattle.rights_roll.specs.Rolls.{IsRollOf};
ghost use Rattle.water_model.specs.Valid.{IsValidBasin};

use crate::basins::basin_of;
use result_lines::quantity::Quantity;
use result_reader::{BadLine, Item, ResultReader};
use rights_roll::roll::Roll;
use std::alloc::{AllocError, Global};
use std::process::Abort;
use water_model::types::Basin;
use water_text::month::Month;

const JANUARY: Month = Month {
    year: 1900,
    month: 1,
};

/// A spring above an outlet, and a river between them.
const SPRING: &str = "\
    format = 1\nfirst_month = \"1900-01\"\nmonths = 1\n\
    [[node]]\nname = \"top\"\ninflow = 60\n\
    [[node]]\nname = \"sea\"\noutlet = true\n\
    [[link]]\nname = \"a\"\nfrom = \"top\"\nto = \"sea\"\n";

/// The lines that a reader of its text is given one after the other, with the answer to each.
const LINES: &[(&str, Result<Item, BadLine>)] = &[
    ("run 1900-01 1", Err(BadLine::OutOfPlace)),
    ("river-result 2", Err(BadLine::BadField)),
    ("river-result 1", Ok(Item::Title)),
    (
        "run 1900-01 1",
        Ok(Item::Run {
            first: JANUARY,
            months: 1,
        }),
    ),
    (
        "xxxxxxxxxxxxxxxxxxxxxxxxxxxxxxxxxxxxxxxxxxxxxxxxxxxxxxxxxxxxxxxxxxxxxxxxxxxxxxxxxxxxxxxxxxxxxxxxxx\
         xxxxxxxxxxxxxxxxxxxxxxxxxxxxxxx",
        Err(BadLine::OverLong),
    ),
    ("months 1900-01", Err(BadLine::UnknownWord)),
    ("month 1900-1", Err(BadLine::BadField)),
    ("month 1900-02", Err(BadLine::OutOfPlace)),
    ("month 1900-01", Ok(Item::Month { month: JANUARY })),
    ("flow a 060", Err(BadLine::BadField)),
    ("flow b 60", Err(BadLine::OutOfPlace)),
    ("flow a  60", Err(BadLine::BadField)),
    ("flow a 60 1", Err(BadLine::BadField)),
    ("flow a", Err(BadLine::BadField)),
    ("flow a ", Err(BadLine::BadField)),
    ("flow a 1000000000000001", Err(BadLine::BadField)),
    ("flow ab 60", Err(BadLine::OutOfPlace)),
    ("flows a 60", Err(BadLine::UnknownWord)),
    ("flow  a 60", Err(BadLine::BadField)),
    (
        "flow a 600000000000000000000000000000000000000000000000000000000000000000000000000000000000000000000000000\
         0000000000000000000000000000000",
        Err(BadLine::OverLong),
    ),
    (
        "flow a 60",
        Ok(Item::Amount {
            quantity: Quantity::Flow,
            entry: 0,
            amount: 60,
        }),
    ),
    ("in top", Err(BadLine::OutOfPlace)),
    ("end", Err(BadLine::OutOfPlace)),
    ("out se 60", Err(BadLine::OutOfPlace)),
    ("out top 60", Err(BadLine::OutOfPlace)),
    (
        "out sea 60",
        Ok(Item::Amount {
            quantity: Quantity::Outflow,
            entry: 1,
            amount: 60,
        }),
    ),
    ("end", Ok(Item::End)),
    ("done 2", Err(BadLine::OutOfPlace)),
    ("done 1", Ok(Item::Done { months: 1 })),
    ("river-result 1", Err(BadLine::OutOfPlace)),
];

/// Two links, of which one's name begins the other's, and two rights of which the junior stands at the spring.
const RIGHTS: &str = "\
    format = 1\nfirst_month = \"1900-01\"\nmonths = 1\n\
    [[node]]\nname = \"top\"\ninflow = 80\n\
    [[node]]\nname = \"mid\"\n\
    [[node]]\nname = \"mouth\"\noutlet = true\n\
    [[link]]\nname = \"a\"\nfrom = \"top\"\nto = \"mid\"\n\
    [[link]]\nname = \"ab\"\nfrom = \"mid\"\nto = \"mouth\"\n\
    [[diversion]]\nname = \"old\"\nnode = \"mid\"\ndate = \"1890-01-01\"\nwant = 60\n\
    [[diversion]]\nname = \"new\"\nnode = \"top\"\ndate = \"1920-01-01\"\nwant = 50\n";

/// What a reader of its text answers. A line that is refused leaves it as it was: the `month` line comes after four of
/// them.
const LINES_OF_RIGHTS: &[(&str, Result<Item, BadLine>)] = &[
    ("river-result 1", Ok(Item::Title)),
    (
        "run 1900-01 1",
        Ok(Item::Run {
            first: JANUARY,
            months: 1,
        }),
    ),
    (
        "xxxxxxxxxxxxxxxxxxxxxxxxxxxxxxxxxxxxxxxxxxxxxxxxxxxxxxxxxxxxxxxxxxxxxxxxxxxxxxxxxxxxxxxxxxxxxxxxxxxx\
         xxxxxxxxxxxxxxxxxxxxxxxxxxxxx",
        Err(BadLine::OverLong),
    ),
    ("months 1900-01", Err(BadLine::UnknownWord)),
    ("month 1900-1", Err(BadLine::BadField)),
    ("month 1900-02", Err(BadLine::OutOfPlace)),
    ("month 1900-01", Ok(Item::Month { month: JANUARY })),
    ("flow a 060", Err(BadLine::BadField)),
    ("flow ab 0", Err(BadLine::OutOfPlace)),
    (
        "flow a 60",
        Ok(Item::Amount {
            quantity: Quantity::Flow,
            entry: 0,
            amount: 60,
        }),
    ),
    ("flow a 0", Err(BadLine::OutOfPlace)),
    (
        "flow ab 1000000000000000",
        Ok(Item::Amount {
            quantity: Quantity::Flow,
            entry: 1,
            amount: 1_000_000_000_000_000,
        }),
    ),
    ("deliver new 20 50", Err(BadLine::OutOfPlace)),
    ("deliver old 40", Err(BadLine::BadField)),
    ("deliver old 40 60 60", Err(BadLine::BadField)),
    ("deliver old 040 60", Err(BadLine::BadField)),
    ("deliver old 40 060", Err(BadLine::BadField)),
    ("deliver old 40  60", Err(BadLine::BadField)),
    ("deliver old 40 1000000000000001", Err(BadLine::BadField)),
    (
        "deliver old 40 60",
        Ok(Item::Deliver {
            right: 0,
            amount: 40,
            want: 60,
        }),
    ),
];

/// Lines that its reader accepts, up to those of a second set. The first one begins with `mid`.
const LINES_TO_SET: &[&str] = &[
    "river-result 1",
    "run 1900-01 1",
    "month 1900-01",
    "flow a 60",
    "flow ab 60",
    "deliver old 60 60",
    "deliver new 20 50",
    "out mouth 60",
    "call old",
    "in mid",
    "call new",
];

/// Bytes that the reader is given then, with the node whose line it takes from them. At first the likely node is `mid`.
const PIECES: &[(&str, Option<u32>)] = &[
    ("", None),
    ("in mid", None),
    ("in mi\n", None),
    ("in midx\n", None),
    ("in mid \n", None),
    (" in mid\n", None),
    ("in top\n", None),
    ("in mid\nin mouth\n", Some(1)),
    ("in mid\n", None),
];

/// Gives a reader a line, and compares its answer.
fn read_line<R: Abort>(
    rt: &R,
    reader: &mut ResultReader,
    text: &str,
    answer: &Result<Item, BadLine>,
) {
    let read = reader.line(text.as_bytes());
    assert_eq!(rt; read, *answer, "line {text}");
}

/// Gives a reader lines one after the other, and compares its answers.
fn read_lines<R: Abort>(
    rt: &R,
    reader: &mut ResultReader,
    lines: &[(&str, Result<Item, BadLine>)],
) {
    for (text, answer) in lines {
        read_line(rt, reader, text, answer);
    }
}

/// Gives a reader these lines, and compares how many may be left before and after.
fn count_left<R: Abort>(
    rt: &R,
    reader: &mut ResultReader,
    lines: &[(&str, Result<Item, BadLine>)],
    left: (u64, u64),
) {
    assert!(rt; reader.lines_left() == left.0);
    read_lines(rt, reader, lines);
    assert!(rt; reader.lines_left() == left.1);
}

/// Gives a new reader for a basin with a roll these lines, and compares how many may be left before and after.
fn read_with<R: Abort>(
    rt: &R,
    alloc: Global,
    basin: &Basin,
    roll: &Roll,
    lines: &[(&str, Result<Item, BadLine>)],
    left: (u64, u64),
) -> Result<(), AllocError>
    requires basin { IsValidBasin basin.now }
    requires roll { IsRollOf basin.now.rights roll.now }
{
    let mut reader = ResultReader::open(alloc, basin, roll)?;
    count_left(rt, &mut reader, lines, left);
    drop(reader);
    Ok(())
}

/// Gives a new reader for a basin these lines.
fn read_all<R: Abort>(
    rt: &R,
    alloc: Global,
    text: &str,
    lines: &[(&str, Result<Item, BadLine>)],
    left: (u64, u64),
) -> Result<(), AllocError> {
    let basin = basin_of(alloc, text)?;
    let roll = Roll::of_basin(alloc, &basin)?;
    read_with(rt, alloc, &basin, &roll, lines, left)
}

#[test]
fn accepts_what_may_come(rt: HostRuntime) -> Result<(), AllocError> {
    read_all(&rt, rt.alloc(), SPRING, LINES, (7, 0))?;
    read_all(&rt, rt.alloc(), RIGHTS, LINES_OF_RIGHTS, (20, 14))
}

/// Gives a reader some bytes, and compares the node whose line it takes from them.
fn take_member<R: Abort>(rt: &R, reader: &mut ResultReader, piece: &str, node: Option<u32>) {
    let taken = match reader.likely_member(piece.as_bytes()) {
        Some(line) => Some(line.node),
        None => None,
    };
    assert_eq!(rt; taken, node, "bytes {piece}");
}

/// Gives a reader the lines up to those of a set, and then bytes.
fn take_members<R: Abort>(rt: &R, reader: &mut ResultReader) {
    for text in LINES_TO_SET {
        assert!(rt; reader.line(text.as_bytes()).is_ok(), "line {text}");
    }
    for (piece, node) in PIECES {
        take_member(rt, reader, piece, *node);
    }
}

#[test]
fn takes_the_likely_members(rt: HostRuntime) -> Result<(), AllocError> {
    let alloc = rt.alloc();
    let basin = basin_of(alloc, RIGHTS)?;
    let roll = Roll::of_basin(alloc, &basin)?;
    let mut reader = ResultReader::open(alloc, &basin, &roll)?;
    take_members(&rt, &mut reader);
    drop(reader);
    Ok(())
}
