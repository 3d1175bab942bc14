//! What the readers answer and what a line holds, at the ends of their ranges.
use water_text::amount::{read_amount, read_plain};
use water_text::day::Day;
use water_text::line::Line;
use water_text::month::Month;
use water_text::name::Name;

#[tactic(auto, using(water_text::proofs::AmountLaws::decimal_short))]
fn flow_line(value: u64) -> Line {
    let mut line = Line::new();
    line.word(b"flow ");
    line.amount(value);
    line
}

/// Texts, and whether each is a name.
static NAMES: [(&str, bool); 6] = [
    ("Gauge_2-b", true),
    ("-", true),
    ("abcdefghijklmnopqrstuvwxyz012345", true),
    ("", false),
    ("abcdefghijklmnopqrstuvwxyz0123456", false),
    ("gauge 2", false),
];

#[test]
fn reads_names(rt: HostRuntime) {
    for (text, wanted) in &NAMES {
        assert!(rt;
            Name::read(text.as_bytes()).is_some() == *wanted,
            "name {text}"
        );
    }
}

/// Texts, the days of each as a month, and the month after; 0 where the text is no month, "" where none follows.
static MONTHS: [(&str, u8, &str); 12] = [
    ("1799-12", 0, ""),
    ("1800-01", 31, "1800-02"),
    ("1900-02", 28, "1900-03"),
    ("1904-02", 29, "1904-03"),
    ("2000-02", 29, "2000-03"),
    ("1999-12", 31, "2000-01"),
    ("2999-12", 31, ""),
    ("3000-01", 0, ""),
    ("1900-1", 0, ""),
    ("1900-13", 0, ""),
    ("1900-00", 0, ""),
    ("1900/01", 0, ""),
];

/// Whether a text is a month of these days, and this month comes after.
fn is_month(text: &[u8], days: u8, after: &[u8]) -> bool {
    let mut line = Line::new();
    let mut found = 0;
    if let Some(month) = Month::read(text) {
        found = month.days();
        if let Some(following) = month.next() {
            following.put_into(&mut line);
        }
    }
    found == days && line.bytes() == after
}

#[test]
fn reads_months(rt: HostRuntime) {
    for (text, days, after) in &MONTHS {
        assert!(rt;
            is_month(text.as_bytes(), *days, after.as_bytes()),
            "month {text}"
        );
    }
}

/// Texts, and whether each is a date.
static DATES: [(&str, bool); 8] = [
    ("1900-02-28", true),
    ("1900-02-29", false),
    ("2000-02-29", true),
    ("0001-01-01", true),
    ("0000-01-01", false),
    ("2999-12-31", true),
    ("1900-04-31", false),
    ("1900-13-01", false),
];

#[test]
fn tells_dates(rt: HostRuntime) {
    for (text, wanted) in &DATES {
        let is = match Day::read(text.as_bytes()) {
            Some(day) => day.is_date(),
            None => false,
        };
        assert!(rt; is == *wanted, "date {text}");
    }
}

/// Texts, and each as an amount and as a plain amount.
static AMOUNTS: [(&str, Option<u64>, Option<u64>); 7] = [
    ("0", Some(0), Some(0)),
    ("007", Some(7), None),
    (
        "9999999999999999999",
        Some(9999999999999999999),
        Some(9999999999999999999),
    ),
    ("00000000000000000001", None, None),
    ("", None, None),
    ("-1", None, None),
    ("1 000", None, None),
];

#[test]
fn reads_amounts(rt: HostRuntime) {
    for (text, amount, plain) in &AMOUNTS {
        let bytes = text.as_bytes();
        assert!(rt; read_amount(bytes, u64::MAX) == *amount, "amount {text}");
        assert!(rt; read_plain(bytes, u64::MAX) == *plain, "plain {text}");
    }
}

/// Whether a line of a value has this text, and no text once it is cleared.
fn is_line(value: u64, text: &[u8]) -> bool {
    let mut line = flow_line(value);
    let written = line.bytes() == text && line.len() == text.len();
    line.clear();
    written && line.is_empty()
}

#[test]
fn writes_amounts(rt: HostRuntime) {
    for (value, wanted) in [
        (0, "flow 0"),
        (1004050, "flow 1004050"),
        (u64::MAX, "flow 18446744073709551615"),
    ] {
        assert!(rt; is_line(value, wanted.as_bytes()), "line of {value}");
    }
}
