//! Months from 1800-01 to 2999-12.
ghost use Rattle.std.specs.Prelude.{◌≡◌, ◌+◌, ◌≤◌, ◌++◌, length, codes, IfSome};
ghost use Rattle.water_text.specs.Months.{IsMonth, is_month, read_month, month_within, month_digits, days_of, days_in};
ghost use Rattle.water_text.specs.Shapes.{has_shape};

use crate::digits::value_at;
use crate::line::Line;
use crate::shape::has_shape;
use jiff::civil::date;

/// A month of a year: `month` is 1 for January to 12 for December. Calls require a year from 1800 to 2999.
#[derive(Clone, Copy, Debug, PartialEq, Eq)]
pub struct Month {
    pub year: u16,
    pub month: u8,
}

/// Whether the text is four digits, `-` and two digits.
pub fn has_month_shape(text: &[u8]) -> bool
    ensures { result ≡ has_shape (codes "dddd-dd") text.now }
{
    has_shape(b"dddd-dd", text)
}

/// How many days a month has, by the calendar's day numbers.
pub(crate) fn days_in(year: u16, month: u8) -> u8
    requires year { year ≤ 2999 }
    requires low { 1 ≤ month }
    requires high { month ≤ 12 }
    ensures value { result ≡ days_in year month }
    ensures bounded { result ≤ 31 }
{
    date(year as i16, month as i8, 1).days_in_month() as u8
}

impl Month {
    fn is_within(&self) -> bool
        ensures { result ≡ is_month self.now }
    {
        1800 <= self.year && self.year <= 2999 && 1 <= self.month && self.month <= 12
    }

    /// The month that the text `YYYY-MM` spells, or `None` where it spells none from 1800-01 to 2999-12.
    #[tactic(auto, using(crate::proofs::ShapeLaws::month_text), unfolding(crate::specs::Months::read_month))]
    pub fn read(text: &[u8]) -> Option<Month>
        ensures value { result ≡ read_month text.now }
        ensures month { IfSome result IsMonth }
    {
        if !has_month_shape(text) {
            return None;
        }
        let month = Month {
            year: value_at(text, 0, 4),
            month: value_at(text, 5, 7) as u8,
        };
        if month.is_within() { Some(month) } else { None }
    }

    /// The following month, or `None` after 2999-12.
    pub fn next(&self) -> Option<Month>
        requires { IsMonth self.now }
        ensures value { result ≡ month_within self.now 1 }
        ensures month { IfSome result IsMonth }
    {
        self.plus(1)
    }

    /// The month `n` months later, or `None` where that is past 2999-12.
    pub fn plus(&self, n: u32) -> Option<Month>
        requires { IsMonth self.now }
        ensures value { result ≡ month_within self.now n }
        ensures month { IfSome result IsMonth }
    {
        let months = u64::from(self.month) - 1 + u64::from(n);
        let year = u64::from(self.year) + months / 12;
        if year > 2999 {
            return None;
        }
        Some(Month {
            year: year as u16,
            month: (months % 12) as u8 + 1,
        })
    }

    /// How many days the month has.
    pub fn days(&self) -> u8
        requires { IsMonth self.now }
        ensures value { result ≡ days_of self.now }
        ensures bounded { result ≤ 31 }
    {
        days_in(self.year, self.month)
    }

    /// Appends the month to a line as `YYYY-MM`, which has to fit.
    pub fn put_into(&self, line: &mut Line)
        requires month { IsMonth self.now }
        requires room { length line.old + 7 ≤ 128 }
        ensures text { line.new ≡ line.old ++ month_digits self.now }
        ensures length { length line.new ≡ length line.old + 7 }
    {
        line.amount(u64::from(self.year));
        line.word(b"-");
        line.word(&[b'0' + self.month / 10, b'0' + self.month % 10]);
    }
}
